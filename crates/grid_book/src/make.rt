//! How a book in a grid is made.

ghost use Rattle.std.specs.Prelude.{length};
ghost use Rattle.book.specs.Bare.{empty};
ghost use Rattle.grid_book.specs.Made.{Made, Sized};
ghost use Rattle.grid_book.specs.Views.{meaning_of};

use crate::cell::Cell;
use crate::grid::{Grid, GridBook};
use book::Extent;
use limits::ROOM_MAX;

// What a book is made for.
#[derive(Clone, Copy)]
struct Size {
    extent: Extent,
    room: u32,
}

// The size of the book that so many cells give.
fn granted(cells: usize, room: u32, cycle: u32, links: u32) -> Size
    ensures made { Made cells room cycle links (empty result.extent.cycle result.extent.links result.room) }
    ensures sized { Sized cells result.extent.cycle result.extent.links result.room }
{
    let Some(extent) = Extent::asked(cycle, links) else {
        return Size {
            extent: Extent::LEAST,
            room: 0,
        };
    };
    let enough = links as usize * cycle as usize <= cells;
    let room = if room <= ROOM_MAX && enough { room } else { 0 };
    Size { extent, room }
}

impl<'a> GridBook<'a> {
    /// An empty book in the lent cells, whatever they hold. Its room is as wanted if that is 1 to 1,024 and there
    /// is a cell for each tick of each link, and else 0. For over 40 links, or a cycle out of 1 to 4,096, it has
    /// no link, cycle 1 and room 0.
    pub fn new(cells: &'a mut [Cell], room: u32, cycle: u32, links: u32) -> GridBook<'a>
        ensures { Made (length cells.old) room cycle links (meaning_of result) }
    {
        let size = granted(cells.len(), room, cycle, links);
        cells.fill(Cell::Free);
        let extent = size.extent;
        GridBook {
            grid: Grid { cells, extent },
            room: size.room,
            count: 0,
        }
    }
}
