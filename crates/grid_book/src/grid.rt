//! What a book in a grid is.

ghost use Rattle.std.specs.Prelude.{◌≡◌, ◌-◌, ◌*◌, ◌<◌, ◌≤◌, length};
ghost use Rattle.book.specs.Bare.{InRange};
ghost use Rattle.limits.specs.Ranges.{Within};
ghost use Rattle.grid_book.specs.Grids.{cells_of, RowPainted, Sound};
ghost use Rattle.grid_book.specs.Props.{sound_prop};

use crate::cell::Cell;
use crate::row::paint;
use book::Extent;

// The lent cells, with no claim about what they hold, and what they are for.
// Cells of all links in one slice: they are lent, and nothing here may allocate. A link is in range of one grid, so
// each step asks for it, which a type of links could not say.
#[derive(Drop)]
pub(crate) struct Grid<'a> {
    pub(crate) cells: &'a mut [Cell],
    pub(crate) extent: Extent,
    ghost ranged: { InRange extent.cycle extent.links },
}

/// A book that keeps its bookings in lent cells, one for each tick of each link.
#[derive(Drop)]
pub struct GridBook<'a> {
    pub(crate) grid: Grid<'a>,
    pub(crate) room: u32,
    pub(crate) count: u32,
    ghost sound: { Sound grid.extent.cycle grid.extent.links room count grid.cells.now } by { sound_prop grid.extent.cycle grid.extent.links room count grid.cells.now },
}

impl Grid<'_> {
    // The cells of a link, as far as there are any.
    pub(crate) fn cells_of(&self, link: u32) -> &[Cell]
        requires { Within 1 self.now.extent.links link }
        ensures { result.now ≡ cells_of self.now.extent.cycle (link - 1) self.now.cells.now }
    {
        let cycle = self.extent.cycle as usize;
        let len = self.cells.len();
        let from = ((link - 1) as usize * cycle).min(len);
        let to = (from + cycle).min(len);
        &self.cells[from..to]
    }

    // Writes the cells of a booking of a link: one at its first tick, and another at each further tick.
    pub(crate) fn paint(&mut self, link: u32, start: u32, ticks: u32, first: Cell, further: Cell)
        requires whole { self.old.extent.links * self.old.extent.cycle ≤ length self.old.cells.now }
        requires there { Within 1 self.old.extent.links link }
        requires begins { start < self.old.extent.cycle }
        requires lasts { Within 1 self.old.extent.cycle ticks }
        ensures painted { RowPainted self.old.extent.cycle (link - 1) start ticks first further self.old.cells.now self.new.cells.now }
        ensures kept { self.new.extent ≡ self.old.extent }
    {
        let cycle = self.extent.cycle as usize;
        let from = (link - 1) as usize * cycle;
        let to = from + cycle;
        paint(&mut self.cells[from..to], start, ticks, first, further);
    }
}
