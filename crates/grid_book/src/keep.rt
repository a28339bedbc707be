//! How a book in a grid looks at its cells and changes them.

ghost use Rattle.std.specs.Prelude.{◌≡◌, ◌<◌, Some, None, Ok, OnOk};
ghost use Rattle.book.specs.Calls.{Books, Releases, TellsHolder, book_rules, tick_rules};
ghost use Rattle.book.specs.Meanings.{row};
ghost use Rattle.book.specs.Spans.{span};
ghost use Rattle.limits.specs.Ranges.{Within};
ghost use Rattle.limits.specs.Refusals.{Checks, First};
ghost use Rattle.grid_book.specs.Cells.{spans};
ghost use Rattle.grid_book.specs.Views.{meaning_of};

use crate::cell::Cell;
use crate::grid::GridBook;
use crate::row::Row;
use book::{BookRefusal, Holding};

impl GridBook<'_> {
    // Passes a tick of a link that the book has, and else says why not: the check of each question and of a release.
    pub(crate) fn check_tick(&self, link: u32, tick: u32) -> Result<(), BookRefusal>
        ensures checks { Checks (tick_rules (meaning_of self.now) link tick) result }
        ensures there { OnOk result (Within 1 self.now.grid.extent.links link) }
        ensures inside { OnOk result (tick < self.now.grid.extent.cycle) }
    {
        self.grid.extent.check_tick(link, tick)
    }

    // The row of a link.
    #[tactic(auto, using(crate::proofs::Places::row_at))]
    pub(crate) fn row(&self, link: u32) -> Row<'_>
        requires { Within 1 self.now.grid.extent.links link }
        ensures row { spans result.cells.now ≡ row (meaning_of self.now) link }
        ensures cycle { result.cycle ≡ self.now.grid.extent.cycle }
    {
        let cells = self.grid.cells_of(link);
        let cycle = self.grid.extent.cycle;
        Row { cells, cycle }
    }

    // Passes a booking that can be added, and else says why not.
    pub(crate) fn check(&self, link: u32, start: u32, holding: Holding) -> Result<(), BookRefusal>
        ensures { Checks (book_rules (meaning_of self.now) link (span start holding.ticks holding.flow)) result }
    {
        self.grid.extent.check_booking(link, start, holding)?;
        if self.row(link).is_covered(start, holding) {
            return Err(BookRefusal::Covered);
        }
        if self.count >= self.room {
            return Err(BookRefusal::Full);
        }
        Ok(())
    }

    // Adds a booking that is not refused.
    pub(crate) fn add(&mut self, link: u32, start: u32, holding: Holding)
        requires { First (book_rules (meaning_of self.old) link (span start holding.ticks holding.flow)) None }
        ensures { Books (meaning_of self.old) link (span start holding.ticks holding.flow) (Ok tt) (meaning_of self.new) }
    {
        let first = Cell::First(holding);
        self.grid
            .paint(link, start, holding.ticks, first, Cell::Further);
        self.count += 1;
    }

    // Takes away the booking that begins at a tick.
    pub(crate) fn remove(&mut self, link: u32, start: u32, holding: Holding)
        requires { TellsHolder (meaning_of self.old) link start (Ok (Some holding)) }
        ensures { Releases (meaning_of self.old) link start (Ok holding.ticks) (meaning_of self.new) }
    {
        self.grid
            .paint(link, start, holding.ticks, Cell::Free, Cell::Free);
        self.count -= 1;
    }
}
