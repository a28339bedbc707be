//! The row of one link: its cells, tick by tick.

ghost use Rattle.std.specs.Prelude.{◌≡◌, ◌<◌, ◌≤◌, length, Decides};
ghost use Rattle.book.specs.Calls.{Clashes, Holds};
ghost use Rattle.book.specs.Spans.{span, Fits, Free, Run};
ghost use Rattle.limits.specs.Ranges.{Within, cycle_max};
ghost use Rattle.grid_book.specs.Cells.{cell_at, spans, Marked};
ghost use Rattle.grid_book.specs.Props.{marked_prop};
ghost use Rattle.grid_book.specs.Rows.{Painted};

use crate::cell::Cell;
use book::Holding;

// The cells of one link of a book, as far as there are any, and the cycle. A tick is in range of one cycle, so each question asks for it.
#[derive(Drop)]
pub(crate) struct Row<'a> {
    pub(crate) cells: &'a [Cell],
    pub(crate) cycle: u32,
    ghost marked: { Marked cycle cells.now } by { marked_prop cycle cells.now },
    ghost limited: { cycle ≤ cycle_max },
}

impl Row<'_> {
    // The cell of a tick; one that is not there is free.
    fn cell(&self, tick: u32) -> Cell
        ensures { result ≡ cell_at self.now.cells.now tick }
    {
        self.cells.get(tick as usize).copied().unwrap_or(Cell::Free)
    }

    // Whether a tick is free.
    fn is_free(&self, tick: u32) -> bool
        requires { tick < self.now.cycle }
        ensures { Decides result (Free self.now.cycle (spans self.now.cells.now) tick) }
    {
        self.cell(tick).is_free()
    }

    // The booking that begins at a tick.
    #[tactic(auto, using(crate::proofs::Starts::holds_at))]
    pub(crate) fn begun_at(&self, tick: u32) -> Option<Holding>
        ensures { Holds (spans self.now.cells.now) tick result }
    {
        self.cell(tick).begun()
    }

    // Whether a tick is free, and how many from it on, going round, are alike: the pair of `Book::run`.
    pub(crate) fn run(&self, tick: u32) -> (bool, u32)
        requires { tick < self.now.cycle }
        ensures free { Decides result.0 (Free self.now.cycle (spans self.now.cells.now) tick) }
        ensures run { Run self.now.cycle (spans self.now.cells.now) tick result.1 }
    {
        let free = self.is_free(tick);
        let ticks = (1..self.cycle)
            .find(|past| self.is_free((tick + past) % self.cycle) != free)
            .unwrap_or(self.cycle);
        (free, ticks)
    }

    // Whether a tick of a booking is covered already.
    pub(crate) fn is_covered(&self, start: u32, holding: Holding) -> bool
        requires { Fits self.now.cycle (span start holding.ticks holding.flow) }
        ensures { Decides result (Clashes self.now.cycle (spans self.now.cells.now) (span start holding.ticks holding.flow)) }
    {
        (0..holding.ticks).any(|past| !self.is_free((start + past) % self.cycle))
    }
}

// Writes the cells of a booking: one at its first tick, and another at each further tick.
// It goes by how far past the start a cell is, since a booking goes round the end of the row and no slice does.
pub(crate) fn paint(row: &mut [Cell], start: u32, ticks: u32, first: Cell, further: Cell)
    requires limited { length row.old ≤ cycle_max }
    requires begins { start < length row.old }
    requires lasts { Within 1 (length row.old) ticks }
    ensures { Painted (length row.old) start ticks first further row.old row.new }
{
    let cycle = row.len();
    let start = start as usize;
    row[start] = first;
    for past in 1..ticks as usize {
        row[(start + past) % cycle] = further;
    }
}
