//! The cells of a grid.

ghost use Rattle.std.specs.Prelude.{◌≡◌};
ghost use Rattle.grid_book.specs.Cells.{begun, is_free};

use book::Holding;

/// One tick of one link.
#[derive(Clone, Copy)]
pub enum Cell {
    /// The tick is free.
    Free,
    /// The first tick of a booking, with how long it lasts and for whom.
    First(Holding),
    /// A further tick of a booking.
    Further,
}

impl Cell {
    // Whether the tick is free.
    pub(crate) fn is_free(self) -> bool
        ensures { result ≡ is_free self }
    {
        matches!(self, Cell::Free)
    }

    // The booking whose first tick it is.
    pub(crate) fn begun(self) -> Option<Holding>
        ensures { result ≡ begun self }
    {
        match self {
            Cell::First(holding) => Some(holding),
            Cell::Free | Cell::Further => None,
        }
    }
}
