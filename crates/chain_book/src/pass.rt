//! What a pass along the bookings of a link is.

ghost use Rattle.std.specs.Prelude.{◌≤◌};
ghost use Rattle.book.specs.Spans.{Orderly};
ghost use Rattle.chain_book.specs.Bookings.{spans_of};
ghost use Rattle.chains.specs.Views.{left_of};
ghost use Rattle.limits.specs.Ranges.{cycle_max};

use crate::booking::Booking;
use chains::Walk;

// The bookings of a link, as they are ahead of a pass in the cycle that they are orderly in. A tick is in range of one cycle, so each pass asks for it.
#[derive(Drop)]
pub(crate) struct Pass<'a> {
    pub(crate) ahead: Walk<'a, Booking>,
    pub(crate) cycle: u32,
    ghost orderly: { ∥ Orderly cycle (spans_of (left_of ahead)) ∥₁ },
    ghost limited: { cycle ≤ cycle_max },
}
