//! Booking records.

ghost use Rattle.std.specs.Prelude.{◌≡◌};

use book::Holding;
use chains::Keyed;

/// A booking as it is kept in a chain: the chain of its link has it by its start.
// Flat, with no `Holding` inside: whoever lends records fills them field by field, and `From` gives the pair that is answered.
#[derive(Clone, Copy)]
pub struct Booking {
    /// The first tick.
    pub start: u32,
    /// How many ticks it covers, going round.
    pub ticks: u32,
    /// The flow that it is for.
    pub flow: u32,
}

impl Keyed for Booking {
    ghost keyed = { λ b. b.start };

    fn key(&self) -> u32 {
        self.start
    }
}

/// How long the booking lasts, and for whom.
impl From<Booking> for Holding {
    ghost from_gives = { λ b h. h ≡ record { ticks = b.ticks; flow = b.flow } };

    fn from(booking: Booking) -> Holding {
        Holding {
            ticks: booking.ticks,
            flow: booking.flow,
        }
    }
}
