//! What a book answers beside numbers.

ghost use Rattle.std.specs.Prelude.{◌≡◌};
ghost use Rattle.book.specs.Refusals.{number_of};

/// Why a book refuses a call; it is then as it was.
#[derive(Clone, Copy, PartialEq, Eq, Debug)]
pub enum BookRefusal {
    /// 42: there is no link of that number.
    NoSuchLink = 42,
    /// 43: a tick, a length or a flow number is out of its range.
    OutOfRange = 43,
    /// 72: a tick of the booking is covered already.
    Covered = 72,
    /// 73: as many bookings stand as there is room for.
    Full = 73,
    /// 74: no booking begins at the tick.
    NoneBegins = 74,
}

/// How long a booking lasts, and for whom.
#[derive(Clone, Copy, PartialEq, Eq, Debug)]
pub struct Holding {
    /// How many ticks the booking covers.
    pub ticks: u32,
    /// The flow that it is for.
    pub flow: u32,
}

impl BookRefusal {
    /// The number that stands for the refusal.
    // Each enum has its own: a cast cannot be written for a type parameter.
    pub fn number(self) -> u32
        ensures { result ≡ number_of self }
    {
        self as u32
    }
}
