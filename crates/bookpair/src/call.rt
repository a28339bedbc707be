//! Calls of a book and their answers, as values.

use book::Holding;

/// A call of a book.
// A value and no closure: it is drawn from a seed, and made of two books in turn.
#[derive(Clone, Copy)]
pub enum Call {
    /// Whether a tick of a link is free, and how many from it on are alike.
    Run {
        /// The link.
        link: u32,
        /// The tick.
        tick: u32,
    },
    /// Which booking begins at a tick of a link.
    Holder {
        /// The link.
        link: u32,
        /// The tick.
        tick: u32,
    },
    /// To add a booking.
    Book {
        /// The link.
        link: u32,
        /// The first tick.
        start: u32,
        /// How many ticks it covers.
        ticks: u32,
        /// The flow that it is for.
        flow: u32,
    },
    /// To take a booking away.
    Release {
        /// The link.
        link: u32,
        /// The first tick.
        start: u32,
    },
}

/// What a book answers a call that it does not refuse.
#[derive(Clone, Copy, PartialEq, Eq, Debug)]
pub enum Answer {
    /// Whether the tick is free, and how many from it on are alike.
    Runs {
        /// Whether the tick is free.
        free: bool,
        /// How many ticks are alike.
        ticks: u32,
    },
    /// The booking that begins at the tick, if there is one.
    Held(Option<Holding>),
    /// The booking is added.
    Booked,
    /// The booking is taken away.
    Released {
        /// How many ticks it covered.
        ticks: u32,
    },
}
