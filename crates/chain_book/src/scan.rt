//! Passes along the bookings of a link.

ghost use Rattle.std.specs.Prelude.{◌≡◌, ◌<◌, ◌≤◌, Decides};
ghost use Rattle.book.specs.Calls.{Clashes};
ghost use Rattle.book.specs.Spans.{offset as spec_offset};
ghost use Rattle.chain_book.specs.Bookings.{spans_of, to_span};
ghost use Rattle.chain_book.specs.Scans.{Extends, Gap, Overlaps, Placed};
ghost use Rattle.chains.specs.Views.{left_of};
ghost use Rattle.limits.specs.Ranges.{cycle_max};

use crate::booking::Booking;
use crate::pass::Pass;

// How many ticks after the start a tick comes, going round.
fn ticks_after(cycle: u32, start: u32, tick: u32) -> u32
    requires start { start < cycle }
    requires tick { tick < cycle }
    requires limited { cycle ≤ cycle_max }
    ensures { result ≡ spec_offset cycle start tick }
{
    (tick + cycle - start) % cycle
}

// Whether two bookings share a tick: one then covers the other's start.
fn overlap(cycle: u32, a: Booking, b: Booking) -> bool
    requires first { Placed cycle (to_span a) }
    requires second { Placed cycle (to_span b) }
    requires limited { cycle ≤ cycle_max }
    ensures { Decides result (Overlaps cycle (to_span a) (to_span b)) }
{
    ticks_after(cycle, a.start, b.start) < a.ticks || ticks_after(cycle, b.start, a.start) < b.ticks
}

impl Pass<'_> {
    // Whether a booking shares a tick with one of those ahead.
    pub(crate) fn clashes(self, booking: Booking) -> bool
        requires { Placed self.cycle (to_span booking) }
        ensures { Decides result (Clashes self.entry.cycle (spans_of (left_of self.entry.ahead)) (to_span booking)) }
    {
        let Pass { mut ahead, cycle } = self;
        ahead.any(|other| overlap(cycle, booking, other))
    }

    // How far the bookings ahead show the ticks from a tick on to be covered, of which so many are.
    pub(crate) fn extend(self, tick: u32, run: u32) -> u32
        requires inside { tick < self.cycle }
        requires within { run ≤ self.cycle }
        ensures { Extends self.entry.cycle (spans_of (left_of self.entry.ahead)) tick run result }
    {
        let Pass { ahead, cycle } = self;
        let mut reach = run;
        for booking in ahead {
            let passed = ticks_after(cycle, booking.start, (tick + reach) % cycle);
            if reach < cycle && passed < booking.ticks {
                reach = (reach + booking.ticks - passed).min(cycle);
            }
        }
        reach
    }

    // How many ticks after a tick the next of the bookings ahead begins, or the cycle.
    pub(crate) fn gap(self, tick: u32) -> u32
        requires { tick < self.cycle }
        ensures { Gap self.entry.cycle (spans_of (left_of self.entry.ahead)) tick result }
    {
        let Pass { ahead, cycle } = self;
        ahead
            .map(|booking| ticks_after(cycle, tick, booking.start))
            .min()
            .unwrap_or(cycle)
    }
}
