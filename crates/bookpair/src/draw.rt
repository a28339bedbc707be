//! Calls drawn at random, the same at each run.

ghost use Rattle.std.specs.Prelude.{◌≡◌, ◌+◌, ◌/◌, ◌%◌, ◌^◌, ◌<◌};
ghost use Rattle.bookpair.specs.Draws.{Drawn, stirred};

use crate::call::Call;

// Numbers that look as if drawn: the state is stirred for each.
#[derive(Drop)]
struct Numbers {
    state: u32,
}

impl Numbers {
    // A number below a bound.
    fn below(&mut self, bound: u32) -> u32
        requires { 0 < bound }
        ensures drawn { result ≡ stirred self.old.state / 2 ^ 16 % bound }
        ensures bounded { result < bound }
        ensures after { self.new.state ≡ stirred self.old.state }
    {
        self.state = self
            .state
            .wrapping_mul(1_664_525)
            .wrapping_add(1_013_904_223);
        (self.state >> 16) % bound
    }

    // A link from 0 to 5, mostly one of the four.
    fn link(&mut self) -> u32
        ensures { result < 6 }
    {
        if self.below(4) == 0 {
            self.below(6)
        } else {
            1 + self.below(4)
        }
    }

    // A tick from 0 to one past the cycle, mostly a multiple of 4, so that releases meet bookings.
    fn tick(&mut self, cycle: u32) -> u32
        ensures { result < cycle + 2 }
    {
        let tick = self.below(cycle.saturating_add(2));
        if self.below(4) == 0 {
            tick
        } else {
            tick / 4 * 4
        }
    }

    // A length from 0 to one past the cycle, mostly of 1 to 3 ticks.
    fn length(&mut self, cycle: u32) -> u32
        ensures { result < cycle + 2 }
    {
        if self.below(8) == 0 {
            self.below(cycle.saturating_add(2))
        } else {
            cycle.min(1 + self.below(3))
        }
    }
}

/// Draws calls for books of at most 4 links and of some cycle.
#[derive(Drop)]
pub struct Draw {
    numbers: Numbers,
    cycle: u32,
}

impl Draw {
    /// Draws from a seed on, for a cycle.
    pub fn new(seed: u32, cycle: u32) -> Draw
        ensures seeded { result.numbers.state ≡ seed }
        ensures cycle { result.cycle ≡ cycle }
    {
        let numbers = Numbers { state: seed };
        Draw { numbers, cycle }
    }

    /// The next call: of a link from 0 to 5, at a tick and of a length from 0 to one past the cycle, and for a flow
    /// from 0 to 49.
    pub fn next_call(&mut self) -> Call
        ensures drawn { Drawn self.old.cycle result }
        ensures kept { self.new.cycle ≡ self.old.cycle }
    {
        let link = self.numbers.link();
        let tick = self.numbers.tick(self.cycle);
        match self.numbers.below(6) {
            0 => Call::Run { link, tick },
            1 => Call::Holder { link, tick },
            2 | 3 => Call::Book {
                link,
                start: tick,
                ticks: self.numbers.length(self.cycle),
                flow: self.numbers.below(50),
            },
            _ => Call::Release { link, start: tick },
        }
    }
}
