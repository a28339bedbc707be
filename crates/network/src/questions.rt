//! What a closed network answers.

ghost use Rattle.std.specs.Prelude.{◌≡◌, length};
ghost use Rattle.network.specs.Calls.{TellsEnds, TellsNumber};
ghost use Rattle.network.specs.Net.{Sound};
ghost use Rattle.network.specs.Times.{FrameTime};
ghost use Rattle.network.specs.Views.{closed};

use crate::closed::Network;
use crate::numbers::{Link, Numbers};

impl Network {
    /// The five numbers.
    pub fn numbers(&self) -> Numbers
        ensures value { result ≡ (closed self.now).numbers }
        ensures sound { Sound (closed self.now) }
    {
        self.wiring.numbers
    }

    /// How many links there are.
    pub fn links(&self) -> u32
        ensures { result ≡ length (closed self.now).links }
    {
        self.wiring.links.len() as u32
    }

    /// The ends of the link of a number, if there is one; links are numbered from 1.
    pub fn link(&self, number: u32) -> Option<Link>
        ensures { TellsEnds (closed self.now) number result }
    {
        let place = number.checked_sub(1)?;
        self.wiring.links.get(place as usize).copied()
    }

    /// The links, in order of their numbers.
    pub fn wired(&self) -> &[Link]
        ensures { result.now ≡ (closed self.now).links }
    {
        self.wiring.links.as_slice()
    }

    /// The number of the link between two nodes, if there is one.
    // The search is the draft's, which asks the same before it adds a link.
    pub fn link_between(&self, from: u32, to: u32) -> Option<u32>
        ensures { TellsNumber (closed self.now) from to result }
    {
        self.wiring.number_between(from, to)
    }

    /// The ticks that a frame of so many bytes holds a link: the fewest that last at least as long as the frame.
    pub fn frame_time(&self, size: u32) -> u64
        ensures { FrameTime (closed self.now) size result }
    {
        let numbers = self.numbers();
        let byte_time = u64::from(8000 / numbers.speed);
        let span = (u64::from(size) + 20) * byte_time;
        span.div_ceil(u64::from(numbers.tick))
    }
}
