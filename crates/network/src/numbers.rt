//! The plain values that a network is made of.

ghost use Rattle.std.specs.Prelude.{Decides};
ghost use Rattle.network.specs.Net.{InRange, Node};

use limits::Quantity;

/// The five numbers of a network, in any range: a draft checks them.
#[derive(Clone, Copy, PartialEq, Eq, Debug)]
pub struct Numbers {
    /// How many nodes there are, 2 to 12; they are numbered from 1.
    pub nodes: u32,
    /// The speed of every link in Mbit/s: 10, 100 or 1000.
    pub speed: u32,
    /// The length of a tick in nanoseconds, 1 to 1,000,000.
    pub tick: u32,
    /// The ticks that a switch takes to forward a whole frame, 0 to 64.
    pub forwarding: u32,
    /// The length of the cycle in ticks, 1 to 4,096.
    pub cycle: u32,
}

impl Numbers {
    // Whether each number is in its range.
    pub(crate) fn are_in_range(self) -> bool
        ensures { Decides result (InRange self) }
    {
        (2..=12).contains(&self.nodes)
            && matches!(self.speed, 10 | 100 | 1000)
            && Quantity::Tick.has(self.tick)
            && (0..=64).contains(&self.forwarding)
            && Quantity::Cycle.has(self.cycle)
    }

    // Whether there is a node of a number.
    pub(crate) fn has_node(self, number: u32) -> bool
        ensures { Decides result (Node self number) }
    {
        (1..=self.nodes).contains(&number)
    }
}

/// A one-way link between two nodes.
#[derive(Clone, Copy, PartialEq, Eq, Debug, Default)]
pub struct Link {
    /// The node that sends.
    pub from: u32,
    /// The node that receives.
    pub to: u32,
}
