//! Building a network: a draft takes numbers and links, and is closed.

ghost use Rattle.std.specs.Prelude.{◌≡◌, ◌<◌, [], ◌∷◌, ◌++◌, length};
ghost use Rattle.limits.specs.Ranges.{link_max};
ghost use Rattle.network.specs.Calls.{first_net, SetsNumbers, AddsLink};
ghost use Rattle.network.specs.Net.{Ends, InRange, Linked};
ghost use Rattle.network.specs.Views.{drafted, closed};

use crate::closed::Network;
use crate::draft::Draft;
use crate::numbers::{Link, Numbers};
use crate::refusal::NetworkRefusal;
use arrayvec::ArrayVec;

impl Draft {
    /// A draft of 2 nodes, 100 Mbit/s, ticks of 1,000 ns, forwarding time 1 and cycle 1, with no link.
    pub fn new() -> Draft
        ensures { drafted result ≡ first_net }
    {
        Draft::bare(Numbers {
            nodes: 2,
            speed: 100,
            tick: 1000,
            forwarding: 1,
            cycle: 1,
        })
    }

    /// Sets the five numbers, while there is no link and if each is in its range.
    pub fn set_numbers(&mut self, numbers: Numbers) -> Result<(), NetworkRefusal>
        ensures sets { SetsNumbers (drafted self.old) numbers result (drafted self.new) }
    {
        if !self.links.is_empty() {
            return Err(NetworkRefusal::NumbersAfterLink);
        }
        if !numbers.are_in_range() {
            return Err(NetworkRefusal::NumberOutOfRange);
        }
        *self = Draft::bare(numbers);
        Ok(())
    }

    /// Adds a one-way link and answers its number; links are numbered from 1.
    pub fn add_link(&mut self, from: u32, to: u32) -> Result<u32, NetworkRefusal>
        ensures adds { AddsLink (drafted self.old) from to result (drafted self.new) }
    {
        if !self.numbers.has_node(from) || !self.numbers.has_node(to) || from == to {
            return Err(NetworkRefusal::LinkEnds);
        }
        if self.number_between(from, to).is_some() {
            return Err(NetworkRefusal::LinkExists);
        }
        if self.links.is_full() {
            return Err(NetworkRefusal::TooManyLinks);
        }
        self.push(Link { from, to });
        Ok(self.links.len() as u32)
    }

    /// Closes the draft, which is used up; this never refuses.
    pub fn close(self) -> Network
        ensures { closed result ≡ drafted self }
    {
        Network { wiring: self }
    }

    // A draft with no link.
    fn bare(numbers: Numbers) -> Draft
        requires { InRange numbers }
        ensures { drafted result ≡ record { numbers = numbers; links = [] } }
    {
        Draft {
            numbers,
            links: ArrayVec::new(),
        }
    }

    // One link more, between two different nodes that none joins yet.
    fn push(&mut self, link: Link)
        requires ends { Ends (drafted self.old).numbers link.from link.to }
        requires fresh { Linked (drafted self.old) link.from link.to → ⊥ }
        requires room { length (drafted self.old).links < link_max }
        ensures { drafted self.new ≡ record { numbers = (drafted self.old).numbers; links = (drafted self.old).links ++ (link ∷ []) } }
    {
        self.links.push(link);
    }
}
