//! How far a book reaches, and the checks that every book makes alike.

ghost use Rattle.std.specs.Prelude.{◌<◌, [], ◌∷◌, OnOk};
ghost use Rattle.limits.specs.Ranges.{Within};
ghost use Rattle.limits.specs.Refusals.{Checks};
ghost use Rattle.book.specs.Bare.{bare, Asked};
ghost use Rattle.book.specs.Calls.{link_rule, span_rules, tick_rules};
ghost use Rattle.book.specs.Spans.{span, Fits};

use crate::refusal::{BookRefusal, Holding};
use limits::Quantity;

/// The cycle of a book and how many links it is for, in any range.
#[derive(Clone, Copy, PartialEq, Eq, Debug)]
pub struct Extent {
    /// The length of the cycle in ticks.
    pub cycle: u32,
    /// How many links the book is for; they are numbered from 1.
    pub links: u32,
}

// `there`, `inside` and `fits` follow from `checks`: they spare a supplier the lemma on rules that do not hold.
impl Extent {
    /// The least that a book can be for: one tick, and no link.
    pub const LEAST: Extent = Extent { cycle: 1, links: 0 };

    /// A cycle and a number of links that a book is asked for, if both are in range.
    pub fn asked(cycle: u32, links: u32) -> Option<Extent>
        ensures { Asked cycle links result }
    {
        let in_range = Quantity::Cycle.has(cycle) && Quantity::LinkCount.has(links);
        in_range.then_some(Extent { cycle, links })
    }

    /// Passes a tick of a link that the book has, and else says why not: for whoever supplies a book.
    pub fn check_tick(self, link: u32, tick: u32) -> Result<(), BookRefusal>
        ensures checks { Checks (tick_rules (bare self.cycle self.links) link tick) result }
        ensures there { OnOk result (Within 1 self.links link) }
        ensures inside { OnOk result (tick < self.cycle) }
    {
        self.check_link(link)?;
        if tick >= self.cycle {
            return Err(BookRefusal::OutOfRange);
        }
        Ok(())
    }

    /// Passes a booking whose link, start, length and flow number are in range, and else says why not: for whoever
    /// supplies a book.
    // The start stays beside the `Holding`, as where a booking is kept: a cell has it by its place, a chain by its key.
    pub fn check_booking(self, link: u32, start: u32, holding: Holding) -> Result<(), BookRefusal>
        ensures checks { Checks (span_rules (bare self.cycle self.links) link (span start holding.ticks holding.flow)) result }
        ensures there { OnOk result (Within 1 self.links link) }
        ensures fits { OnOk result (Fits self.cycle (span start holding.ticks holding.flow)) }
    {
        self.check_link(link)?;
        let fits = start < self.cycle
            && (1..=self.cycle).contains(&holding.ticks)
            && Quantity::Flow.has(holding.flow);
        if !fits {
            return Err(BookRefusal::OutOfRange);
        }
        Ok(())
    }

    // Passes a link that the book has.
    fn check_link(self, link: u32) -> Result<(), BookRefusal>
        ensures checks { Checks (link_rule (bare self.cycle self.links) link ∷ []) result }
        ensures there { OnOk result (Within 1 self.links link) }
    {
        if !(1..=self.links).contains(&link) {
            return Err(BookRefusal::NoSuchLink);
        }
        Ok(())
    }
}
