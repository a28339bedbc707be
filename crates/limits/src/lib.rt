//! The ranges that several crates share, each stated once: constants, a word of the specifications and a test.

#![tactic(auto)]

ghost use Rattle.limits.specs.Quantities.{Ranged};
ghost use Rattle.std.specs.Prelude.{Decides};

/// The longest cycle, in ticks; the shortest has 1.
pub const CYCLE_MAX: u32 = 4_096;

/// The longest tick, in nanoseconds; the shortest lasts 1.
pub const TICK_MAX: u32 = 1_000_000;

/// The most links of a network.
pub const LINK_MAX: u32 = 40;

/// The greatest flow number; the least is 1.
pub const FLOW_MAX: u32 = 48;

/// The most bookings that a book has room for.
pub const ROOM_MAX: u32 = 1_024;

/// The smallest frame, in bytes.
pub const FRAME_MIN: u32 = 64;

/// The largest frame, in bytes.
pub const FRAME_MAX: u32 = 1_522;

/// The most links of a path; the fewest is 1.
pub const PATH_LINK_MAX: u32 = 6;

/// What the rules give a range.
#[derive(Clone, Copy, PartialEq, Eq, Debug)]
pub enum Quantity {
    /// The length of a cycle, in ticks.
    Cycle,
    /// The length of a tick, in nanoseconds.
    Tick,
    /// How many links a network or a book has.
    LinkCount,
    /// The number of a flow.
    Flow,
    /// The size of a frame, in bytes.
    FrameSize,
    /// How many links a path has.
    PathLinks,
}

impl Quantity {
    /// Whether a number is in the range.
    pub fn has(self, number: u32) -> bool
        ensures { Decides result (Ranged self number) }
    {
        let (least, greatest) = match self {
            Quantity::Cycle => (1, CYCLE_MAX),
            Quantity::Tick => (1, TICK_MAX),
            Quantity::LinkCount => (0, LINK_MAX),
            Quantity::Flow => (1, FLOW_MAX),
            Quantity::FrameSize => (FRAME_MIN, FRAME_MAX),
            Quantity::PathLinks => (1, PATH_LINK_MAX),
        };
        (least..=greatest).contains(&number)
    }
}

#[cfg(test)]
mod tests {
    use super::*;

    // The bounds of each range, and the numbers just outside.
    #[test]
    fn bounds(rt: HostRuntime) {
        assert!(rt;
            !Quantity::Cycle.has(0)
                && Quantity::Cycle.has(1)
                && Quantity::Cycle.has(4_096)
                && !Quantity::Cycle.has(4_097),
            "cycle"
        );
        assert!(rt;
            !Quantity::Tick.has(0)
                && Quantity::Tick.has(1)
                && Quantity::Tick.has(1_000_000)
                && !Quantity::Tick.has(1_000_001),
            "tick"
        );
        assert!(rt;
            Quantity::LinkCount.has(0)
                && Quantity::LinkCount.has(40)
                && !Quantity::LinkCount.has(41),
            "links"
        );
        assert!(rt;
            !Quantity::Flow.has(0)
                && Quantity::Flow.has(1)
                && Quantity::Flow.has(48)
                && !Quantity::Flow.has(49),
            "flow"
        );
        assert!(rt;
            !Quantity::FrameSize.has(63)
                && Quantity::FrameSize.has(64)
                && Quantity::FrameSize.has(1_522)
                && !Quantity::FrameSize.has(1_523),
            "frame"
        );
        assert!(rt;
            !Quantity::PathLinks.has(0)
                && Quantity::PathLinks.has(1)
                && Quantity::PathLinks.has(6)
                && !Quantity::PathLinks.has(7),
            "path"
        );
        assert!(rt;
            !Quantity::Cycle.has(u32::MAX)
                && !Quantity::Tick.has(u32::MAX)
                && !Quantity::LinkCount.has(u32::MAX),
            "greatest number"
        );
    }
}
