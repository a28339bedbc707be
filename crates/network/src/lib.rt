//! The network of a vehicle: numbers and one-way links, drafted and then closed.
//!
//! A `Draft` takes numbers and links; closing uses it up and gives a `Network`, which only answers questions.

#![tactic(auto)]

mod build;
mod closed;
mod draft;
mod numbers;
mod questions;
mod refusal;
mod search;

pub use closed::Network;
pub use draft::Draft;
pub use numbers::{Link, Numbers};
pub use refusal::NetworkRefusal;

// Examples worked out by hand from the rules.
#[cfg(test)]
mod tests {
    use crate::{Draft, Link, NetworkRefusal, Numbers};

    // The number of the refusal, or 0. Each crate's tests have their own: no crate can use another's tests.
    fn refused(r: Result<(), NetworkRefusal>) -> u32 {
        r.err().map_or(0, NetworkRefusal::number)
    }

    // The number of the refusal, or a thousand and the number of the link.
    fn linked(r: Result<u32, NetworkRefusal>) -> u32 {
        r.map_or_else(
            NetworkRefusal::number,
            |number| number.saturating_add(1_000),
        )
    }

    // Each bound of each number, and what lies just outside.
    #[test]
    fn ranges(rt: HostRuntime) {
        let cases = [
            (2, 10, 1, 0, 1, 0),
            (12, 1000, 1_000_000, 64, 4_096, 0),
            (1, 100, 1_000, 1, 20, 14),
            (13, 100, 1_000, 1, 20, 14),
            (4, 0, 1_000, 1, 20, 14),
            (4, 99, 1_000, 1, 20, 14),
            (4, 100, 0, 1, 20, 14),
            (4, 100, 1_000_001, 1, 20, 14),
            (4, 100, 1_000, 65, 20, 14),
            (4, 100, 1_000, 1, 0, 14),
            (4, 100, 1_000, 1, 4_097, 14),
        ];
        for (nodes, speed, tick, forwarding, cycle, number) in cases {
            let mut draft = Draft::new();
            assert_eq!(rt;
                refused(draft.set_numbers(Numbers {
                    nodes,
                    speed,
                    tick,
                    forwarding,
                    cycle,
                })),
                number
            );
        }
    }

    // A square of four nodes with links both ways round, and every refusal.
    #[test]
    fn square(rt: HostRuntime) {
        let numbers = Numbers {
            nodes: 4,
            speed: 100,
            tick: 1_000,
            forwarding: 1,
            cycle: 20,
        };
        let mut draft = Draft::new();
        assert_eq!(rt; linked(draft.add_link(1, 3)), 11);
        assert_eq!(rt; refused(draft.set_numbers(numbers)), 0);
        assert_eq!(rt; linked(draft.add_link(1, 2)), 1_001);
        assert_eq!(rt; linked(draft.add_link(2, 1)), 1_002);
        assert_eq!(rt; linked(draft.add_link(1, 2)), 12);
        assert_eq!(rt; linked(draft.add_link(0, 2)), 11);
        assert_eq!(rt; linked(draft.add_link(3, 5)), 11);
        assert_eq!(rt; linked(draft.add_link(3, 3)), 11);
        assert_eq!(rt; refused(draft.set_numbers(numbers)), 16);
        assert_eq!(rt; linked(draft.add_link(2, 4)), 1_003);
        let network = draft.close();
        assert_eq!(rt; network.links(), 3);
        assert_eq!(rt; network.wired().len(), 3);
        assert!(rt; network.link(3) == Some(Link { from: 2, to: 4 }));
        assert!(rt; network.link(0) == None && network.link(4) == None);
        assert!(rt; network.link_between(2, 1) == Some(2) && network.link_between(4, 2) == None);
        assert_eq!(rt; network.frame_time(64), 7);
        assert_eq!(rt; network.frame_time(1_522), 124);
        assert_eq!(rt; network.frame_time(u32::MAX), 343_597_386);
    }
}
