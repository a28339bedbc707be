//! Keyed chains over lent slots, for every kind of record that has a number as its key.

#![tactic(auto)]

mod board;
mod calls;
mod chains;
mod making;
mod seek;
mod slot;
mod steps;
mod walk;
mod walking;

pub use chains::Chains;
pub use slot::{ChainRefusal, Keyed, Slot};
pub use walk::Walk;

#[cfg(test)]
mod tests {
    use super::*;
    use std::process::Abort;

    #[derive(Clone, Copy, PartialEq, Eq, Debug)]
    struct Fault {
        flow: u32,
        count: u32,
    }

    impl Keyed for Fault {
        ghost keyed = { λ f. f.flow };

        fn key(&self) -> u32 {
            self.flow
        }
    }

    fn of_flow(flow: u32, count: u32) -> Fault {
        Fault { flow, count }
    }

    // Slots whose links lead round and outside, with a record whose key the tests use.
    fn junk() -> [Slot<Fault>; 6] {
        let item = of_flow(10, 99);
        [
            Slot { next: 5, item },
            Slot { next: 1, item },
            Slot { next: 6, item },
            Slot {
                next: usize::MAX,
                item,
            },
            Slot { next: 0, item },
            Slot { next: 3, item },
        ]
    }

    // The chain has these records, in this order, and no more.
    fn walked(rt: &impl Abort, chains: &Chains<'_, Fault, 2>, chain: u32, wanted: &[(u32, u32)]) {
        let mut walk = chains.walk(chain);
        for (flow, count) in wanted {
            assert_eq!(rt; walk.next(), Some(of_flow(*flow, *count)));
        }
        assert_eq!(rt; walk.next(), None);
        assert_eq!(rt; walk.next(), None);
    }

    // The two chains have these records and no more, and no other chain has any.
    fn stand(
        rt: &impl Abort,
        chains: &Chains<'_, Fault, 2>,
        first: &[(u32, u32)],
        second: &[(u32, u32)],
    ) {
        walked(rt, chains, 0, &[]);
        walked(rt, chains, 1, first);
        walked(rt, chains, 2, second);
        walked(rt, chains, 3, &[]);
        assert_eq!(rt; chains.count(), first.len().saturating_add(second.len()));
    }

    // Fills the slots with two chains that share keys, out of order.
    fn fill(rt: &impl Abort, chains: &mut Chains<'_, Fault, 2>) {
        for (chain, flow, count) in [(1, 30, 3), (1, 10, 1), (2, 20, 7), (1, 20, 2), (2, 10, 6)] {
            assert_eq!(rt; chains.insert(chain, of_flow(flow, count)), Ok(()));
        }
        stand(
            rt,
            chains,
            &[(10, 1), (20, 2), (30, 3)],
            &[(10, 6), (20, 7)],
        );
    }

    // What is refused at full slots, and that it changes nothing: first the chain, then the key, then the room.
    #[test]
    fn refusals(rt: HostRuntime) {
        let mut slots = junk();
        let mut chains = Chains::<Fault, 2>::new(&mut slots);
        stand(&rt, &chains, &[], &[]);
        fill(&rt, &mut chains);
        for (chain, flow, insert, other) in [
            (0, 10, ChainRefusal::NoChain, ChainRefusal::NoChain),
            (3, 10, ChainRefusal::NoChain, ChainRefusal::NoChain),
            (u32::MAX, 40, ChainRefusal::NoChain, ChainRefusal::NoChain),
            (2, 30, ChainRefusal::Full, ChainRefusal::Absent),
            (1, 15, ChainRefusal::Full, ChainRefusal::Absent),
            (1, u32::MAX, ChainRefusal::Full, ChainRefusal::Absent),
        ] {
            assert_eq!(rt; chains.insert(chain, of_flow(flow, 50)), Err(insert));
            assert_eq!(rt; chains.find(chain, flow), Err(other));
            assert_eq!(rt; chains.replace(chain, of_flow(flow, 50)), Err(other));
            assert_eq!(rt; chains.remove(chain, flow), Err(other));
        }
        for (chain, flow, count) in [(1, 10, 1), (1, 20, 2), (1, 30, 3), (2, 10, 6), (2, 20, 7)] {
            assert_eq!(rt;
                chains.insert(chain, of_flow(flow, 50)),
                Err(ChainRefusal::Present)
            );
            assert_eq!(rt; chains.find(chain, flow), Ok(of_flow(flow, count)));
        }
        stand(
            &rt,
            &chains,
            &[(10, 1), (20, 2), (30, 3)],
            &[(10, 6), (20, 7)],
        );
    }

    // Records replaced, and taken out of the middle, the end and the beginning of a chain.
    #[test]
    fn changes(rt: HostRuntime) {
        let mut slots = junk();
        let mut chains = Chains::<Fault, 2>::new(&mut slots);
        fill(&rt, &mut chains);
        assert_eq!(rt; chains.replace(1, of_flow(20, 8)), Ok(of_flow(20, 2)));
        stand(
            &rt,
            &chains,
            &[(10, 1), (20, 8), (30, 3)],
            &[(10, 6), (20, 7)],
        );
        assert_eq!(rt; chains.remove(1, 20), Ok(of_flow(20, 8)));
        stand(&rt, &chains, &[(10, 1), (30, 3)], &[(10, 6), (20, 7)]);
        assert_eq!(rt;
            chains.insert(1, of_flow(30, 9)),
            Err(ChainRefusal::Present)
        );
        assert_eq!(rt;
            chains.insert(3, of_flow(40, 9)),
            Err(ChainRefusal::NoChain)
        );
        assert_eq!(rt; chains.insert(1, of_flow(0, 4)), Ok(()));
        stand(
            &rt,
            &chains,
            &[(0, 4), (10, 1), (30, 3)],
            &[(10, 6), (20, 7)],
        );
        assert_eq!(rt; chains.remove(1, 30), Ok(of_flow(30, 3)));
        assert_eq!(rt; chains.remove(1, 0), Ok(of_flow(0, 4)));
        assert_eq!(rt; chains.insert(2, of_flow(u32::MAX, 5)), Ok(()));
        stand(&rt, &chains, &[(10, 1)], &[(10, 6), (20, 7), (u32::MAX, 5)]);
        for (flow, count) in [(10, 6), (u32::MAX, 5), (20, 7)] {
            assert_eq!(rt; chains.remove(2, flow), Ok(of_flow(flow, count)));
            assert_eq!(rt; chains.find(2, flow), Err(ChainRefusal::Absent));
        }
        stand(&rt, &chains, &[(10, 1)], &[]);
    }

    // So many records can stand, and in every round again, with other keys in another order.
    fn rounds(rt: &impl Abort, slots: &mut [Slot<Fault>], room: u32) {
        let mut chains = Chains::<Fault, 2>::new(slots);
        for round in 0..20 {
            assert_eq!(rt; chains.room(), room as usize);
            for flow in 1..=room {
                assert_eq!(rt;
                    chains.insert(flow % 2 + 1, of_flow(flow ^ round, flow)),
                    Ok(())
                );
            }
            assert_eq!(rt; chains.count(), room as usize);
            assert_eq!(rt; chains.insert(2, of_flow(99, 0)), Err(ChainRefusal::Full));
            for flow in 1..=room {
                assert_eq!(rt;
                    chains.remove(flow % 2 + 1, flow ^ round),
                    Ok(of_flow(flow ^ round, flow))
                );
            }
            stand(rt, &chains, &[], &[]);
        }
    }

    // Slices of no slot, one, two and six; and no chain at all.
    #[test]
    fn rooms(rt: HostRuntime) {
        let (mut zero, mut one, mut two, mut six) = (junk(), junk(), junk(), junk());
        rounds(&rt, &mut zero[..0], 0);
        rounds(&rt, &mut one[..1], 0);
        rounds(&rt, &mut two[..2], 1);
        rounds(&rt, &mut six, 5);
        let mut none = Chains::<Fault, 0>::new(&mut six);
        assert_eq!(rt; none.insert(1, of_flow(1, 1)), Err(ChainRefusal::NoChain));
        assert_eq!(rt; none.count(), 0);
    }
}
