//! The account of a closed network, as text: its numbers, its links, and how long frames take.

#![tactic(auto)]

ghost use Rattle.std.specs.Prelude.{IfOk, string_bytes};
ghost use Rattle.network.specs.Views.{closed};
ghost use Rattle.wiring.specs.Texts.{Describes, WiringAccount};

mod lines;

use limits::{FRAME_MAX, FRAME_MIN};
use lines::{FrameLine, LatencyLines, LinkLines, NumberLines};
use network::Network;
use sheet::{WireError, wire};
use std::alloc::{AllocError, Global};

/// The account of a closed network, as text.
pub fn describe(heap: Global, network: &Network) -> Result<String, AllocError>
    ensures { IfOk result (λ s. Describes (closed network.now) (string_bytes s)) }
{
    let small = network.frame_time(FRAME_MIN);
    let large = network.frame_time(FRAME_MAX);
    let numbers = NumberLines(network.numbers());
    let links = LinkLines(network.wired());
    let smallest = FrameLine {
        size: FRAME_MIN,
        ticks: small,
    };
    let largest = FrameLine {
        size: FRAME_MAX,
        ticks: large,
    };
    let latencies = LatencyLines {
        network,
        small,
        large,
    };
    format!(in heap; "{numbers}{links}{smallest}{largest}{latencies}")
}

/// The account of the network that a sheet wires, or the replies to its lines up to `READY` that are refused; or want of memory.
pub fn wiring_account(heap: Global, sheet: &[u8]) -> Result<String, AllocError>
    ensures { IfOk result (λ s. WiringAccount sheet.now (string_bytes s)) }
{
    match wire(heap, sheet) {
        Ok(network) => describe(heap, &network),
        Err(WireError::Refused(replies)) => Ok(replies),
        Err(WireError::OutOfMemory(error)) => Err(error),
    }
}

// Examples worked out by hand from the rules.
#[cfg(test)]
mod tests {
    use crate::describe;
    use network::{Draft, Numbers};
    use std::test::Fail;

    const ACCOUNT: &str = "\
NODES 4
SPEED 100
TICK 10000
FORWARDING 1
CYCLE 20
LINK 1 FROM 1 TO 2
LINK 2 FROM 2 TO 4
LINK 3 FROM 1 TO 3
LINK 4 FROM 3 TO 4
FRAME 64 TICKS 1
FRAME 1522 TICKS 13
LINKS 1 LATENCY 1 13
LINKS 2 LATENCY 3 27
LINKS 3 LATENCY 5 41
LINKS 4 LATENCY 7 55
LINKS 5 LATENCY 9 69
LINKS 6 LATENCY 11 83
";

    // Four nodes: a frame of 64 bytes takes 6,720 ns, one of 1,522 bytes 123,360 ns.
    #[test]
    fn four_nodes(rt: HostRuntime) -> Result<(), Fail> {
        let mut draft = Draft::new();
        draft.set_numbers(Numbers {
            nodes: 4,
            speed: 100,
            tick: 10_000,
            forwarding: 1,
            cycle: 20,
        })?;
        for (from, to) in [(1, 2), (2, 4), (1, 3), (3, 4)] {
            draft.add_link(from, to)?;
        }
        let text = describe(rt.alloc(), &draft.close())?;
        assert_eq!(rt; text.as_str(), ACCOUNT);
        Ok(())
    }
}
