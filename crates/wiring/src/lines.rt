//! The lines of the account of a network.

ghost use Rattle.std.specs.Prelude.{◌≡◌, ◌^◌, ◌<◌, Some};
ghost use Rattle.limits.specs.Ranges.{path_link_max, PathLinks};
ghost use Rattle.network.specs.Times.{latency};
ghost use Rattle.network.specs.Views.{closed};
ghost use Rattle.wiring.specs.Texts.{number_lines, link_lines, frame_line, latency_lines};

use limits::PATH_LINK_MAX;
use network::{Link, Network, Numbers};
use std::fmt;

// A line for each of the five numbers.
#[derive(Drop)]
pub(crate) struct NumberLines(pub(crate) Numbers);

// A line for each link, in order of its number.
#[derive(Drop)]
pub(crate) struct LinkLines<'a>(pub(crate) &'a [Link]);

// The ticks that a frame of so many bytes takes.
#[derive(Drop)]
pub(crate) struct FrameLine {
    pub(crate) size: u32,
    pub(crate) ticks: u64,
}

// The latencies of paths of 1 link to as many as a path may have, by the ticks of the smallest and the largest frame.
#[derive(Drop)]
pub(crate) struct LatencyLines<'a> {
    pub(crate) network: &'a Network,
    pub(crate) small: u64,
    pub(crate) large: u64,
    ghost few: { small < 2 ^ 32 },
    ghost many: { large < 2 ^ 32 },
}

impl fmt::Display for NumberLines {
    ghost output = { λ lines. Some (number_lines lines.0) };

    fn fmt<W: fmt::Write>(&self, f: &mut fmt::Formatter<W>) -> fmt::Result {
        let numbers = self.0;
        writeln!(f, "NODES {}", numbers.nodes)?;
        writeln!(f, "SPEED {}", numbers.speed)?;
        writeln!(f, "TICK {}", numbers.tick)?;
        writeln!(f, "FORWARDING {}", numbers.forwarding)?;
        writeln!(f, "CYCLE {}", numbers.cycle)
    }
}

impl fmt::Display for LinkLines<'_> {
    ghost output = { λ lines. Some (link_lines 1 lines.0.now) };

    fn fmt<W: fmt::Write>(&self, f: &mut fmt::Formatter<W>) -> fmt::Result {
        for (place, link) in self.0.iter().enumerate() {
            let number = place + 1;
            writeln!(f, "LINK {number} FROM {} TO {}", link.from, link.to)?;
        }
        Ok(())
    }
}

impl fmt::Display for FrameLine {
    ghost output = { λ line. Some (frame_line line.size line.ticks) };

    fn fmt<W: fmt::Write>(&self, f: &mut fmt::Formatter<W>) -> fmt::Result {
        writeln!(f, "FRAME {} TICKS {}", self.size, self.ticks)
    }
}

impl LatencyLines<'_> {
    // The latency of a path of so many links, with frames that hold a link for so many ticks.
    fn latency(&self, frame: u64, links: u32) -> u64
        requires frame { frame < 2 ^ 32 }
        requires links { PathLinks links }
        ensures { result ≡ latency (closed self.now.network.now) frame links }
    {
        let forwarding = u64::from(self.network.numbers().forwarding);
        u64::from(links - 1) * (frame + forwarding) + frame
    }
}

impl fmt::Display for LatencyLines<'_> {
    ghost output = { λ lines. Some (latency_lines (closed lines.network.now) lines.small lines.large 1 path_link_max) };

    fn fmt<W: fmt::Write>(&self, f: &mut fmt::Formatter<W>) -> fmt::Result {
        for links in 1..=PATH_LINK_MAX {
            let least = self.latency(self.small, links);
            let most = self.latency(self.large, links);
            writeln!(f, "LINKS {links} LATENCY {least} {most}")?;
        }
        Ok(())
    }
}
