//! The search for a link.

ghost use Rattle.std.specs.Prelude.{◌≡◌, position, ◌==◌, ◌&&◌};
ghost use Rattle.network.specs.Calls.{TellsNumber};
ghost use Rattle.network.specs.Views.{drafted};

use crate::draft::Draft;
use crate::numbers::Link;

// The place of the link between two nodes, if there is one.
fn place_of(links: &[Link], from: u32, to: u32) -> Option<usize>
    ensures { result ≡ position (λ l. (l.from == from) && (l.to == to)) links.now }
{
    links.iter().position(|l| l.from == from && l.to == to)
}

impl Draft {
    // The number of the link between two nodes, if there is one.
    pub(crate) fn number_between(&self, from: u32, to: u32) -> Option<u32>
        ensures { TellsNumber (drafted self.now) from to result }
    {
        let place = place_of(self.links.as_slice(), from, to)?;
        Some(place as u32 + 1)
    }
}
