//! What a draft is.

ghost use Rattle.network.specs.Net.{Net, Sound};

use crate::numbers::{Link, Numbers};
use arrayvec::ArrayVec;
use limits::LINK_MAX;

// How many links a draft has room for.
pub(crate) const ROOM: usize = LINK_MAX as usize;

/// A network that is being wired. It cannot be copied: closing uses it up.
#[derive(Drop)]
pub struct Draft {
    pub(crate) numbers: Numbers,
    pub(crate) links: ArrayVec<Link, ROOM>,
    ghost sound: { ∥ Sound (record { numbers = numbers; links = links.items }) ∥₁ },
}
