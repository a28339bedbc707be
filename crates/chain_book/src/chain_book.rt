//! What a chain book is.

ghost use Rattle.chain_book.specs.Books.{Sound};
ghost use Rattle.chains.specs.Views.{content};

use crate::booking::Booking;
use book::Extent;
use chains::Chains;
use limits::LINK_MAX;

// A chain for each link that a book may have.
pub(crate) const CHAINS: usize = LINK_MAX as usize;

/// A book that keeps its bookings in chains over lent records, one chain for each link.
#[derive(Drop)]
pub struct ChainBook<'a> {
    pub(crate) chains: Chains<'a, Booking, CHAINS>,
    pub(crate) extent: Extent,
    ghost sound: { ∥ Sound extent.cycle extent.links (content chains) ∥₁ },
}
