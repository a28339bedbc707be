//! Where a call finds or puts its record.

ghost use Rattle.chains.specs.Boards.{Seats, Seeks, Walks};

use crate::chains::Chains;
use crate::slot::{ChainRefusal, Keyed};
use crate::walk::Walk;

impl<R: Keyed, const N: usize> Chains<'_, R, N> {
    // A walk along a chain, if there is one of that number.
    pub(crate) fn walk_of(&self, chain: u32) -> Option<Walk<'_, R>>
        ensures { Walks self.now.board chain result }
    {
        let slots = &*self.board.slots;
        let place = self.board.first_of(chain)?;
        Some(Walk { slots, place })
    }

    // Where the record of a chain stands that has the key, after the place before it, or 0.
    pub(crate) fn seek(&self, chain: u32, key: u32) -> Result<(usize, usize), ChainRefusal>
        ensures { Seeks R.keyed self.now.board chain key result }
    {
        let walk = self.walk_of(chain).ok_or(ChainRefusal::NoChain)?;
        walk.place_of(key).ok_or(ChainRefusal::Absent)
    }

    // Where a record of the key goes into a chain: after which place, or 0, and before which, or 0.
    pub(crate) fn seat(&self, chain: u32, key: u32) -> Result<(usize, usize), ChainRefusal>
        ensures { Seats R.keyed self.now.board chain key result }
    {
        let walk = self.walk_of(chain).ok_or(ChainRefusal::NoChain)?;
        if walk.place_of(key).is_some() {
            return Err(ChainRefusal::Present);
        }
        if self.board.spare == 0 {
            return Err(ChainRefusal::Full);
        }
        Ok(walk.gap_for(key))
    }
}
