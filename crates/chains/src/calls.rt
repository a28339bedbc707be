//! The calls of chains.

ghost use Rattle.std.specs.Prelude.{◌≡◌};
ghost use Rattle.chains.specs.Calls.{Finds, Inserts, Removes, Replaces};
ghost use Rattle.chains.specs.Records.{AllAscend, Ascends, row, total};
ghost use Rattle.chains.specs.Views.{content, left_of};

use crate::chains::Chains;
use crate::slot::{ChainRefusal, Keyed};
use crate::walk::Walk;

// `ordered` says outright what the type keeps: a caller in another crate reads contracts and not its ghost fields.
impl<R: Keyed, const N: usize> Chains<'_, R, N> {
    /// How many records can stand in all chains together.
    pub fn room(&self) -> usize
        ensures { result ≡ (content self.now).room }
    {
        self.board.slots.len().saturating_sub(1)
    }

    /// How many records stand in all chains together.
    pub fn count(&self) -> usize
        ensures { result ≡ total (content self.now).rows }
    {
        self.board.count
    }

    /// A walk along a chain; where there is none of that number, it is over at once.
    pub fn walk(&self, chain: u32) -> Walk<'_, R>
        ensures walks { left_of result ≡ row (content self.now).rows chain }
        ensures ordered { Ascends R.keyed (left_of result) }
    {
        let slots = &*self.board.slots;
        self.walk_of(chain).unwrap_or(Walk { slots, place: 0 })
    }

    /// The record of a chain that has the key.
    pub fn find(&self, chain: u32, key: u32) -> Result<R, ChainRefusal>
        ensures { Finds R.keyed (content self.now) chain key result }
    {
        let (_, place) = self.seek(chain, key)?;
        Ok(self.board.slots[place].item)
    }

    /// Puts a record into a chain, in the order of the keys.
    pub fn insert(&mut self, chain: u32, item: R) -> Result<(), ChainRefusal>
        ensures inserts { Inserts R.keyed (content self.old) chain item result (content self.new) }
        ensures ordered { AllAscend R.keyed (content self.new).rows }
    {
        let (at, next) = self.seat(chain, item.key())?;
        self.board.link_in(chain as usize - 1, at, next, item);
        Ok(())
    }

    /// Puts a record in the place of the one that has its key, and answers that one.
    pub fn replace(&mut self, chain: u32, item: R) -> Result<R, ChainRefusal>
        ensures replaces { Replaces R.keyed (content self.old) chain item result (content self.new) }
        ensures ordered { AllAscend R.keyed (content self.new).rows }
    {
        let (_, place) = self.seek(chain, item.key())?;
        let old = self.board.slots[place].item;
        self.board.rewrite(place, item);
        Ok(old)
    }

    /// Takes the record that has the key out of a chain, and answers it.
    pub fn remove(&mut self, chain: u32, key: u32) -> Result<R, ChainRefusal>
        ensures removes { Removes R.keyed (content self.old) chain key result (content self.new) }
        ensures ordered { AllAscend R.keyed (content self.new).rows }
    {
        let (at, place) = self.seek(chain, key)?;
        let item = self.board.slots[place].item;
        self.board.link_out(chain as usize - 1, at, place);
        Ok(item)
    }
}
