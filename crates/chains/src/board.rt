//! The lent slots with the chains in them, and the steps that move a slot from one chain to another.

ghost use Rattle.std.specs.Prelude.{◌<◌, length};
ghost use Rattle.chains.specs.Boards.{Begins, Hung, Led, Relinked, Rewritten, Unhung, slots_of};

use crate::slot::Slot;

// Lent slots with the chains in them: where each chain begins, where the spare slots begin, and how many records
// stand. Nothing is claimed of a board; what holds of it is said by `Chains`. Places and no map or owned list: the
// slots are lent, and nothing here may allocate. A chain or a place is in range of one board, so each step asks for it.
#[derive(Drop)]
pub(crate) struct Board<'a, R: Copy, const N: usize> {
    pub(crate) slots: &'a mut [Slot<R>],
    pub(crate) heads: [usize; N],
    pub(crate) spare: usize,
    pub(crate) count: usize,
}

impl<R: Copy, const N: usize> Board<'_, R, N> {
    // Where a chain begins, if there is a chain of that number.
    pub(crate) fn first_of(&self, chain: u32) -> Option<usize>
        ensures { Begins self.now.heads chain result }
    {
        let place = chain.checked_sub(1)?;
        self.heads.get(place as usize).copied()
    }

    // Another slot follows.
    fn relink(&mut self, place: usize, next: usize)
        requires { place < length (slots_of self.old) }
        ensures { Relinked self.old place next self.new }
    {
        self.slots[place].next = next;
    }

    // Another record in the slot.
    pub(crate) fn rewrite(&mut self, place: usize, item: R)
        requires { place < length (slots_of self.old) }
        ensures { Rewritten self.old place item self.new }
    {
        self.slots[place].item = item;
    }

    // The slot at `place` follows the place `at` of the chain, or comes first in it.
    fn lead(&mut self, chain: usize, at: usize, place: usize)
        requires chained { chain < length self.old.heads }
        requires before { at < length (slots_of self.old) }
        ensures { Led self.old chain at place self.new }
    {
        if at == 0 {
            self.heads[chain] = place;
        } else {
            self.relink(at, place);
        }
    }

    // The first spare slot takes the record and is linked in after the place `at` of the chain, or first.
    pub(crate) fn link_in(&mut self, chain: usize, at: usize, next: usize, item: R)
        requires chained { chain < length self.old.heads }
        requires spare { self.old.spare < length (slots_of self.old) }
        requires place { at < length (slots_of self.old) }
        requires room { self.old.count < length (slots_of self.old) }
        ensures { Hung self.old chain at next item self.new }
    {
        let place = self.spare;
        self.spare = self.slots[place].next;
        self.relink(place, next);
        self.rewrite(place, item);
        self.lead(chain, at, place);
        self.count += 1;
    }

    // The slot at `place`, which stands after the place `at` of the chain, or first, becomes the first spare slot.
    pub(crate) fn link_out(&mut self, chain: usize, at: usize, place: usize)
        requires chained { chain < length self.old.heads }
        requires place { place < length (slots_of self.old) }
        requires before { at < length (slots_of self.old) }
        requires some { 0 < self.old.count }
        ensures { Unhung self.old chain at place self.new }
    {
        let rest = self.slots[place].next;
        let spare = self.spare;
        self.lead(chain, at, rest);
        self.relink(place, spare);
        self.spare = place;
        self.count -= 1;
    }
}
