//! The lookup along a chain. A place is the index of a slot, and 0 none: a link is all that a lent slot has for it. A
//! head, the spare slot and a walk have it in that form too, since each is read from a link and written to one; and
//! a place and the one before it stay a pair, which a struct would only name.

ghost use Rattle.chains.specs.Places.{nexts, values};
ghost use Rattle.chains.specs.Steps.{FindsPlace, Located, UpTo};

use crate::slot::Keyed;
use crate::walk::Walk;

impl<R: Keyed> Walk<'_, R> {
    // Where a lookup stops that goes on past the keys that the test passes: the place before, or 0, and the place
    // itself, or 0.
    fn locate<F: Fn(u32) -> bool>(&self, passes: F) -> (usize, usize)
        requires { F.IsAlwaysCallable passes }
        ensures { Located (F.post passes) R.keyed (nexts self.now.slots.now) (values self.now.slots.now) self.now.place result.0 result.1 }
    {
        let slots = self.slots;
        let mut at = 0;
        let mut next = self.place;
        while next != 0 {
            let slot = slots[next];
            if !passes(slot.item.key()) {
                break;
            }
            at = next;
            next = slot.next;
        }
        (at, next)
    }

    // Where the first record ahead stands that has the key, after the place before it, or 0.
    pub(crate) fn place_of(&self, key: u32) -> Option<(usize, usize)>
        ensures { FindsPlace R.keyed key (nexts self.now.slots.now) (values self.now.slots.now) self.now.place result }
    {
        let (at, place) = self.locate(|own| own != key);
        if place == 0 { None } else { Some((at, place)) }
    }

    // Where a record of the key goes among those ahead: after which place, or 0, and before which, or 0.
    pub(crate) fn gap_for(&self, key: u32) -> (usize, usize)
        ensures { Located (UpTo key) R.keyed (nexts self.now.slots.now) (values self.now.slots.now) self.now.place result.0 result.1 }
    {
        self.locate(|own| own <= key)
    }
}
