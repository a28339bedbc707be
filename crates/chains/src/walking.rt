//! The steps of a walk.

ghost use Rattle.std.specs.Iterator.{YieldsFirst, item_count};
ghost use Rattle.chains.specs.Views.{left_of};

use crate::slot::Slot;
use crate::walk::Walk;

impl<R: Copy> Iterator for Walk<'_, R> {
    type Item = R;

    ghost next_gives = { YieldsFirst left_of };

    ghost remaining = { item_count left_of };

    fn next(&mut self) -> Option<R> {
        if self.place == 0 {
            return None;
        }
        let slots = self.slots;
        let Slot { next, item } = slots[self.place];
        self.place = next;
        Some(item)
    }
}
