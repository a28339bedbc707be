//! Newly made chains.

ghost use Rattle.std.specs.Prelude.{◌≡◌, ℕ, ◌<◌, ◌≤◌, length, slice_index};
ghost use Rattle.chains.specs.Calls.{no_records};
ghost use Rattle.chains.specs.Laws.{ChainLaws};
ghost use Rattle.chains.specs.Places.{nexts};
ghost use Rattle.chains.specs.Steps.{blank};
ghost use Rattle.chains.specs.Views.{content};

use crate::board::Board;
use crate::chains::Chains;
use crate::slot::{Keyed, Slot};

// The place of the slot after `place` while all of so many slots are spare, or 0.
fn blank_link(place: usize, len: usize) -> usize
    requires { place ≤ len }
    ensures { result ≡ blank len place }
{
    if len - place > 1 { place + 1 } else { 0 }
}

// Links all slots in turn.
fn clear<R: Copy>(slots: &mut [Slot<R>])
    ensures { (k : ℕ) → k < length slots.old → slice_index (nexts slots.new) k ≡ blank (length slots.old) k }
{
    let len = slots.len();
    for (place, slot) in slots.iter_mut().enumerate() {
        slot.next = blank_link(place, len);
    }
}

impl<'a, R: Keyed, const N: usize> Chains<'a, R, N> {
    /// N chains with no record, whatever the slots held before; as many records can stand as there are slots less one.
    pub fn new(slots: &'a mut [Slot<R>]) -> Self
        ensures empty { content result ≡ no_records N (length slots.old) }
        ensures laws { ChainLaws R.Keyed.keyed }
    {
        clear(slots);
        let spare = blank_link(0, slots.len());
        Chains {
            board: Board {
                slots,
                heads: [0; N],
                spare,
                count: 0,
            },
        }
    }
}
