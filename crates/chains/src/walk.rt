//! Walking a chain in order.

ghost use Rattle.chains.specs.Places.{Ends, nexts};

use crate::slot::Slot;

/// A walk along a chain, record by record, in the order of the keys.
#[derive(Drop)]
pub struct Walk<'a, R: Copy> {
    pub(crate) slots: &'a [Slot<R>],
    pub(crate) place: usize,
    ghost ends: { ∥ Ends (nexts slots.now) place ∥₁ },
}
