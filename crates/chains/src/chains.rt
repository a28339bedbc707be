//! What chains are.

ghost use Rattle.chains.specs.Boards.{Kept, stored};
ghost use Rattle.chains.specs.Records.{AllAscend};

use crate::board::Board;
use crate::slot::Keyed;

/// N chains of records over lent slots, numbered from 1, each in the order of its keys, of which no two are alike.
/// Slot 0 stays empty, and every other slot holds a record of one chain or is spare.
#[derive(Drop)]
pub struct Chains<'a, R: Keyed, const N: usize> {
    pub(crate) board: Board<'a, R, N>,
    ghost kept: { ∥ Kept N board ∥₁ },
    ghost ordered: { ∥ AllAscend R.keyed (stored board).rows ∥₁ },
}
