//! What is lent to the chains, and what they refuse.

ghost use Rattle.std.specs.Prelude.{◌≡◌, ℕ};

/// A record that has a number as its key.
pub trait Keyed: Copy {
    // the key
    ghost keyed: { Self → ℕ };

    /// The record's key.
    fn key(&self) -> u32
        ensures { result ≡ keyed self.now };
}

/// A slot of the memory that is lent: a record, and the place of the slot that follows it in its chain, or 0.
#[derive(Clone, Copy)]
pub struct Slot<R> {
    /// The place of the next slot.
    pub next: usize,
    /// The record.
    pub item: R,
}

/// Why a call is refused; the chains are then as they were.
#[derive(Clone, Copy, PartialEq, Eq, Debug)]
pub enum ChainRefusal {
    /// There is no chain of that number.
    NoChain,
    /// A record of the chain has that key already.
    Present,
    /// No record of the chain has that key.
    Absent,
    /// Every slot but the first holds a record of some chain.
    Full,
}
