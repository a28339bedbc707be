//! How a chain book is made.

ghost use Rattle.std.specs.Prelude.{length};
ghost use Rattle.chain_book.specs.Made.{Made};
ghost use Rattle.chain_book.specs.Views.{meaning_of};

use crate::booking::Booking;
use crate::chain_book::ChainBook;
use book::Extent;
use chains::{Chains, Slot};
use limits::ROOM_MAX;

impl ChainBook<'_> {
    /// An empty book in the lent records, whatever they hold. Its room is the number of records less one, held
    /// between 0 and 1,024. For over 40 links, or a cycle out of 1 to 4,096, it has no link, cycle 1 and room 0.
    pub fn new(records: &mut [Slot<Booking>], cycle: u32, links: u32) -> ChainBook<'_>
        ensures { Made (length records.old) cycle links (meaning_of result) }
    {
        let (extent, most) = match Extent::asked(cycle, links) {
            Some(extent) => (extent, ROOM_MAX as usize + 1),
            None => (Extent::LEAST, 0),
        };
        let taken = records.len().min(most);
        ChainBook {
            chains: Chains::new(&mut records[..taken]),
            extent,
        }
    }
}
