//! A book of bookings: which ticks of which link are taken, by what it means and not by how it is kept.

#![tactic(auto)]

ghost use Rattle.std.specs.Prelude.{◌≡◌};
ghost use Rattle.book.specs.Calls.{Books, Releases, TellsHolder, TellsRun, TellsStretch};
ghost use Rattle.book.specs.Bare.{bare};
ghost use Rattle.book.specs.Laws.{BookLaws};
ghost use Rattle.book.specs.Meanings.{Formed, Meaning, total};
ghost use Rattle.book.specs.Spans.{span};
ghost use Rattle.book.specs.Empty.{empty_formed};

mod extent;
mod refusal;

pub use extent::Extent;
pub use refusal::{BookRefusal, Holding};

/// A book of bookings. Whoever supplies one shows these contracts; whoever uses one knows no more than them.
pub trait Book {
    // what the book stands for
    ghost meaning: { Self → Meaning };

    /// The length of the cycle in ticks.
    fn cycle(&self) -> u32
        ensures { result ≡ (meaning self.now).cycle };

    /// How many links the book is for; they are numbered from 1.
    fn links(&self) -> u32
        ensures { result ≡ (meaning self.now).links };

    /// How many bookings can stand at a time.
    fn room(&self) -> u32
        ensures { result ≡ (meaning self.now).room };

    /// How many bookings stand.
    fn count(&self) -> u32
        ensures { result ≡ total (meaning self.now).rows };

    /// Whether a tick of a link is free, and how many ticks from it on, going round, are alike, at most the cycle.
    // A pair, since both parts always count: free or not, the tick is followed by so many that are alike.
    fn run(&self, link: u32, tick: u32) -> Result<(bool, u32), BookRefusal>
        ensures { TellsRun (meaning self.now) link tick result };

    /// The booking that begins at a tick of a link, if there is one.
    fn holder(&self, link: u32, tick: u32) -> Result<Option<Holding>, BookRefusal>
        ensures { TellsHolder (meaning self.now) link tick result };

    /// Adds a booking of so many ticks from a start on, going round, for a flow.
    fn book(&mut self, link: u32, start: u32, ticks: u32, flow: u32) -> Result<(), BookRefusal>
        ensures { Books (meaning self.old) link (span start ticks flow) result (meaning self.new) };

    /// Takes away the booking that begins at a tick of a link, and answers how many ticks it covered.
    fn release(&mut self, link: u32, start: u32) -> Result<u32, BookRefusal>
        ensures { Releases (meaning self.old) link start result (meaning self.new) };

    ghost formed: { (b : Self) → Formed (meaning b) };
}

/// Whether a tick of a link is free, and a number of ticks from it on, going round, that are alike; it is not said to be the greatest.
// The pair of `Book::run`, of which both parts count.
#[tactic(auto, using(crate::proofs::Whole::tells_stretch, crate::proofs::Whole::book_laws))]
pub fn free_for<B: Book>(book: &B, link: u32, tick: u32) -> Result<(bool, u32), BookRefusal>
    ensures stretch { TellsStretch (B.Book.meaning book.now) link tick result }
    ensures laws { BookLaws }
{
    book.run(link, tick)
}

// A book that has no room: the contracts can be met, and this is what they refuse.
#[cfg(test)]
mod tests {
    use crate::{Book, BookRefusal, Extent, Holding, free_for};

    #[derive(Drop)]
    struct Roomless {
        extent: Extent,
    }

    impl Book for Roomless {
        ghost meaning = { λ b. bare b.extent.cycle b.extent.links };

        ghost formed = { λ b. empty_formed b.extent.cycle b.extent.links 0 };

        fn cycle(&self) -> u32 {
            self.extent.cycle
        }

        fn links(&self) -> u32 {
            self.extent.links
        }

        fn room(&self) -> u32 {
            0
        }

        #[tactic(auto, using(crate::specs::Empty::empty_total))]
        fn count(&self) -> u32 {
            0
        }

        fn run(&self, link: u32, tick: u32) -> Result<(bool, u32), BookRefusal> {
            self.extent.check_tick(link, tick)?;
            Ok((true, self.extent.cycle))
        }

        fn holder(&self, link: u32, tick: u32) -> Result<Option<Holding>, BookRefusal> {
            self.extent.check_tick(link, tick)?;
            Ok(None)
        }

        fn book(
            &mut self,
            link: u32,
            start: u32,
            ticks: u32,
            flow: u32,
        ) -> Result<(), BookRefusal> {
            self.extent
                .check_booking(link, start, Holding { ticks, flow })?;
            Err(BookRefusal::Full)
        }

        fn release(&mut self, link: u32, start: u32) -> Result<u32, BookRefusal> {
            self.extent.check_tick(link, start)?;
            Err(BookRefusal::NoneBegins)
        }
    }

    // The number of a refusal, or 0. Each crate's tests have their own: no crate can use another's tests.
    fn refused<T: Drop>(r: Result<T, BookRefusal>) -> u32 {
        r.err().map_or(0, BookRefusal::number)
    }

    #[test]
    fn no_room(rt: HostRuntime) {
        let mut book = Roomless {
            extent: Extent {
                cycle: 20,
                links: 2,
            },
        };
        assert!(rt; free_for(&book, 2, 19).is_ok());
        assert_eq!(rt; refused(free_for(&book, 0, 20)), 42);
        assert_eq!(rt; refused(book.run(3, 0)), 42);
        assert_eq!(rt; refused(book.holder(1, 20)), 43);
        assert_eq!(rt; refused(book.book(1, 0, 21, 1)), 43);
        assert_eq!(rt; refused(book.book(1, 0, 20, 49)), 43);
        assert_eq!(rt; refused(book.book(1, 19, 2, 7)), 73);
        assert_eq!(rt; refused(book.release(1, 19)), 74);
    }
}
