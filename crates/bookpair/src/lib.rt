//! The same calls on two books of any kinds: books that mean the same answer alike.

#![tactic(auto)]

mod asked;
mod call;
mod draw;

pub use asked::{answer, same_answers};
pub use call::{Answer, Call};
pub use draw::Draw;

// A book in chains and a book in a grid, of one cycle, room and number of links.
#[cfg(test)]
mod tests {
    use crate::{Answer, Call, Draw, answer, same_answers};
    use book::{Book, BookRefusal, Holding};
    use chain_book::{Booking, ChainBook};
    use chains::Slot;
    use grid_book::{Cell, GridBook};
    use std::process::Abort;

    // How often an answer came.
    #[derive(Clone, Copy, Default)]
    struct Tally {
        booked: u32,
        released: u32,
        no_such_link: u32,
        out_of_range: u32,
        covered: u32,
        full: u32,
        none_begins: u32,
    }

    impl Tally {
        fn add(&mut self, answer: Result<Answer, BookRefusal>) {
            let count = match answer {
                Ok(Answer::Booked) => &mut self.booked,
                Ok(Answer::Released { .. }) => &mut self.released,
                Ok(_) => return,
                Err(BookRefusal::NoSuchLink) => &mut self.no_such_link,
                Err(BookRefusal::OutOfRange) => &mut self.out_of_range,
                Err(BookRefusal::Covered) => &mut self.covered,
                Err(BookRefusal::Full) => &mut self.full,
                Err(BookRefusal::NoneBegins) => &mut self.none_begins,
            };
            *count = count.saturating_add(1);
        }

        // Whether each came.
        fn is_full(&self) -> bool {
            self.booked > 0
                && self.released > 0
                && self.no_such_link > 0
                && self.out_of_range > 0
                && self.covered > 0
                && self.full > 0
                && self.none_begins > 0
        }
    }

    // Makes 400 calls of both books, and tallies every second answer.
    fn drive<L: Book, R: Book>(
        rt: &impl Abort,
        left: &mut L,
        right: &mut R,
        draw: &mut Draw,
    ) -> Tally {
        let mut tally = Tally::default();
        for _ in 0..200 {
            let call = draw.next_call();
            let told = answer(left, call);
            assert_eq!(rt; told, answer(right, call));
            assert_eq!(rt; left.count(), right.count());
            tally.add(told);
            assert!(rt; same_answers(left, right, draw.next_call()));
        }
        tally
    }

    // Asks both books about each tick of a link.
    fn compare_link<L: Book, R: Book>(rt: &impl Abort, left: &mut L, right: &mut R, link: u32) {
        for tick in 0..left.cycle() {
            assert!(rt; same_answers(left, right, Call::Run { link, tick }));
            assert!(rt; same_answers(left, right, Call::Holder { link, tick }));
        }
    }

    // Makes the calls of two books that are new, and compares them tick by tick then.
    fn compare<L: Book, R: Book>(rt: &impl Abort, left: &mut L, right: &mut R) {
        assert_eq!(rt; left.cycle(), right.cycle());
        assert_eq!(rt; left.links(), right.links());
        assert_eq!(rt; left.room(), right.room());
        let mut draw = Draw::new(2, left.cycle());
        assert!(rt; drive(rt, left, right, &mut draw).is_full());
        for link in 1..=4 {
            compare_link(rt, left, right, link);
        }
    }

    // What the records hold before.
    const JUNK: Slot<Booking> = Slot {
        next: 7,
        item: Booking {
            start: 3,
            ticks: 9,
            flow: 5,
        },
    };

    #[test]
    fn roomy_books(rt: HostRuntime) {
        let mut records = [JUNK; 13];
        let mut cells = [Cell::First(Holding { ticks: 3, flow: 9 }); 80];
        let mut chain = ChainBook::new(&mut records, 20, 4);
        let mut grid = GridBook::new(&mut cells, 12, 20, 4);
        assert_eq!(rt; grid.room(), 12);
        compare(&rt, &mut chain, &mut grid);
    }

    #[test]
    fn books_of_one(rt: HostRuntime) {
        let mut records = [JUNK; 2];
        let mut cells = [Cell::Further; 28];
        let mut chain = ChainBook::new(&mut records, 7, 4);
        let mut grid = GridBook::new(&mut cells, 1, 7, 4);
        assert_eq!(rt; grid.room(), 1);
        compare(&rt, &mut chain, &mut grid);
    }
}
