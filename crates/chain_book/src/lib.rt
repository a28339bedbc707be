//! A book of bookings kept as chains of lent records.

#![tactic(auto)]

mod booking;
mod calls;
mod chain_book;
mod make;
mod pass;
mod scan;

pub use booking::Booking;
pub use chain_book::ChainBook;

// Examples worked out by hand from the rules.
#[cfg(test)]
mod tests {
    use crate::{Booking, ChainBook};
    use book::{Book, BookRefusal, Holding};
    use chains::Slot;

    // What lent memory may hold before a book is made in it.
    fn junk(next: usize) -> Slot<Booking> {
        Slot {
            next,
            item: Booking {
                start: 19,
                ticks: 4_000_000_000,
                flow: 99,
            },
        }
    }

    // The number of a refusal, or 0. Each crate's tests have their own: no crate can use another's tests.
    fn refused<T: Drop>(r: Result<T, BookRefusal>) -> u32 {
        r.err().map_or(0, BookRefusal::number)
    }

    // Bookings over the end of the cycle, bookings that join, and links that are booked in full.
    #[test]
    fn runs(rt: HostRuntime) {
        let mut records = [junk(1); 9];
        records[1] = junk(usize::MAX);
        records[2] = junk(9);
        let mut book = ChainBook::new(&mut records, 20, 6);
        let bookings = [
            (1, 19, 2),
            (2, 0, 20),
            (3, 16, 8),
            (3, 4, 12),
            (4, 3, 2),
            (4, 5, 4),
            (5, 18, 2),
            (5, 0, 3),
        ];
        for (link, start, ticks) in bookings {
            assert_eq!(rt; refused(book.book(link, start, ticks, link)), 0);
            assert!(rt; book.holder(link, start) == Ok(Some(Holding { ticks, flow: link })));
        }
        assert_eq!(rt; book.count(), 8);
        let cases = [
            (1, 18, true, 1),
            (1, 19, false, 2),
            (1, 0, false, 1),
            (1, 1, true, 18),
            (4, 2, true, 1),
            (4, 3, false, 6),
            (4, 4, false, 5),
            (4, 8, false, 1),
            (4, 9, true, 14),
            (5, 17, true, 1),
            (5, 18, false, 5),
            (5, 0, false, 3),
            (5, 3, true, 15),
        ];
        for (link, tick, free, ticks) in cases {
            assert!(rt; book.run(link, tick) == Ok((free, ticks)));
        }
        for tick in 0..20 {
            assert!(rt; book.run(2, tick) == Ok((false, 20)));
            assert!(rt; book.run(3, tick) == Ok((false, 20)));
            assert!(rt; book.run(6, tick) == Ok((true, 20)));
            assert!(rt; book.holder(6, tick) == Ok(None));
        }
        assert!(rt; book.holder(1, 0) == Ok(None));
        assert!(rt; book.holder(4, 4) == Ok(None));
    }

    // What is made of so many records for the cycle and the links that are asked for, and what then becomes of a
    // booking of the whole cycle on the last link.
    #[test]
    fn making(rt: HostRuntime) {
        let cases = [
            (0, 20, 2, 0, 20, 2, 73),
            (1, 20, 2, 0, 20, 2, 73),
            (2, 20, 2, 1, 20, 2, 0),
            (1_024, 20, 2, 1_023, 20, 2, 0),
            (1_025, 4_096, 40, 1_024, 4_096, 40, 0),
            (1_030, 4_096, 40, 1_024, 4_096, 40, 0),
            (5, 0, 2, 0, 1, 0, 42),
            (5, 1, 2, 4, 1, 2, 0),
            (5, 4_096, 2, 4, 4_096, 2, 0),
            (5, 4_097, 2, 0, 1, 0, 42),
            (5, 20, 0, 4, 20, 0, 42),
            (5, 20, 40, 4, 20, 40, 0),
            (5, 20, 41, 0, 1, 0, 42),
        ];
        for (count, asked_cycle, asked_links, room, cycle, links, number) in cases {
            let mut records = [junk(1_030); 1_030];
            assert!(rt; count <= 1_030);
            let mut book = ChainBook::new(&mut records[0..count], asked_cycle, asked_links);
            assert_eq!(rt; book.room(), room);
            assert_eq!(rt; book.cycle(), cycle);
            assert_eq!(rt; book.links(), links);
            assert_eq!(rt; book.count(), 0);
            assert_eq!(rt; refused(book.book(links, 0, cycle, 48)), number);
            assert_eq!(rt; refused(book.run(1, 0)), if links == 0 { 42 } else { 0 });
            if room == 1_024 {
                for start in 1..1_024 {
                    assert_eq!(rt; refused(book.book(1 + start % 39, start, 1, 1)), 0);
                }
                assert_eq!(rt; refused(book.book(1, 0, 1, 1)), 73);
                assert_eq!(rt; book.count(), 1_024);
            }
        }
    }

    // Records that are used again and again, and every refusal of a full book in its order.
    #[test]
    fn refusals(rt: HostRuntime) {
        let mut records = [junk(2); 3];
        let mut book = ChainBook::new(&mut records, 20, 2);
        assert_eq!(rt; refused(book.book(1, 18, 4, 1)), 0);
        for round in 0..30 {
            let start = round % 20;
            assert_eq!(rt; refused(book.book(2, start, 1 + start, 48)), 0);
            assert_eq!(rt; book.count(), 2);
            assert!(rt; book.release(2, start) == Ok(1 + start));
            assert!(rt; book.run(2, start) == Ok((true, 20)));
        }
        assert_eq!(rt; refused(book.book(2, 7, 20, 1)), 0);
        let cases = [
            (0, 20, 0, 0, 42),
            (3, 20, 0, 0, 42),
            (1, 20, 1, 1, 43),
            (1, 18, 0, 1, 43),
            (1, 18, 21, 1, 43),
            (1, 18, 1, 0, 43),
            (1, 18, 1, 49, 43),
            (1, 18, 4, 1, 72),
            (1, 1, 1, 1, 72),
            (1, 2, 17, 1, 72),
            (1, 17, 2, 1, 72),
            (2, 6, 1, 1, 72),
            (1, 2, 16, 48, 73),
        ];
        for (link, start, ticks, flow, number) in cases {
            assert_eq!(rt; refused(book.book(link, start, ticks, flow)), number);
        }
        let cases = [(0, 20, 42), (3, 0, 42), (1, 20, 43)];
        for (link, tick, number) in cases {
            assert_eq!(rt; refused(book.run(link, tick)), number);
            assert_eq!(rt; refused(book.holder(link, tick)), number);
            assert_eq!(rt; refused(book.release(link, tick)), number);
        }
        assert_eq!(rt; refused(book.release(1, 19)), 74);
        assert_eq!(rt; refused(book.release(1, 2)), 74);
        assert_eq!(rt; book.count(), 2);
        assert!(rt; book.run(1, 2) == Ok((true, 16)));
        assert!(rt; book.release(1, 18) == Ok(4));
        assert!(rt; book.run(1, 2) == Ok((true, 20)));
    }
}
