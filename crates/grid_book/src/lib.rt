//! A book of bookings that is kept in a grid of lent cells, one for each tick of each link.

#![tactic(auto)]

mod calls;
mod cell;
mod grid;
mod keep;
mod make;
mod row;

pub use cell::Cell;
pub use grid::GridBook;

// Examples worked out by hand from the rules.
#[cfg(test)]
mod tests {
    use crate::{Cell, GridBook};
    use book::{Book, BookRefusal, Holding};

    // The number of a refusal, or 0. Each crate's tests have their own: no crate can use another's tests.
    fn refused<T: Drop>(r: Result<T, BookRefusal>) -> u32 {
        r.err().map_or(0, BookRefusal::number)
    }

    // A booking over the end of the cycle, in cells that held something else before.
    #[test]
    fn over_the_end(rt: HostRuntime) {
        let mut cells = [Cell::First(Holding { ticks: 3, flow: 9 }); 41];
        let mut book = GridBook::new(&mut cells, 2, 20, 2);
        assert_eq!(rt; book.count(), 0);
        assert!(rt; book.run(2, 19) == Ok((true, 20)));
        assert_eq!(rt; refused(book.book(1, 19, 2, 7)), 0);
        for (tick, free, ticks) in [(18, true, 1), (19, false, 2), (0, false, 1), (1, true, 18)] {
            assert!(rt; book.run(1, tick) == Ok((free, ticks)));
        }
        assert!(rt; book.run(2, 0) == Ok((true, 20)));
        assert_eq!(rt; refused(book.book(1, 0, 1, 8)), 72);
        assert_eq!(rt; refused(book.book(1, 18, 2, 8)), 72);
        assert_eq!(rt; refused(book.book(2, 0, 20, 48)), 0);
        assert_eq!(rt; refused(book.book(1, 1, 1, 8)), 73);
        assert_eq!(rt; refused(book.release(1, 0)), 74);
        assert!(rt; book.release(1, 19) == Ok(2));
        assert_eq!(rt; book.count(), 1);
        assert!(rt; book.run(1, 5) == Ok((true, 20)));
    }

    // What is made of the number of cells and the room, cycle and links that are asked for.
    #[test]
    fn making(rt: HostRuntime) {
        let cases = [
            (4, 10, 3, 4, 10, 3),
            (4, 10, 4, 0, 10, 4),
            (0, 10, 3, 0, 10, 3),
            (1_024, 30, 1, 1_024, 30, 1),
            (1_025, 30, 1, 0, 30, 1),
            (5, 4_096, 0, 5, 4_096, 0),
            (5, 4_097, 0, 0, 1, 0),
            (5, 0, 1, 0, 1, 0),
            (5, 1, 40, 0, 1, 40),
            (5, 1, 41, 0, 1, 0),
        ];
        for (wanted, asked_cycle, asked_links, room, cycle, links) in cases {
            let mut cells = [Cell::Further; 30];
            let book = GridBook::new(&mut cells, wanted, asked_cycle, asked_links);
            assert_eq!(rt; book.room(), room);
            assert_eq!(rt; book.cycle(), cycle);
            assert_eq!(rt; book.links(), links);
        }
    }

    // Too few cells: nothing can be booked, and every tick is free.
    #[test]
    fn too_few_cells(rt: HostRuntime) {
        let mut cells = [Cell::Further; 5];
        let mut book = GridBook::new(&mut cells, 2, 20, 1);
        assert!(rt; book.run(1, 19) == Ok((true, 20)));
        assert!(rt; book.holder(1, 3) == Ok(None));
        assert_eq!(rt; refused(book.book(1, 0, 20, 1)), 73);
        assert_eq!(rt; refused(book.book(1, 20, 1, 1)), 43);
        assert_eq!(rt; refused(book.release(2, 0)), 42);
    }
}
