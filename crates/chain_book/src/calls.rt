//! The calls of a chain book.

ghost use Rattle.std.specs.Prelude.{◌≡◌, ◌<◌, OnOk};
ghost use Rattle.book.specs.Calls.{tick_rules};
ghost use Rattle.book.specs.Meanings.{row};
ghost use Rattle.chain_book.specs.Bookings.{spans_of};
ghost use Rattle.chain_book.specs.Scans.{BookedFor};
ghost use Rattle.chain_book.specs.Views.{meaning_of};
ghost use Rattle.chain_book.specs.Props.{sound_of};
ghost use Rattle.chains.specs.Views.{left_of};
ghost use Rattle.limits.specs.Ranges.{Within};
ghost use Rattle.limits.specs.Refusals.{Checks};

use crate::booking::Booking;
use crate::chain_book::ChainBook;
use crate::pass::Pass;
use book::{Book, BookRefusal, Holding};

impl ChainBook<'_> {
    // Passes a tick of a link that the book has, and else says why not: the check of each question and of a release.
    fn check_tick(&self, link: u32, tick: u32) -> Result<(), BookRefusal>
        ensures checks { Checks (tick_rules (meaning_of self.now) link tick) result }
        ensures there { OnOk result (Within 1 self.now.extent.links link) }
        ensures inside { OnOk result (tick < self.now.extent.cycle) }
    {
        self.extent.check_tick(link, tick)
    }

    // A pass along the bookings of a link. A link is in range of one book, which a type of links could not say.
    fn pass(&self, link: u32) -> Pass<'_>
        requires { Within 1 self.now.extent.links link }
        ensures bookings { spans_of (left_of result.ahead) ≡ row (meaning_of self.now) link }
        ensures cycle { result.cycle ≡ self.now.extent.cycle }
    {
        Pass {
            ahead: self.chains.walk(link),
            cycle: self.extent.cycle,
        }
    }

    // How many ticks from a tick on are covered.
    fn booked_for(&self, link: u32, tick: u32) -> u32
        requires there { Within 1 self.now.extent.links link }
        requires inside { tick < self.now.extent.cycle }
        ensures { BookedFor self.now.extent.cycle (row (meaning_of self.now) link) tick result }
    {
        let mut run = 0;
        loop {
            let reach = self.pass(link).extend(tick, run);
            if reach == run {
                return run;
            }
            run = reach;
        }
    }
}

impl Book for ChainBook<'_> {
    ghost meaning = { meaning_of };

    ghost formed = { λ b. (sound_of b).formed };

    fn cycle(&self) -> u32 {
        self.extent.cycle
    }

    fn links(&self) -> u32 {
        self.extent.links
    }

    fn room(&self) -> u32 {
        self.chains.room() as u32
    }

    fn count(&self) -> u32 {
        self.chains.count() as u32
    }

    fn run(&self, link: u32, tick: u32) -> Result<(bool, u32), BookRefusal> {
        self.check_tick(link, tick)?;
        let booked = self.booked_for(link, tick);
        if booked > 0 {
            return Ok((false, booked));
        }
        Ok((true, self.pass(link).gap(tick)))
    }

    fn holder(&self, link: u32, tick: u32) -> Result<Option<Holding>, BookRefusal> {
        self.check_tick(link, tick)?;
        let found = self.chains.find(link, tick);
        Ok(found.ok().map(Holding::from))
    }

    fn book(&mut self, link: u32, start: u32, ticks: u32, flow: u32) -> Result<(), BookRefusal> {
        let holding = Holding { ticks, flow };
        self.extent.check_booking(link, start, holding)?;
        let booking = Booking { start, ticks, flow };
        if self.pass(link).clashes(booking) {
            return Err(BookRefusal::Covered);
        }
        let added = self.chains.insert(link, booking);
        added.map_err(|_| BookRefusal::Full)
    }

    fn release(&mut self, link: u32, start: u32) -> Result<u32, BookRefusal> {
        self.check_tick(link, start)?;
        let removed = self.chains.remove(link, start);
        removed
            .map(|booking| booking.ticks)
            .map_err(|_| BookRefusal::NoneBegins)
    }
}
