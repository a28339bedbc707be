//! The calls of a book in a grid.

ghost use Rattle.grid_book.specs.Views.{meaning_of};

use crate::grid::GridBook;
use book::{Book, BookRefusal, Holding};

impl Book for GridBook<'_> {
    ghost meaning = { meaning_of };

    ghost formed = { λ b. b.sound.formed };

    fn cycle(&self) -> u32 {
        self.grid.extent.cycle
    }

    fn links(&self) -> u32 {
        self.grid.extent.links
    }

    fn room(&self) -> u32 {
        self.room
    }

    fn count(&self) -> u32 {
        self.count
    }

    fn run(&self, link: u32, tick: u32) -> Result<(bool, u32), BookRefusal> {
        self.check_tick(link, tick)?;
        Ok(self.row(link).run(tick))
    }

    fn holder(&self, link: u32, tick: u32) -> Result<Option<Holding>, BookRefusal> {
        self.check_tick(link, tick)?;
        Ok(self.row(link).begun_at(tick))
    }

    fn book(&mut self, link: u32, start: u32, ticks: u32, flow: u32) -> Result<(), BookRefusal> {
        let holding = Holding { ticks, flow };
        self.check(link, start, holding)?;
        self.add(link, start, holding);
        Ok(())
    }

    fn release(&mut self, link: u32, start: u32) -> Result<u32, BookRefusal> {
        let holding = self.holder(link, start)?.ok_or(BookRefusal::NoneBegins)?;
        self.remove(link, start, holding);
        Ok(holding.ticks)
    }
}
