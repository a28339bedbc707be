//! A reader that hands out the lines of a sheet.

ghost use Rattle.std.specs.Prelude.{◌≤◌, IfSome};
ghost use Rattle.std.proofs.Props.{props};

use crate::line::Line;
use crate::piece::Piece;

/// Hands out the lines of a sheet, one at a time.
#[derive(Drop)]
pub struct Reader<'a> {
    // What has not been handed out; none after the last line.
    rest: Option<Piece<'a>>,
    // How many lines have been handed out; no `enumerate` at the end, since a line has its number wherever it goes.
    count: usize,
    ghost counted: { IfSome rest (λ p. count ≤ p.place) } by { Prim.hlevel props },
}

impl<'a> Reader<'a> {
    ghost use Rattle.std.specs.Prelude.{◌≡◌};
    ghost use Rattle.sheet.specs.Lines.{lines};
    ghost use Rattle.sheet.specs.Readers.{lines_left};

    // A reader that has yet to hand out every line of the sheet.
    pub(crate) fn new(sheet: &'a [u8]) -> Reader<'a>
        ensures { lines_left result ≡ lines sheet.now }
    {
        Reader {
            rest: Some(Piece {
                place: 0,
                bytes: sheet,
            }),
            count: 0,
        }
    }
}

impl<'a> Iterator for Reader<'a> {
    ghost use Rattle.std.specs.Iterator.{YieldsFirstBy, item_count};
    ghost use Rattle.sheet.specs.Readers.{lines_left, seen_line};

    type Item = Line<'a>;

    ghost next_gives = { YieldsFirstBy seen_line lines_left };

    ghost remaining = { item_count lines_left };

    // A line ends before a byte 10; after the last one there is a line only if a byte is left.
    fn next(&mut self) -> Option<Line<'a>> {
        let (text, rest) = self.rest?.cut(b'\n');
        self.rest = rest;
        if rest.is_none() && text.bytes.is_empty() {
            return None;
        }
        self.count += 1;
        Some(Line {
            number: self.count,
            text,
        })
    }
}
