//! A lexer that hands out the tokens of a line.

use crate::numeral::numeral;
use crate::piece::Piece;
use crate::token::Token;

/// Hands out the tokens of a line, one at a time.
#[derive(Clone, Copy)]
pub struct Lexer<'a> {
    // What has not been handed out; none after the last word.
    rest: Option<Piece<'a>>,
}

impl<'a> Lexer<'a> {
    ghost use Rattle.std.specs.Prelude.{◌≡◌};
    ghost use Rattle.sheet.specs.Lines.{words_from};
    ghost use Rattle.sheet.specs.Readers.{words_left};

    // A lexer that has yet to hand out every token of the text.
    pub(crate) fn new(text: Piece<'a>) -> Lexer<'a>
        ensures { words_left result ≡ words_from text.entry.place text.entry.bytes.now }
    {
        Lexer { rest: Some(text) }
    }
}

impl<'a> Iterator for Lexer<'a> {
    ghost use Rattle.std.specs.Iterator.{item_count};
    ghost use Rattle.sheet.specs.Readers.{HandsOut, words_left};

    type Item = Token<'a>;

    ghost next_gives = { HandsOut };

    ghost remaining = { item_count words_left };

    fn next(&mut self) -> Option<Token<'a>> {
        let (word, rest) = self.rest?.cut(b' ');
        self.rest = rest;
        Some(match numeral(word.bytes) {
            Some(value) => Token::Number(word, value),
            None => Token::Word(word),
        })
    }
}
