//! The tokens of a line.

ghost use Rattle.std.specs.Prelude.{◌≡◌};
ghost use Rattle.sheet.specs.Readers.{seen, token_word};

use crate::piece::Piece;

/// A word of a line, told apart by whether it is a number.
// An enum and no `Option` of a value beside the word: the rules of a line name words and numbers as two kinds.
#[derive(Clone, Copy)]
pub enum Token<'a> {
    /// A word that is no number.
    Word(Piece<'a>),
    /// A number, with its word.
    Number(Piece<'a>, u32),
}

impl<'a> Token<'a> {
    // The word that the token was read from.
    pub(crate) fn word(self) -> Piece<'a>
        ensures { seen result ≡ token_word self.entry }
    {
        match self {
            Token::Word(word) | Token::Number(word, _) => word,
        }
    }
}
