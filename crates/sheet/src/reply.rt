//! What a line is answered, and how the answer is written.

ghost use Rattle.std.specs.Prelude.{Some};
ghost use Rattle.sheet.specs.Refusals.{layer_text};
ghost use Rattle.sheet.specs.Replies.{reply_text};

use crate::refusal::{Layer, Refusal};
use std::fmt;

/// What a line of a sheet is answered.
// An enum of its own and no `Result`: it is printed, and a `Result` could not be given this `Display`.
#[derive(Clone, Copy, PartialEq, Eq, Debug)]
pub enum Reply {
    /// `OK`: what the line asks for is done.
    Done,
    /// `NO`: the line is refused, and nothing is changed.
    Refused {
        /// Why.
        refusal: Refusal,
        /// The number of the line, counted from 1.
        line: usize,
        /// The place of the word at fault, counted in bytes from 0.
        place: usize,
    },
}

impl fmt::Display for Layer {
    ghost output = { λ l. Some (layer_text l) };

    fn fmt<W: fmt::Write>(&self, f: &mut fmt::Formatter<W>) -> fmt::Result {
        match self {
            Layer::Sheet => f.write_str("S"),
            Layer::Network => f.write_str("N"),
            Layer::Planner => f.write_str("P"),
        }
    }
}

impl fmt::Display for Reply {
    ghost output = { λ r. Some (reply_text r) };

    fn fmt<W: fmt::Write>(&self, f: &mut fmt::Formatter<W>) -> fmt::Result {
        match self {
            Reply::Done => f.write_str("OK"),
            Reply::Refused {
                refusal,
                line,
                place,
            } => {
                let layer = refusal.layer();
                let number = refusal.number();
                write!(f, "NO {layer} {number} {line} {place}")
            }
        }
    }
}
