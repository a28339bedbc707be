//! What a line asks for.

use crate::keyword::Keyword;
use crate::piece::Piece;
use crate::refusal::SheetRefusal;
use network::Numbers;

/// What a line asks for, its words read.
#[derive(Clone, Copy)]
pub enum Command {
    /// `NET`: the numbers of the network.
    Net(Numbers),
    /// `LINK`: a link from one node to another.
    Link(u32, u32),
    /// `READY`: the network is closed.
    Ready,
    /// A line for the planner, by its first word.
    Planner(Keyword),
}

/// Why a line is not read, with the place of the word at fault.
#[derive(Clone, Copy)]
pub struct Fault {
    /// What is wrong.
    pub refusal: SheetRefusal,
    /// The place of the word at fault.
    pub place: usize,
}

impl<'a> Piece<'a> {
    ghost use Rattle.std.specs.Prelude.{◌≡◌};

    // A fault at the place of the piece.
    pub(crate) fn fault(self, refusal: SheetRefusal) -> Fault
        ensures { result ≡ record { refusal = refusal; place = self.entry.place } }
    {
        Fault {
            refusal,
            place: self.place,
        }
    }
}
