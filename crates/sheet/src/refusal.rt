//! Why a line of a sheet is refused.

ghost use Rattle.std.specs.Prelude.{◌≡◌};
ghost use Rattle.sheet.specs.Refusals.{layer_of, number_of, sheet_number};
ghost use Rattle.sheet.specs.declared.refusal.Refusal.TheVariants.{Sheet, Network};

use network::NetworkRefusal;

/// Why a line is refused before anything is done with it.
#[derive(Clone, Copy, PartialEq, Eq, Debug)]
pub enum SheetRefusal {
    /// 61: the line begins with no word that is known.
    UnknownWord = 61,
    /// 62: more or fewer words follow than the first word asks for.
    WordCount = 62,
    /// 63: a word that should be a number is none.
    NotANumber = 63,
    /// 64: the line belongs on the other side of `READY`.
    OtherSide = 64,
    /// 65: the sheet has more than 32,768 bytes.
    TooLong = 65,
}

/// The part of the planner that refuses a line.
#[derive(Clone, Copy, PartialEq, Eq, Debug)]
pub enum Layer {
    /// `S`: the sheet itself.
    Sheet,
    /// `N`: the network.
    Network,
    /// `P`: the planner and its gate lists.
    Planner,
}

/// Why a line is refused.
#[derive(Clone, Copy, PartialEq, Eq, Debug)]
pub enum Refusal {
    /// The line itself is at fault.
    Sheet(SheetRefusal),
    /// The network refuses what the line asks for.
    Network(NetworkRefusal),
    /// 15: no planner stands on the network yet.
    NoPlanner,
}

impl SheetRefusal {
    /// The number that stands for the refusal.
    // Each enum has its own: a cast cannot be written for a type parameter.
    pub fn number(self) -> u32
        ensures { result ≡ sheet_number self }
    {
        self as u32
    }
}

impl From<SheetRefusal> for Refusal {
    ghost from_gives = { λ s r. r ≡ Sheet s };

    fn from(reason: SheetRefusal) -> Refusal {
        Refusal::Sheet(reason)
    }
}

impl From<NetworkRefusal> for Refusal {
    ghost from_gives = { λ n r. r ≡ Network n };

    fn from(reason: NetworkRefusal) -> Refusal {
        Refusal::Network(reason)
    }
}

impl Refusal {
    /// The layer that refuses.
    pub fn layer(self) -> Layer
        ensures { result ≡ layer_of self }
    {
        match self {
            Refusal::Sheet(_) => Layer::Sheet,
            Refusal::Network(_) => Layer::Network,
            Refusal::NoPlanner => Layer::Planner,
        }
    }

    /// The number that stands for the refusal.
    pub fn number(self) -> u32
        ensures { result ≡ number_of self }
    {
        match self {
            Refusal::Sheet(refusal) => refusal.number(),
            Refusal::Network(refusal) => refusal.number(),
            Refusal::NoPlanner => 15,
        }
    }
}
