//! The nine words that a line can begin with.

ghost use Rattle.std.specs.Prelude.{◌≡◌};
ghost use Rattle.sheet.specs.Keywords.{Spells, arity_of, belongs_in};

/// The word that a line begins with.
#[derive(Clone, Copy, PartialEq, Eq, Debug)]
pub enum Keyword {
    /// `NET`: the numbers of the network.
    Net,
    /// `LINK`: a link more.
    Link,
    /// `READY`: the network is closed.
    Ready,
    /// `FLOW`: a flow is asked for.
    Flow,
    /// `DROP`: a flow is removed.
    Drop,
    /// `BAR`: a node is barred.
    Bar,
    /// `LIFT`: a node is barred no more.
    Lift,
    /// `GATES`: the gate list of a link.
    Gates,
    /// `FAULTS`: the flows that were refused.
    Faults,
}

/// How far a sheet has come.
#[derive(Clone, Copy, PartialEq, Eq, Debug)]
pub enum Stage {
    /// The network is being wired: up to `READY`.
    Wiring,
    /// The network is closed: after `READY`.
    Closed,
}

impl Keyword {
    /// The keyword that is written so, if there is one.
    // An `Option` and no `TryFrom`: an error could say no more than that there is none.
    pub fn of(text: &[u8]) -> Option<Keyword>
        ensures { Spells text.now result }
    {
        match text {
            b"NET" => Some(Keyword::Net),
            b"LINK" => Some(Keyword::Link),
            b"READY" => Some(Keyword::Ready),
            b"FLOW" => Some(Keyword::Flow),
            b"DROP" => Some(Keyword::Drop),
            b"BAR" => Some(Keyword::Bar),
            b"LIFT" => Some(Keyword::Lift),
            b"GATES" => Some(Keyword::Gates),
            b"FAULTS" => Some(Keyword::Faults),
            _ => None,
        }
    }

    /// How many numbers follow the keyword.
    pub fn arity(self) -> usize
        ensures { result ≡ arity_of self }
    {
        match self {
            Keyword::Net => 5,
            Keyword::Link => 2,
            Keyword::Flow => 7,
            Keyword::Drop | Keyword::Bar | Keyword::Lift | Keyword::Gates => 1,
            Keyword::Ready | Keyword::Faults => 0,
        }
    }

    /// Whether lines with the keyword belong at a stage of the sheet.
    pub fn belongs(self, stage: Stage) -> bool
        ensures { result ≡ belongs_in self stage }
    {
        match self {
            Keyword::Net | Keyword::Link | Keyword::Ready => stage == Stage::Wiring,
            _ => stage == Stage::Closed,
        }
    }
}
