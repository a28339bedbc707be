//! Why a draft refuses a call.

ghost use Rattle.std.specs.Prelude.{◌≡◌};
ghost use Rattle.network.specs.Refusals.{number_of};

/// Why a draft refuses a call; it is then as it was.
#[derive(Clone, Copy, PartialEq, Eq, Debug)]
pub enum NetworkRefusal {
    /// 11: an end of the link is no node, or its ends are equal.
    LinkEnds = 11,
    /// 12: there is a link between these nodes already.
    LinkExists = 12,
    /// 13: the draft has 40 links already.
    TooManyLinks = 13,
    /// 14: a number is out of its range.
    NumberOutOfRange = 14,
    /// 16: numbers are set only while there is no link.
    NumbersAfterLink = 16,
}

impl NetworkRefusal {
    /// The number that stands for the refusal.
    // Each enum has its own: a cast cannot be written for a type parameter.
    pub fn number(self) -> u32
        ensures { result ≡ number_of self }
    {
        self as u32
    }
}
