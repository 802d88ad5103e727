//! What a try answers.
ghost use Rattle.std.specs.Prelude.{◌≡◌};
ghost use Rattle.sheet.specs.Verdicts.{strikes_in};

use strikes::Strike;

/// What came of trying a pair.
#[derive(Clone, Copy, PartialEq, Eq, Debug)]
pub enum Verdict {
    /// The pair was struck before.
    StaysStruck,
    /// The label of the first state is at most that of the second, and every step is answered.
    Stays,
    /// The pair is struck now.
    Struck(Strike),
}

impl Verdict {
    /// How many pairs it struck: one or none.
    pub fn strikes(self) -> usize
        ensures { result ≡ strikes_in self }
    {
        match self {
            Verdict::Struck(_) => 1,
            Verdict::StaysStruck | Verdict::Stays => 0,
        }
    }
}
