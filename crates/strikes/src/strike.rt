//! A strike.
ghost use Rattle.std.specs.Prelude.{◌≡◌};
ghost use Rattle.strikes.specs.Strikes.{names as names_pair};

use model::State;

/// Why a pair of states is told apart. No `Option` of a state: both cases are grounds, and each has its own formula.
#[derive(Clone, Copy, PartialEq, Eq, Debug)]
pub enum Ground {
    /// The label of the first state is not at most that of the second.
    ByLabel,
    /// The first state steps to this one, and no walk of the second answers.
    ByStep(State),
}

/// A pair of states that is told apart, with the ground.
#[derive(Clone, Copy, PartialEq, Eq, Debug)]
pub struct Strike {
    pub first: State,
    pub second: State,
    pub ground: Ground,
}

impl Strike {
    /// Whether this strikes the pair (s, t), on whatever ground; so it is not the equality of strikes.
    pub fn names(&self, s: usize, t: usize) -> bool
        ensures { result ≡ names_pair self.now s t }
    {
        usize::from(self.first) == s && usize::from(self.second) == t
    }
}
