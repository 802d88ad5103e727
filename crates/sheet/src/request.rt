//! Requests of a run, and the good replies to them.
ghost use Rattle.std.specs.Prelude.{◌≡◌};
ghost use Rattle.std.specs.Option.{option_map};
ghost use Rattle.sheet.specs.Replies.{walk_of};

use crate::verdict::Verdict;
use model::{STATE_BOUND, State};
use strikes::Strike;

/// A call to make on a sheet.
#[derive(Clone, Copy, PartialEq, Eq, Debug)]
pub enum Request {
    /// Try the pair (s, t).
    Try(usize, usize),
    /// Sweep the row s.
    Sweep(usize),
    Settle,
    /// The class of s.
    Class(usize),
    /// Whether s is below t.
    Below(usize, usize),
    /// The reason of the pair (s, t).
    Reason(usize, usize),
    /// Answer(s, t, u): the answer from t to the step from s to u.
    Answer(usize, usize, usize),
}

/// What a call replied, where it was not refused.
#[derive(Clone, Copy, PartialEq, Eq, Debug)]
pub enum Reply {
    Tried(Verdict),
    /// How many pairs were struck.
    Swept(usize),
    /// Strikes made and passes taken.
    Settled(usize, usize),
    ClassIs(usize),
    IsBelow(bool),
    ReasonIs(Strike),
    /// A walk: how many states it has, and memory that begins with them. An array with its count: a reply
    /// is `Copy`, and the vector in place of the toolchain is not.
    Walked {
        places: usize,
        states: [State; STATE_BOUND],
    },
}

impl Reply {
    /// The states of the walk that was written, where this is such a reply and its memory has as many.
    pub fn walk(&self) -> Option<&[State]>
        ensures { option_map (λ states. states.now) result ≡ walk_of self.now }
    {
        match self {
            Reply::Walked { places, states } => states.get(..*places),
            _ => None,
        }
    }
}
