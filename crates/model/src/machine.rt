//! Machines: states that carry labels, and steps between them.
ghost use Rattle.std.specs.Prelude.{◌≡◌};
ghost use Rattle.model.specs.Machines.{Meaning, Bounded, states, label_of, is_sized};

/// The most states that a machine may have.
pub const STATE_BOUND: usize = 64;

/// Whether a count is from one to the bound.
pub fn is_sized(count: usize) -> bool
    ensures { result ≡ is_sized count }
{
    count >= 1 && count <= STATE_BOUND
}

/// A state's number as memory holds it, in walks and in strike records. Numbers of states are cast to it (`as`), which is
/// proved to lose nothing; `try_from` would answer an error that never comes.
pub type State = u8;

/// A machine, by its answers. Its states are the numbers below its count.
pub trait Machine {
    type Label: Copy;

    /// The labels of the states, and the steps between them.
    ghost meaning: { Self → Meaning Self.Label };

    /// The states are within the bound, and the steps lead from state to state.
    ghost bounded: { (m : Self) → Bounded (meaning m) };

    /// How many states there are.
    fn count(&self) -> usize
        ensures { result ≡ states (meaning self.now) };

    /// The label of a state, or nothing where `s` is none.
    fn label(&self, s: usize) -> Option<Self::Label>
        ensures { result ≡ label_of (meaning self.now) s };

    /// Whether there is a step from `s` to `t`: no where either is no state.
    fn has_step(&self, s: usize, t: usize) -> bool
        ensures { result ≡ (meaning self.now).step s t };
}
