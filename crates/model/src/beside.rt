//! Two machines as one.
ghost use Rattle.std.specs.Prelude.{◌≡◌, ◌+◌, cond, nat_le, Some, None};
ghost use Rattle.model.specs.Machines.{state_bound, states, label_of, beside_meaning};
ghost use Rattle.model.specs.MachineLaws.{beside_bounded};

use crate::machine::{Machine, STATE_BOUND};

/// The left's states under their own numbers, then the right's, with no step across.
/// More than the bound together gives the machine of no states.
#[derive(Drop)]
pub struct Beside<A, B> {
    pub left: A,
    pub right: B,
}

impl<A: Machine, B: Machine<Label = A::Label>> Beside<A, B> {
    /// The left's count and the right's, where they fit within the bound together.
    fn counts(&self) -> Option<(usize, usize)>
        ensures { let left = states (A.Machine.meaning self.now.left) in
            let right = states (B.Machine.meaning self.now.right) in
            result ≡ cond (nat_le (left + right) state_bound) (Some (left, right)) None }
    {
        let left = self.left.count();
        let right = self.right.count();
        (left + right <= STATE_BOUND).then_some((left, right))
    }
}

impl<A: Machine, B: Machine<Label = A::Label>> Machine for Beside<A, B> {
    type Label = A::Label;

    ghost meaning = { λ m. beside_meaning (A.Machine.meaning m.left) (B.Machine.meaning m.right) };

    ghost bounded = { λ m. beside_bounded (A.Machine.bounded m.left) (B.Machine.bounded m.right) };

    fn count(&self) -> usize
        ensures { result ≡ states (beside_meaning (A.Machine.meaning self.now.left) (B.Machine.meaning self.now.right)) }
    {
        self.counts().map_or(0, |(left, right)| left + right)
    }

    fn label(&self, s: usize) -> Option<A::Label>
        ensures { result ≡ label_of (beside_meaning (A.Machine.meaning self.now.left) (B.Machine.meaning self.now.right)) s }
    {
        let (left, _) = self.counts()?;
        if s < left {
            self.left.label(s)
        } else {
            self.right.label(s - left)
        }
    }

    fn has_step(&self, s: usize, t: usize) -> bool
        ensures { result ≡ (beside_meaning (A.Machine.meaning self.now.left) (B.Machine.meaning self.now.right)).step s t }
    {
        self.counts().is_some_and(|(left, _)| {
            if s < left {
                self.left.has_step(s, t)
            } else {
                t >= left && self.right.has_step(s - left, t - left)
            }
        })
    }
}
