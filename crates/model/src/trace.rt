//! Machines that run through their states once.
ghost use Rattle.std.specs.Prelude.{◌≡◌, ◌≤◌, length};
ghost use Rattle.model.specs.Machines.{state_bound, states, label_of, traced, trace_meaning};
ghost use Rattle.model.specs.MachineLaws.{traced_bounded};

use crate::machine::{Machine, STATE_BOUND};

/// A list of labels, borrowed: each state steps to the next, and the last to none.
#[derive(Drop)]
pub struct Trace<'a, L> {
    labels: &'a [L],
    ghost few: { length labels.now ≤ state_bound },
}

impl<'a, L> Trace<'a, L> {
    /// Takes up a trace. One that is longer than the bound gives the machine of no states.
    pub fn new(labels: &'a [L]) -> Trace<'a, L>
        ensures { traced result.labels.now ≡ trace_meaning labels.now }
    {
        if labels.len() <= STATE_BOUND {
            Trace { labels }
        } else {
            Trace {
                labels: &labels[0..0],
            }
        }
    }
}

impl<'a, L: Copy> Machine for Trace<'a, L> {
    type Label = L;

    ghost meaning = { λ m. traced m.labels.now };

    ghost bounded = { λ m. traced_bounded m.labels.now m.few };

    fn count(&self) -> usize
        ensures { result ≡ states (traced self.now.labels.now) }
    {
        self.labels.len()
    }

    fn label(&self, s: usize) -> Option<L>
        ensures { result ≡ label_of (traced self.now.labels.now) s }
    {
        self.labels.get(s).copied()
    }

    fn has_step(&self, s: usize, t: usize) -> bool
        ensures { result ≡ (traced self.now.labels.now).step s t }
    {
        let n = self.labels.len();
        s < n && t < n && t == s + 1
    }
}
