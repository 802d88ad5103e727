//! Machines given by a table of their steps.
ghost use Rattle.std.specs.Prelude.{◌≡◌, ◌*◌, ◌≤◌, length};
ghost use Rattle.model.specs.Machines.{state_bound, states, label_of, tabled, table_fits, table_meaning};
ghost use Rattle.model.specs.MachineLaws.{tabled_bounded};

use crate::machine::{Machine, is_sized};

/// n labels and n×n bytes, borrowed, as they lie in the memory that is lent: a step from s to t where the byte at s×n+t is not zero.
#[derive(Drop)]
pub struct Table<'a, L> {
    labels: &'a [L],
    steps: &'a [u8],
    ghost few: { length labels.now ≤ state_bound },
    ghost square: { length steps.now ≡ length labels.now * length labels.now },
}

impl<'a, L> Table<'a, L> {
    /// Whether the sizes fit: from 1 state to the bound, and a byte for each pair of states.
    pub fn fits(labels: &[L], steps: &[u8]) -> bool
        ensures { result ≡ table_fits (length labels.now) (length steps.now) }
    {
        let n = labels.len();
        is_sized(n) && steps.len() == n * n
    }

    /// Takes up a table. One that does not fit gives the machine of no states.
    pub fn new(labels: &'a [L], steps: &'a [u8]) -> Table<'a, L>
        ensures { tabled result.labels.now result.steps.now ≡ table_meaning labels.now steps.now }
    {
        if Table::fits(labels, steps) {
            Table { labels, steps }
        } else {
            Table {
                labels: &labels[0..0],
                steps: &steps[0..0],
            }
        }
    }
}

impl<'a, L: Copy> Machine for Table<'a, L> {
    type Label = L;

    ghost meaning = { λ m. tabled m.labels.now m.steps.now };

    ghost bounded = { λ m. tabled_bounded m.labels.now m.steps.now m.few };

    fn count(&self) -> usize
        ensures { result ≡ states (tabled self.now.labels.now self.now.steps.now) }
    {
        self.labels.len()
    }

    fn label(&self, s: usize) -> Option<L>
        ensures { result ≡ label_of (tabled self.now.labels.now self.now.steps.now) s }
    {
        self.labels.get(s).copied()
    }

    fn has_step(&self, s: usize, t: usize) -> bool
        ensures { result ≡ (tabled self.now.labels.now self.now.steps.now).step s t }
    {
        let n = self.labels.len();
        s < n && t < n && self.steps[s * n + t] != 0
    }
}
