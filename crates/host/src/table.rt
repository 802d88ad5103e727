//! Machines in bytes.
ghost use Rattle.std.specs.Prelude.{◌≡◌, ◌*◌, ◌≤◌, length};
ghost use Rattle.model.specs.Machines.{state_bound, states, label_of, tabled};
ghost use Rattle.model.specs.MachineLaws.{tabled_bounded};
ghost use Rattle.host.specs.Bytes.{label_in, labels_in, table, short_table, fits, machine_in};

use crate::fours::four_at;
use model::{FlagSet, Machine, is_sized};

/// How many bytes a label has.
const LABEL_BYTES: usize = 4;

/// Whether the labels or the steps are too few for `count` states.
pub(crate) fn is_short(count: usize, labels: &[u8], steps: &[u8]) -> bool
    ensures { result ≡ short_table (table count labels.now steps.now) }
{
    labels.len() / LABEL_BYTES < count
        || count.checked_mul(count).is_none_or(|all| steps.len() < all)
}

/// Whether there are from one state to the bound, and the areas are long enough for them.
pub(crate) fn is_fit(count: usize, labels: &[u8], steps: &[u8]) -> bool
    ensures { result ≡ fits (table count labels.now steps.now) }
{
    is_sized(count) && !is_short(count, labels, steps)
}

/// The label that four bytes say.
fn label_in(four: [u8; 4]) -> FlagSet
    ensures { result ≡ label_in four }
{
    FlagSet {
        bits: u32::from_le_bytes(four),
    }
}

/// A table of labels of four bytes and steps of one, borrowed.
#[derive(Drop)]
pub(crate) struct FlagTable<'a> {
    labels: &'a [u8],
    steps: &'a [u8],
    ghost few: { length (labels_in labels.now) ≤ state_bound },
    ghost square: { length steps.now ≡ length (labels_in labels.now) * length (labels_in labels.now) },
}

impl<'a> FlagTable<'a> {
    /// Takes up a table. One that does not fit gives the machine of no states.
    pub(crate) fn new(count: usize, labels: &'a [u8], steps: &'a [u8]) -> FlagTable<'a>
        ensures { tabled (labels_in result.labels.now) result.steps.now ≡ machine_in (table count labels.now steps.now) }
    {
        if !is_fit(count, labels, steps) {
            return FlagTable {
                labels: &labels[0..0],
                steps: &steps[0..0],
            };
        }
        FlagTable {
            labels: &labels[..LABEL_BYTES * count],
            steps: &steps[..count * count],
        }
    }
}

impl<'a> Machine for FlagTable<'a> {
    type Label = FlagSet;

    ghost meaning = { λ m. tabled (labels_in m.labels.now) m.steps.now };

    ghost bounded = { λ m. tabled_bounded (labels_in m.labels.now) m.steps.now m.few };

    #[tactic(auto, using(crate::proofs::ByFour::length_labels))]
    fn count(&self) -> usize
        ensures { result ≡ states (tabled (labels_in self.now.labels.now) self.now.steps.now) }
    {
        self.labels.len() / LABEL_BYTES
    }

    fn label(&self, s: usize) -> Option<FlagSet>
        ensures { result ≡ label_of (tabled (labels_in self.now.labels.now) self.now.steps.now) s }
    {
        four_at(self.labels, s).map(label_in)
    }

    fn has_step(&self, s: usize, t: usize) -> bool
        ensures { result ≡ (tabled (labels_in self.now.labels.now) self.now.steps.now).step s t }
    {
        let n = self.count();
        s < n && t < n && self.steps[s * n + t] != 0
    }
}
