//! Relations between the states of a machine.
ghost use Rattle.std.specs.Prelude.{◌≤◌};

use crate::backward::{contains, leading};
use model::{Machine, Order};
use std::alloc::{AllocError, Global};

/// For each state, the set of states that may stand in for it, as a mark for each.
#[derive(Drop, PartialEq, Eq, Debug)]
pub struct Relation {
    rows: Vec<Vec<bool>>,
}

impl Relation {
    /// The largest relation that relates s to t only where the label of s is at most that of t, and each step of s, to u, is
    /// answered from t: some walk from t has states to which s is related before its last, and one to which u is at its last.
    pub fn largest<M: Machine, O: Order<Label = M::Label>>(
        heap: Global,
        machine: &M,
        order: &O,
    ) -> Result<Relation, AllocError> {
        let n = machine.count();
        let mut relation = Relation::by_labels(heap, machine, order)?;
        // Every round but the last takes a pair away.
        for _ in 0..n * n {
            let narrowed = relation.narrowed(heap, machine)?;
            if narrowed == relation {
                break;
            }
            relation = narrowed;
        }
        Ok(relation)
    }

    /// Whether `t` may stand in for `s`.
    pub fn relates(&self, s: usize, t: usize) -> bool {
        contains(self.row(s), t)
    }

    /// The least state that may stand in for `s`, and `s` for it.
    pub fn class(&self, s: usize) -> usize
        ensures { result ≤ s }
    {
        (0..s)
            .find(|t| self.relates(s, *t) && self.relates(*t, s))
            .unwrap_or(s)
    }

    /// The states that may stand in for `s`; none where it is no state.
    fn row(&self, s: usize) -> &[bool] {
        self.rows.get(s).map(Vec::as_slice).unwrap_or_default()
    }

    /// Relates each state to those of which its label is at most theirs.
    fn by_labels<M: Machine, O: Order<Label = M::Label>>(
        heap: Global,
        machine: &M,
        order: &O,
    ) -> Result<Relation, AllocError> {
        let n = machine.count();
        let mut rows = Vec::new(heap);
        for s in 0..n {
            rows.push(
                (0..n)
                    .map(|t| label_at_most(machine, order, s, t))
                    .collect(heap)?,
            )?;
        }
        Ok(Relation { rows })
    }

    /// Keeps of each row the states that answer every step of the row's state, as the rows stand.
    fn narrowed<M: Machine>(&self, heap: Global, machine: &M) -> Result<Relation, AllocError> {
        let mut rows = Vec::new(heap);
        for s in 0..machine.count() {
            rows.push(self.narrowed_row(heap, machine, s)?)?;
        }
        Ok(Relation { rows })
    }

    fn narrowed_row<M: Machine>(
        &self,
        heap: Global,
        machine: &M,
        s: usize,
    ) -> Result<Vec<bool>, AllocError> {
        let mut row = self.row(s).to_vec(heap)?;
        for u in 0..machine.count() {
            if machine.has_step(s, u) {
                let answering = leading(heap, machine, self.row(s), self.row(u))?;
                for (stays, answers) in row.iter_mut().zip(&answering) {
                    *stays = *stays && *answers;
                }
            }
        }
        Ok(row)
    }
}

/// Whether the label of `s` is at most that of `t`.
fn label_at_most<M: Machine, O: Order<Label = M::Label>>(
    machine: &M,
    order: &O,
    s: usize,
    t: usize,
) -> bool {
    machine
        .label(s)
        .zip(machine.label(t))
        .is_some_and(|(a, b)| order.at_most(&a, &b))
}
