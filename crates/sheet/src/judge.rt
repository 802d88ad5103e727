//! The ground on which a standing pair may be struck. Bytes and no `bool`s say what stands, as lent memory holds them.
ghost use Rattle.std.specs.Prelude.{◌≡◌, ◌<◌, ℕ, false, not, ◌&&◌};
ghost use Rattle.model.specs.Machines.{states, label_of};
ghost use Rattle.strikes.specs.Simulations.{under};
ghost use Rattle.until.specs.Rows.{row_of};
ghost use Rattle.until.specs.Searches.{is_marked, Reached};
ghost use Rattle.sheet.specs.Verdicts.{setting, unanswered, least_unanswered, ground_of};

use crate::setting::Setting;
use model::{Machine, Order, State};
use strikes::Ground;
use until::{Rows, meets, reached};

/// Whether `s` steps to `u`, and none of the ends of walks is marked in the row of `u`.
fn is_unanswered<M: Machine>(machine: &M, rows: Rows, ends: &[bool], s: usize, u: usize) -> bool
    requires { rows.width ≡ states (M.Machine.meaning machine.now) }
    ensures { (t : ℕ) → t < states (M.Machine.meaning machine.now) → Reached (M.Machine.meaning machine.now) (row_of rows.entry.width rows.entry.bytes.now s) t ends.now → result ≡ unanswered (M.Machine.meaning machine.now) rows.entry.bytes.now s t u }
{
    machine.has_step(s, u) && !meets(ends, rows.row(u))
}

/// Whether `s` steps to `u`, and standing still at `t` does not answer.
fn needs_steps<M: Machine>(machine: &M, rows: Rows, s: usize, t: usize, u: usize) -> bool
    ensures { result ≡ (M.Machine.meaning machine.now).step s u && not (is_marked (row_of rows.entry.width rows.entry.bytes.now u) t) }
{
    machine.has_step(s, u) && !rows.is_marked(u, t)
}

/// The least state that `s` steps to and that no walk from `t` answers, which is known not to be below `low`. One search tells of
/// all steps.
fn search_from<M: Machine>(machine: &M, rows: Rows, s: usize, t: usize, low: usize) -> Option<State>
    requires width { rows.width ≡ states (M.Machine.meaning machine.now) }
    requires state { t < states (M.Machine.meaning machine.now) }
    requires passed { (u : ℕ) → u < low → unanswered (M.Machine.meaning machine.now) rows.bytes.now s t u ≡ false }
    ensures { result ≡ least_unanswered (M.Machine.meaning machine.now) rows.entry.bytes.now s t }
{
    let ends = reached(machine, rows.row(s), t);
    (low..rows.width)
        .find(|u| is_unanswered(machine, rows, &ends, s, *u))
        .map(|u| u as State)
}

/// The same where nothing is known. Nothing is searched where standing still answers every step.
fn least_unanswered<M: Machine>(machine: &M, pairs: &[u8], s: usize, t: usize) -> Option<State>
    requires { t < states (M.Machine.meaning machine.now) }
    ensures { result ≡ least_unanswered (M.Machine.meaning machine.now) pairs.now s t }
{
    let n = machine.count();
    let rows = Rows {
        bytes: pairs,
        width: n,
    };
    let low = (0..n).find(|u| needs_steps(machine, rows, s, t, *u))?;
    search_from(machine, rows, s, t, low)
}

impl<'a, M: Machine, O: Order<Label = M::Label>> Setting<'a, M, O> {
    /// Whether the label of `s` is at most that of `t`.
    fn labels_agree(&self, s: usize, t: usize) -> bool
        ensures { result ≡ under (O.Order.relation self.now.order.now) (label_of (M.Machine.meaning self.now.machine.now) s) (label_of (M.Machine.meaning self.now.machine.now) t) }
    {
        let Setting { machine, order } = self;
        machine.label(s).is_none_or(|a| machine.label(t).is_some_and(|b| order.at_most(&a, &b)))
    }

    /// The ground to strike the pair (s, t) on, where it stands: by label, or by the least unanswered step.
    pub(crate) fn ground_of(&self, pairs: &[u8], s: usize, t: usize) -> Option<Ground>
        requires { t < states (M.Machine.meaning self.now.machine.now) }
        ensures { result ≡ ground_of (setting (O.Order.relation self.now.order.now) (M.Machine.meaning self.now.machine.now)) pairs.now s t }
    {
        if !self.labels_agree(s, t) {
            return Some(Ground::ByLabel);
        }
        least_unanswered(self.machine, pairs, s, t).map(Ground::ByStep)
    }
}
