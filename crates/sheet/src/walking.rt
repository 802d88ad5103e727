//! Walks that answer a step.
ghost use Rattle.std.specs.Prelude.{◌<◌, ◌≤◌, length};
ghost use Rattle.model.specs.Machines.{states};
ghost use Rattle.sheet.specs.Calls.{WritesWalk};

use model::{Machine, Refusal, State};
use until::{Rows, shortest_walk};

/// Writes a shortest walk from `t` that answers the step from `s` to `u`, and answers how many states it has.
pub(crate) fn write_walk<M: Machine>(
    machine: &M,
    pairs: &[u8],
    s: usize,
    t: usize,
    u: usize,
    walk: &mut [State],
) -> Result<usize, Refusal>
    requires state { t < states (M.Machine.meaning machine.now) }
    requires places { states (M.Machine.meaning machine.now) ≤ length walk.old }
    ensures { WritesWalk (M.Machine.meaning machine.now) pairs.now s t u walk.old result walk.new }
{
    let rows = Rows {
        bytes: pairs,
        width: machine.count(),
    };
    if !rows.is_marked(s, t) {
        return Err(Refusal::OtherPair);
    }
    if !machine.has_step(s, u) {
        return Err(Refusal::NoSuchStep);
    }
    shortest_walk(machine, rows.row(s), rows.row(u), t, walk)?.ok_or(Refusal::NoSuchStep)
}
