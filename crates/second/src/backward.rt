//! The search for walks from their ends.
ghost use Rattle.std.specs.Prelude.{◌≡◌, false, length, vec_len, slice_index_or, IfOk};

use model::Machine;
use std::alloc::{AllocError, Global};

/// Whether a state is in a set of states, as a mark for each.
pub(crate) fn contains(set: &[bool], s: usize) -> bool
    ensures { result ≡ slice_index_or set.now s false }
{
    set.get(s).copied().unwrap_or_default()
}

/// The states from which some walk leads into `goal`, with every state before its last in `through`.
pub(crate) fn leading<M: Machine>(
    heap: Global,
    machine: &M,
    through: &[bool],
    goal: &[bool],
) -> Result<Vec<bool>, AllocError>
    ensures { IfOk result (λ found. vec_len found ≡ length goal.now) }
{
    let n = machine.count();
    let mut found = goal.to_vec(heap)?;
    let mut queue: Vec<usize> = (0..n).filter(|u| contains(goal, *u)).collect(heap)?;
    // By its place, since the queue grows while it is read; a state enters it once.
    for place in 0..n {
        let Some(u) = queue.get(place).copied() else {
            break;
        };
        for (t, is_found) in found.iter_mut().enumerate() {
            if !*is_found && contains(through, t) && machine.has_step(t, u) {
                *is_found = true;
                queue.push(t)?;
            }
        }
    }
    Ok(found)
}
