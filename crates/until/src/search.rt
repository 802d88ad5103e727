//! The one search for walks: breadth first, over any machine and any row of bytes. Arrays of the bound and a vector in
//! place hold what it keeps, since no call allocates.
ghost use Rattle.std.specs.Prelude.{◌≡◌, ◌<◌, ◌≤◌, Decides};
ghost use Rattle.model.specs.Machines.{states, state_bound};
ghost use Rattle.until.specs.Searches.{is_marked, Marked, WalkFromState, walk_exists, Reached, Meets, SearchAnswers};
ghost use Rattle.until.specs.Explored.{visit, Explores, Chosen};

use arrayvec::ArrayVec;
use model::{Machine, Refusal, STATE_BOUND, State};
use std::array;

/// How the search came to a state: the fewest steps to it, and the state before it on a walk of so few.
/// Before the start stands the start itself.
#[derive(Clone, Copy)]
struct Visit {
    steps: usize,
    before: usize,
}

/// Whether the byte of `u` is not zero. A number past the row is not marked.
pub fn marked(row: &[u8], u: usize) -> bool
    ensures { result ≡ is_marked row.now u }
{
    row.get(u).is_some_and(|byte| *byte != 0)
}

/// Searches from `start`, and goes on from the marked states only. What is not reached has no visit, and
/// a start that is no state reaches nothing.
fn explore<M: Machine>(machine: &M, row: &[u8], start: usize) -> [Option<Visit>; STATE_BOUND]
    ensures { Explores (M.Machine.meaning machine.now) row.now start result }
{
    let n = machine.count();
    let mut found = [None; STATE_BOUND];
    if start >= n {
        return found;
    }
    let mut queue: ArrayVec<usize, STATE_BOUND> = ArrayVec::new();
    found[start] = Some(Visit {
        steps: 0,
        before: start,
    });
    queue.push(start);
    // By its place, since the queue grows while it is read. The states by their numbers, as the machine is asked; they may
    // be fewer than the places of `found`. Once all of them are found, nothing is left to look for.
    let mut head = 0;
    while queue.len() < n
        && let Some(s) = queue.get(head).copied()
    {
        if marked(row, s) {
            let next = Visit {
                steps: found[s].unwrap().steps + 1,
                before: s,
            };
            for t in 0..n {
                if found[t].is_none() && machine.has_step(s, t) {
                    found[t] = Some(next);
                    queue.push(t);
                }
            }
        }
        head += 1;
    }
    found
}

/// The states that a walk from `start` reaches, whose states before the last are all marked in `row`.
/// A start that is no state reaches nothing.
pub fn reached<M: Machine>(machine: &M, row: &[u8], start: usize) -> [bool; STATE_BOUND]
    ensures { Reached (M.Machine.meaning machine.now) row.now start result }
{
    if start >= machine.count() {
        return [false; STATE_BOUND];
    }
    let found = explore(machine, row, start);
    array::from_fn(|u| found[u].is_some())
}

/// Whether some state that `ends` says yes of, as `reached` answers it, is marked in `goal`.
pub fn meets(ends: &[bool], goal: &[u8]) -> bool
    ensures { Decides result (Meets ends.now goal.now) }
{
    ends.iter()
        .zip(goal)
        .any(|(is_end, byte)| *is_end && *byte != 0)
}

/// Whether some walk from `start` ends at a state marked in `goal`, with all states before it marked in `row`.
pub fn walk_exists<M: Machine>(machine: &M, row: &[u8], goal: &[u8], start: usize) -> bool
    ensures means { Decides result (WalkFromState (M.Machine.meaning machine.now) row.now (Marked goal.now) start) }
    ensures test { result ≡ walk_exists (M.Machine.meaning machine.now) row.now goal.now start }
{
    meets(&reached(machine, row, start), goal)
}

/// The nearest state that is marked in `goal`, if any is reached, and its steps. A loop, since no contract says what a filter
/// before `min_by_key` leaves out.
fn nearest(found: &[Option<Visit>; STATE_BOUND], goal: &[u8]) -> Option<(usize, usize)>
    ensures { Chosen (Marked goal.now) (visit found.now) result }
{
    let mut best = None;
    // Past the bytes of the goal nothing is marked.
    let end = goal.len().min(STATE_BOUND);
    for (u, visit) in found[..end].iter().enumerate() {
        if let Some(visit) = visit
            && marked(goal, u)
            && best.is_none_or(|(_, steps)| visit.steps < steps)
        {
            best = Some((u, visit.steps));
        }
    }
    best
}

/// Writes the states of a walk of the fewest steps from `start` to a state marked in `goal`, whose
/// states before the last are all marked in `row`, and answers how many states it wrote; nothing where
/// there is no such walk. Memory with less than a place for each state is refused. The rest of the
/// memory is untouched. Which of several shortest walks is written is left open.
pub fn shortest_walk<M: Machine>(
    machine: &M,
    row: &[u8],
    goal: &[u8],
    start: usize,
    walk: &mut [State],
) -> Result<Option<usize>, Refusal>
    ensures { SearchAnswers (M.Machine.meaning machine.now) row.now goal.now start walk.old result walk.new }
{
    let n = machine.count();
    if walk.len() < n {
        return Err(Refusal::ShortMemory);
    }
    if start >= n {
        return Ok(None);
    }
    let found = explore(machine, row, start);
    let Some((last, steps)) = nearest(&found, goal) else {
        return Ok(None);
    };
    let mut at = last;
    // By place, since nothing is known of the writes of `iter_mut().rev()`.
    for place in (0..=steps).rev() {
        walk[place] = at as State;
        at = found[at].unwrap().before;
    }
    Ok(Some(steps + 1))
}
