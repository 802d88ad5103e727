//! Runs: a list of requests, made in turn on one sheet.
ghost use Rattle.std.specs.Prelude.{IfOk, length, take};
ghost use Rattle.sheet.specs.Verdicts.{setting};
ghost use Rattle.sheet.specs.Pages.{page};
ghost use Rattle.sheet.specs.Replies.{Walks, RepliesInto};
ghost use Rattle.sheet.specs.Law.{Law};
ghost use Rattle.sheet.specs.Runs.{Runs, blank_walk, strikes_after};

use crate::memory::StrikeMemory;
use crate::request::{Reply, Request};
use crate::setting::Setting;
use crate::sheet::Sheet;
use model::{Machine, Order, Refusal, STATE_BOUND};

impl Sheet {
    /// Answers into memory of its own, an array as the reply holds it, and names the good answer.
    fn walk<M: Machine>(
        &self,
        machine: &M,
        pairs: &[u8],
        s: usize,
        t: usize,
        u: usize,
    ) -> Result<Reply, Refusal>
        ensures { Walks (M.Machine.meaning machine.now) blank_walk self.now pairs.now s t u result }
    {
        let mut states = [0; STATE_BOUND];
        self.answer(machine, pairs, s, t, u, &mut states)
            .map(|places| Reply::Walked { places, states })
    }

    /// Makes the call of a request, and names its good answer. It is matched, since the
    /// law over runs speaks of requests as data.
    fn make<M: Machine, O: Order<Label = M::Label>, S: StrikeMemory>(
        &mut self,
        on: &Setting<M, O>,
        pairs: &mut [u8],
        strikes: &mut S,
        request: Request,
    ) -> Result<Reply, Refusal>
        ensures answer { RepliesInto (setting (O.Order.relation on.now.order.now) (M.Machine.meaning on.now.machine.now)) blank_walk (page self.old pairs.old (S.StrikeRecords.records strikes.old)) request result (page self.new pairs.new (S.StrikeRecords.records strikes.new)) }
        ensures filled { S.StrikeMemory.filled self.old.strikes self.new.strikes strikes.old strikes.new }
    {
        match request {
            Request::Try(s, t) => { self.try_pair(on, pairs, strikes, s, t).map(Reply::Tried) }
            Request::Sweep(s) => self.sweep(on, pairs, strikes, s).map(Reply::Swept),
            Request::Settle => {
                let (struck, passes) = self.settle(on, pairs, strikes)?;
                Ok(Reply::Settled(struck, passes))
            }
            Request::Class(s) => self.class(on.machine, pairs, s).map(Reply::ClassIs),
            Request::Below(s, t) => self.below(on.machine, pairs, s, t).map(Reply::IsBelow),
            Request::Reason(s, t) => {
                self.reason(on.machine, pairs, strikes, s, t)
                    .map(Reply::ReasonIs)
            }
            Request::Answer(s, t, u) => self.walk(on.machine, pairs, s, t, u),
        }
    }
}

/// Begins a sheet, makes the calls of all requests on it in turn, and writes every reply in its place. The
/// rest of the reply memory is untouched.
pub fn run_requests<M: Machine, O: Order<Label = M::Label>, S: StrikeMemory>(
    on: &Setting<M, O>,
    pairs: &mut [u8],
    strikes: &mut S,
    requests: &[Request],
    replies: &mut [Result<Reply, Refusal>],
) -> Result<Sheet, Refusal>
    ensures answer { Runs (setting (O.Order.relation on.now.order.now) (M.Machine.meaning on.now.machine.now)) pairs.old (S.StrikeRecords.records strikes.old) requests.now replies.old result pairs.new (S.StrikeRecords.records strikes.new) replies.new }
    ensures law { IfOk result (λ sheet. Law (setting (O.Order.relation on.now.order.now) (M.Machine.meaning on.now.machine.now)) (page sheet pairs.new (S.StrikeRecords.records strikes.new)) requests.now (take (length requests.now) replies.new)) }
    ensures filled { S.StrikeMemory.filled 0 (strikes_after result) strikes.old strikes.new }
{
    if on.machine.count() == 0 {
        return Err(Refusal::NoStates);
    }
    if replies.len() < requests.len() {
        return Err(Refusal::ShortMemory);
    }
    let mut sheet = Sheet::begin(on.machine, pairs, strikes)?;
    // By place, since nothing is known of the writes of `zip` with `iter_mut`.
    for (k, request) in requests.iter().enumerate() {
        replies[k] = sheet.make(on, pairs, strikes, *request);
    }
    Ok(sheet)
}
