//! The calls on a sheet.
//!
//! Pairs and strikes are two parameters, since three of the calls take no strikes. What numbers a call is given is not
//! yet known to be states, so they are plain numbers.
ghost use Rattle.std.specs.Prelude.{◌≤◌, List, length, IfOk};
ghost use Rattle.model.specs.Machines.{states};
ghost use Rattle.strikes.specs.declared.strike.Strike.{Strike as StrikeRecord};
ghost use Rattle.sheet.specs.declared.request.Request.TheVariants.{Try, Sweep, Settle, Class, Below, Reason, Answer};
ghost use Rattle.sheet.specs.declared.request.Reply.TheVariants.{Tried, Swept, Settled, ClassIs, IsBelow, ReasonIs, Walked};
ghost use Rattle.sheet.specs.Verdicts.{setting};
ghost use Rattle.sheet.specs.Pages.{page};
ghost use Rattle.sheet.specs.Calls.{Begins, Tries, Sweeps, Settles, Classes, Belows, Reasons, Answers};
ghost use Rattle.sheet.specs.Replies.{reply};
ghost use Rattle.sheet.specs.Promises.{Promise, CameUnderAll, PromiseUnderAll};

use crate::lookup::class_of;
use crate::memory::{StrikeMemory, StrikeRecords};
use crate::setting::Setting;
use crate::sheet::Sheet;
use crate::verdict::Verdict;
use crate::walking::write_walk;
use model::{Machine, Order, Refusal, State};
use strikes::Strike;

impl Sheet {
    /// Begins a sheet: every pair stands, and nothing is struck. The strike memory is untouched.
    pub fn begin<M: Machine, S: StrikeRecords>(
        machine: &M,
        pairs: &mut [u8],
        strikes: &S,
    ) -> Result<Sheet, Refusal>
        ensures answer { Begins (states (M.Machine.meaning machine.now)) pairs.old (S.StrikeRecords.records strikes.now) result pairs.new }
        ensures came { IfOk result (λ sheet. CameUnderAll (M.Machine.meaning machine.now) (page sheet pairs.new (S.StrikeRecords.records strikes.now))) }
    {
        let n = machine.count();
        if n == 0 {
            return Err(Refusal::NoStates);
        }
        if pairs.len() < n * n || strikes.room() < n * n {
            return Err(Refusal::ShortMemory);
        }
        pairs[..n * n].fill(1);
        Ok(Sheet {
            count: n,
            strikes: 0,
            settled: false,
        })
    }

    /// Tries the pair (s, t), and strikes it if it stands and has a ground.
    pub fn try_pair<M: Machine, O: Order<Label = M::Label>, S: StrikeMemory>(
        &mut self,
        on: &Setting<M, O>,
        pairs: &mut [u8],
        strikes: &mut S,
        s: usize,
        t: usize,
    ) -> Result<Verdict, Refusal>
        ensures answer { Tries (setting (O.Order.relation on.now.order.now) (M.Machine.meaning on.now.machine.now)) (page self.old pairs.old (S.StrikeRecords.records strikes.old)) s t result (page self.new pairs.new (S.StrikeRecords.records strikes.new)) }
        ensures promise { Promise (setting (O.Order.relation on.now.order.now) (M.Machine.meaning on.now.machine.now)) (page self.old pairs.old (S.StrikeRecords.records strikes.old)) (Try s t) (reply Tried result) (page self.new pairs.new (S.StrikeRecords.records strikes.new)) }
        ensures filled { S.StrikeMemory.filled self.old.strikes self.new.strikes strikes.old strikes.new }
    {
        self.check_page(on.machine, pairs, strikes, &[s, t])?;
        let verdict = on.attempt(pairs, strikes, self.strikes, s, t);
        self.strikes += verdict.strikes();
        Ok(verdict)
    }

    /// Tries the pairs (s, 0), (s, 1), … in turn; answers how many it struck.
    pub fn sweep<M: Machine, O: Order<Label = M::Label>, S: StrikeMemory>(
        &mut self,
        on: &Setting<M, O>,
        pairs: &mut [u8],
        strikes: &mut S,
        s: usize,
    ) -> Result<usize, Refusal>
        ensures answer { Sweeps (setting (O.Order.relation on.now.order.now) (M.Machine.meaning on.now.machine.now)) (page self.old pairs.old (S.StrikeRecords.records strikes.old)) s result (page self.new pairs.new (S.StrikeRecords.records strikes.new)) }
        ensures promise { Promise (setting (O.Order.relation on.now.order.now) (M.Machine.meaning on.now.machine.now)) (page self.old pairs.old (S.StrikeRecords.records strikes.old)) (Sweep s) (reply Swept result) (page self.new pairs.new (S.StrikeRecords.records strikes.new)) }
        ensures filled { S.StrikeMemory.filled self.old.strikes self.new.strikes strikes.old strikes.new }
    {
        self.check_page(on.machine, pairs, strikes, &[s])?;
        let made = on.sweep_row(pairs, strikes, self.strikes, s);
        let struck = made - self.strikes;
        self.strikes = made;
        Ok(struck)
    }

    /// Sweeps all rows, pass after pass, until a whole pass strikes nothing; marks the sheet settled. Answers
    /// how many strikes it made, and the passes taken.
    pub fn settle<M: Machine, O: Order<Label = M::Label>, S: StrikeMemory>(
        &mut self,
        on: &Setting<M, O>,
        pairs: &mut [u8],
        strikes: &mut S,
    ) -> Result<(usize, usize), Refusal>
        ensures answer { Settles (setting (O.Order.relation on.now.order.now) (M.Machine.meaning on.now.machine.now)) (page self.old pairs.old (S.StrikeRecords.records strikes.old)) result (page self.new pairs.new (S.StrikeRecords.records strikes.new)) }
        ensures promise { Promise (setting (O.Order.relation on.now.order.now) (M.Machine.meaning on.now.machine.now)) (page self.old pairs.old (S.StrikeRecords.records strikes.old)) Settle (reply (λ a. Settled a.0 a.1) result) (page self.new pairs.new (S.StrikeRecords.records strikes.new)) }
        ensures filled { S.StrikeMemory.filled self.old.strikes self.new.strikes strikes.old strikes.new }
    {
        self.check_page(on.machine, pairs, strikes, &[])?;
        let (made, passes) = on.strike_all(pairs, strikes, self.strikes);
        let struck = made - self.strikes;
        self.strikes = made;
        self.settled = true;
        Ok((struck, passes))
    }

    /// The smallest state that is `s` or stands both ways with `s`, on a settled sheet.
    pub fn class<M: Machine>(&self, machine: &M, pairs: &[u8], s: usize) -> Result<usize, Refusal>
        ensures answer { Classes (states (M.Machine.meaning machine.now)) self.now pairs.now s result }
        ensures promise { (records : List StrikeRecord) → PromiseUnderAll (M.Machine.meaning machine.now) (page self.now pairs.now records) (Class s) (reply ClassIs result) }
    {
        self.check_settled(machine, pairs, &[s])?;
        Ok(class_of(self.rows(pairs), s))
    }

    /// Whether the pair (s, t) stands, on a settled sheet.
    pub fn below<M: Machine>(
        &self,
        machine: &M,
        pairs: &[u8],
        s: usize,
        t: usize,
    ) -> Result<bool, Refusal>
        ensures answer { Belows (states (M.Machine.meaning machine.now)) self.now pairs.now s t result }
        ensures promise { (records : List StrikeRecord) → PromiseUnderAll (M.Machine.meaning machine.now) (page self.now pairs.now records) (Below s t) (reply IsBelow result) }
    {
        self.check_settled(machine, pairs, &[s, t])?;
        Ok(self.rows(pairs).is_marked(s, t))
    }

    /// The first strike record of the pair (s, t), where it is struck.
    pub fn reason<M: Machine, S: StrikeRecords>(
        &self,
        machine: &M,
        pairs: &[u8],
        strikes: &S,
        s: usize,
        t: usize,
    ) -> Result<Strike, Refusal>
        ensures answer { Reasons (states (M.Machine.meaning machine.now)) (page self.now pairs.now (S.StrikeRecords.records strikes.now)) s t result }
        ensures promise { PromiseUnderAll (M.Machine.meaning machine.now) (page self.now pairs.now (S.StrikeRecords.records strikes.now)) (Reason s t) (reply ReasonIs result) }
    {
        self.check_page(machine, pairs, strikes, &[s, t])?;
        self.record_of(pairs, strikes, s, t)
    }

    /// Writes a walk of the fewest steps that answers the step from `s` to `u` from `t`, one state a place, and
    /// answers how many places it wrote. The rest of the memory is untouched. Which of several is written is left open.
    pub fn answer<M: Machine>(
        &self,
        machine: &M,
        pairs: &[u8],
        s: usize,
        t: usize,
        u: usize,
        walk: &mut [State],
    ) -> Result<usize, Refusal>
        ensures answer { Answers (M.Machine.meaning machine.now) self.now pairs.now s t u walk.old result walk.new }
        ensures promise { (records : List StrikeRecord) → states (M.Machine.meaning machine.now) ≤ length walk.old → PromiseUnderAll (M.Machine.meaning machine.now) (page self.now pairs.now records) (Answer s t u) (reply (λ k. Walked k walk.new) result) }
    {
        if walk.len() < self.count {
            return Err(Refusal::ShortMemory);
        }
        self.check_settled(machine, pairs, &[s, t, u])?;
        write_walk(machine, pairs, s, t, u, walk)
    }
}
