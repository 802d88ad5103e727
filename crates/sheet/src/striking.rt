//! Tries, sweeps and passes over memory that is known to fit.
//!
//! Loops and no folds: each turn strikes lent memory, and a closure that does so needs an invariant of what it captures,
//! which is longer than the loop's. Pairs, strikes and how many are made stay parameters, and all but `attempt` ask that they
//! are ready: a struct that lends `&mut` memory has to say in each contract that it lends the same memory still. What is lent
//! is longer than what is used. Clauses write `setting` out: a definition for it would be one more to read, and would still be
//! given the members of both traits.
ghost use Rattle.std.specs.Prelude.{◌≡◌, ◌+◌, ◌*◌, ◌<◌, ◌≤◌, length};
ghost use Rattle.model.specs.Machines.{states};
ghost use Rattle.sheet.specs.Memory.{memory as held, Ready};
ghost use Rattle.sheet.specs.Verdicts.{setting, verdict_of, strikes_in, tried, swept, passed, settled};

use crate::memory::StrikeMemory;
use crate::setting::Setting;
use crate::verdict::Verdict;
use model::{Machine, Order, State};
use strikes::Strike;

impl<'a, M: Machine, O: Order<Label = M::Label>> Setting<'a, M, O> {
    /// Tries the pair (s, t), and strikes it if it stands and has a ground.
    pub(crate) fn attempt<S: StrikeMemory>(
        &self,
        pairs: &mut [u8],
        strikes: &mut S,
        made: usize,
        s: usize,
        t: usize,
    ) -> Verdict
        requires first { s < states (M.Machine.meaning self.now.machine.now) }
        requires second { t < states (M.Machine.meaning self.now.machine.now) }
        requires room { states (M.Machine.meaning self.now.machine.now) * states (M.Machine.meaning self.now.machine.now) ≤ length pairs.old }
        ensures verdict { result ≡ verdict_of (setting (O.Order.relation self.now.order.now) (M.Machine.meaning self.now.machine.now)) pairs.old s t }
        ensures after { held pairs.new (S.StrikeRecords.records strikes.new) (made + strikes_in result) ≡ tried (setting (O.Order.relation self.now.order.now) (M.Machine.meaning self.now.machine.now)) (held pairs.old (S.StrikeRecords.records strikes.old) made) s t }
        ensures filled { S.StrikeMemory.filled made (made + strikes_in result) strikes.old strikes.new }
    {
        let n = self.machine.count();
        // The byte by its place in lent memory, where it is written below.
        if pairs[s * n + t] == 0 {
            return Verdict::StaysStruck;
        }
        let Some(ground) = self.ground_of(pairs, s, t) else {
            return Verdict::Stays;
        };
        let strike = Strike {
            first: s as State,
            second: t as State,
            ground,
        };
        pairs[s * n + t] = 0;
        strikes.write(made, strike);
        Verdict::Struck(strike)
    }

    /// Tries the pairs of row `s` in turn; answers how many strikes there are then.
    pub(crate) fn sweep_row<S: StrikeMemory>(
        &self,
        pairs: &mut [u8],
        strikes: &mut S,
        made: usize,
        s: usize,
    ) -> usize
        requires first { s < states (M.Machine.meaning self.now.machine.now) }
        requires ready { Ready (states (M.Machine.meaning self.now.machine.now)) (held pairs.old (S.StrikeRecords.records strikes.old) made) }
        ensures after { held pairs.new (S.StrikeRecords.records strikes.new) result ≡ swept (setting (O.Order.relation self.now.order.now) (M.Machine.meaning self.now.machine.now)) (held pairs.old (S.StrikeRecords.records strikes.old) made) s (states (M.Machine.meaning self.now.machine.now)) }
        ensures filled { S.StrikeMemory.filled made result strikes.old strikes.new }
    {
        let mut done = made;
        for t in 0..self.machine.count() {
            done += self.attempt(pairs, strikes, done, s, t).strikes();
        }
        done
    }

    /// Sweeps every row once; answers how many strikes there are then.
    fn pass<S: StrikeMemory>(&self, pairs: &mut [u8], strikes: &mut S, made: usize) -> usize
        requires { Ready (states (M.Machine.meaning self.now.machine.now)) (held pairs.old (S.StrikeRecords.records strikes.old) made) }
        ensures after { held pairs.new (S.StrikeRecords.records strikes.new) result ≡ passed (setting (O.Order.relation self.now.order.now) (M.Machine.meaning self.now.machine.now)) (held pairs.old (S.StrikeRecords.records strikes.old) made) (states (M.Machine.meaning self.now.machine.now)) }
        ensures filled { S.StrikeMemory.filled made result strikes.old strikes.new }
    {
        let mut done = made;
        for s in 0..self.machine.count() {
            done = self.sweep_row(pairs, strikes, done, s);
        }
        done
    }

    /// Passes until one strikes nothing, which is not known before; answers how many strikes there are then, and the passes
    /// taken.
    pub(crate) fn strike_all<S: StrikeMemory>(
        &self,
        pairs: &mut [u8],
        strikes: &mut S,
        made: usize,
    ) -> (usize, usize)
        requires { Ready (states (M.Machine.meaning self.now.machine.now)) (held pairs.old (S.StrikeRecords.records strikes.old) made) }
        ensures after { (held pairs.new (S.StrikeRecords.records strikes.new) result.0, result.1) ≡ settled (setting (O.Order.relation self.now.order.now) (M.Machine.meaning self.now.machine.now)) (held pairs.old (S.StrikeRecords.records strikes.old) made) }
        ensures filled { S.StrikeMemory.filled made result.0 strikes.old strikes.new }
    {
        let mut done = made;
        let mut passes = 0;
        loop {
            let next = self.pass(pairs, strikes, done);
            passes += 1;
            if next == done {
                return (done, passes);
            }
            done = next;
        }
    }
}
