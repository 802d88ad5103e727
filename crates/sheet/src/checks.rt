//! The checks that a call makes before it does anything.
ghost use Rattle.std.specs.Prelude.{◌≡◌, ◌*◌, ◌≤◌, length, nat_lt};
ghost use Rattle.model.specs.Machines.{states};
ghost use Rattle.model.specs.Refusals.{Passes};
ghost use Rattle.sheet.specs.Memory.{standing};
ghost use Rattle.sheet.specs.Pages.{page, unlike};
ghost use Rattle.sheet.specs.Causes.{any_outside, sheet_tests, page_tests, settled_tests};

use crate::memory::StrikeRecords;
use crate::sheet::Sheet;
use model::{Machine, Refusal};

impl Sheet {
    /// Whether `len` places are fewer than there are pairs of states.
    pub(crate) fn is_short(&self, len: usize) -> bool
        ensures { result ≡ nat_lt len (self.now.count * self.now.count) }
    {
        self.count
            .checked_mul(self.count)
            .is_none_or(|all| len < all)
    }

    /// Whether one of the numbers is no state.
    fn is_any_outside(&self, numbers: &[usize]) -> bool
        ensures { result ≡ any_outside self.now numbers.now }
    {
        numbers.iter().any(|s| *s >= self.count)
    }

    /// Whether the sheet is not the machine's, or its strikes and the standing pairs do not add up.
    fn is_unlike<M: Machine>(&self, machine: &M, pairs: &[u8]) -> bool
        requires { self.now.count * self.now.count ≤ length pairs.now }
        ensures { result ≡ unlike (states (M.Machine.meaning machine.now)) self.now pairs.now }
    {
        let n = machine.count();
        let all = n * n;
        self.count == 0 || self.count != n || self.strikes != all - count_standing(&pairs[..all])
    }

    /// Refuses short pair memory, then a number that is no state, then a sheet of another count or that
    /// does not add up.
    #[tactic(auto, using(crate::proofs::Causes::numbers_cause))]
    fn check<M: Machine>(&self, machine: &M, pairs: &[u8], numbers: &[usize]) -> Result<(), Refusal>
        ensures { Passes (sheet_tests (states (M.Machine.meaning machine.now)) self.now pairs.now numbers.now) result }
    {
        if self.is_short(pairs.len()) {
            return Err(Refusal::ShortMemory);
        }
        if self.is_any_outside(numbers) {
            return Err(Refusal::NoSuchState);
        }
        if self.is_unlike(machine, pairs) {
            return Err(Refusal::OtherSheet);
        }
        Ok(())
    }

    /// The same, and refuses short strike memory.
    pub(crate) fn check_page<M: Machine, S: StrikeRecords>(
        &self,
        machine: &M,
        pairs: &[u8],
        strikes: &S,
        numbers: &[usize],
    ) -> Result<(), Refusal>
        ensures { Passes (page_tests (states (M.Machine.meaning machine.now)) (page self.now pairs.now (S.StrikeRecords.records strikes.now)) numbers.now) result }
    {
        if self.is_short(strikes.room()) {
            return Err(Refusal::ShortMemory);
        }
        self.check(machine, pairs, numbers)
    }

    /// The same without strike memory, and refuses a sheet that is not settled.
    #[tactic(auto, using(crate::proofs::Causes::cause_append))]
    pub(crate) fn check_settled<M: Machine>(
        &self,
        machine: &M,
        pairs: &[u8],
        numbers: &[usize],
    ) -> Result<(), Refusal>
        ensures { Passes (settled_tests (states (M.Machine.meaning machine.now)) self.now pairs.now numbers.now) result }
    {
        self.check(machine, pairs, numbers)?;
        if !self.settled {
            return Err(Refusal::NotSettled);
        }
        Ok(())
    }
}

/// How many of the pairs stand. A loop, since `filter` with `count` branches at each byte: with it `below` took up to
/// twice as long.
fn count_standing(pairs: &[u8]) -> usize
    ensures counted { result ≡ standing (length pairs.now) pairs.now }
    ensures most { result ≤ length pairs.now }
{
    let mut sum = 0;
    for byte in pairs {
        if *byte != 0 {
            sum += 1;
        }
    }
    sum
}
