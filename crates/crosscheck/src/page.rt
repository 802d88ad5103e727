//! Sheets with memory of their own, used by their public calls alone.
use crate::fault::Fault;
use model::{Machine, Order, Refusal};
use sheet::{Setting, Sheet, StrikeSlice};
use std::alloc::Global;
use strikes::{Ground, Strike};

/// What a place for a strike holds before any is made.
const BLANK: Strike = Strike {
    first: 0,
    second: 0,
    ground: Ground::ByLabel,
};

/// A sheet and its memory.
#[derive(Drop)]
pub(crate) struct Page {
    sheet: Sheet,
    pairs: Vec<u8>,
    strikes: Vec<Strike>,
}

impl Page {
    /// A sheet that is settled once the pairs of `tries` were tried in turn.
    pub(crate) fn settled<M: Machine, O: Order<Label = M::Label>>(
        heap: Global,
        on: &Setting<M, O>,
        tries: &[(usize, usize)],
    ) -> Result<Page, Fault> {
        let n = on.machine.count();
        let mut pairs = vec![in heap; 0u8; n * n]?;
        let mut strikes = vec![in heap; BLANK; n * n]?;
        let mut memory = StrikeSlice {
            items: &mut strikes,
        };
        let mut sheet = Sheet::begin(on.machine, &mut pairs, &memory)?;
        for (s, t) in tries {
            let _ = sheet.try_pair(on, &mut pairs, &mut memory, *s, *t)?;
        }
        let _ = sheet.settle(on, &mut pairs, &mut memory)?;
        Ok(Page {
            sheet,
            pairs,
            strikes,
        })
    }

    pub(crate) fn below<M: Machine>(
        &self,
        machine: &M,
        s: usize,
        t: usize,
    ) -> Result<bool, Refusal> {
        self.sheet.below(machine, &self.pairs, s, t)
    }

    pub(crate) fn class<M: Machine>(&self, machine: &M, s: usize) -> Result<usize, Refusal> {
        self.sheet.class(machine, &self.pairs, s)
    }

    pub(crate) fn reason<M: Machine>(
        &self,
        machine: &M,
        s: usize,
        t: usize,
    ) -> Result<Strike, Refusal> {
        let records = self.strikes.as_slice();
        self.sheet.reason(machine, &self.pairs, &records, s, t)
    }

    /// The strikes, in the order made.
    pub(crate) fn strikes(&self) -> &[Strike] {
        self.strikes.get(..self.sheet.strikes).unwrap_or_default()
    }
}
