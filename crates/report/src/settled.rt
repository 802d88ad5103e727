//! Sheets that are settled, with memory of their own.
ghost use Rattle.std.specs.Prelude.{◌≡◌, ◌*◌, ◌<◌, length, IfOk};
ghost use Rattle.model.specs.Machines.{states};
ghost use Rattle.sheet.specs.Verdicts.{setting};
ghost use Rattle.sheet.specs.Pages.{page};
ghost use Rattle.report.specs.Settled.{begun, IsSettled, page_of, class_on, is_below, strikes_on};

use model::{Machine, Order};
use sheet::{Setting, Sheet, StrikeSlice};
use std::alloc::{AllocError, Global};
use strikes::{Ground, Strike};

/// What a place for a strike holds before any is made.
const BLANK: Strike = Strike {
    first: 0,
    second: 0,
    ground: Ground::ByLabel,
};

/// Settles a new sheet in memory that is just long enough.
fn settle<M: Machine, O: Order<Label = M::Label>>(
    on: &Setting<M, O>,
    pairs: &mut [u8],
    strikes: &mut [Strike],
) -> Sheet
    requires some { 0 < states (M.Machine.meaning on.now.machine.now) }
    requires pairs { length pairs.old ≡ states (M.Machine.meaning on.now.machine.now) * states (M.Machine.meaning on.now.machine.now) }
    requires strikes { strikes.old ≡ (begun (states (M.Machine.meaning on.now.machine.now))).records }
    ensures { IsSettled (setting (O.Order.relation on.now.order.now) (M.Machine.meaning on.now.machine.now)) (page result pairs.new strikes.new) }
{
    let mut strikes = StrikeSlice { items: strikes };
    let mut sheet = Sheet::begin(on.machine, pairs, &strikes).unwrap();
    let _ = sheet.settle(on, pairs, &mut strikes).unwrap();
    sheet
}

/// A settled sheet and its memory.
#[derive(Drop)]
pub(crate) struct Settled {
    sheet: Sheet,
    pairs: Vec<u8>,
    strikes: Vec<Strike>,
}

impl Settled {
    /// Strikes every pair of a machine's states that has a ground.
    pub(crate) fn new<M: Machine, O: Order<Label = M::Label>>(
        heap: Global,
        on: &Setting<M, O>,
    ) -> Result<Settled, AllocError>
        requires { 0 < states (M.Machine.meaning on.now.machine.now) }
        ensures { IfOk result (λ s. IsSettled (setting (O.Order.relation on.now.order.now) (M.Machine.meaning on.now.machine.now)) (page_of s)) }
    {
        let n = on.machine.count();
        let mut pairs = vec![in heap; 0u8; n * n]?;
        let mut strikes = vec![in heap; BLANK; n * n]?;
        let sheet = settle(on, &mut pairs, &mut strikes);
        Ok(Settled {
            sheet,
            pairs,
            strikes,
        })
    }

    /// The least state that is the same as `s`.
    pub(crate) fn class<M: Machine, O: Order<Label = M::Label>>(
        &self,
        on: &Setting<M, O>,
        s: usize,
    ) -> usize
        requires settled { IsSettled (setting (O.Order.relation on.now.order.now) (M.Machine.meaning on.now.machine.now)) (page_of self.now) }
        requires state { s < states (M.Machine.meaning on.now.machine.now) }
        ensures { result ≡ class_on (setting (O.Order.relation on.now.order.now) (M.Machine.meaning on.now.machine.now)) s }
    {
        self.sheet.class(on.machine, &self.pairs, s).unwrap()
    }

    /// Whether every formula that holds at `s` holds at `t`.
    pub(crate) fn is_below<M: Machine, O: Order<Label = M::Label>>(
        &self,
        on: &Setting<M, O>,
        s: usize,
        t: usize,
    ) -> bool
        requires settled { IsSettled (setting (O.Order.relation on.now.order.now) (M.Machine.meaning on.now.machine.now)) (page_of self.now) }
        requires first { s < states (M.Machine.meaning on.now.machine.now) }
        requires second { t < states (M.Machine.meaning on.now.machine.now) }
        ensures { result ≡ is_below (setting (O.Order.relation on.now.order.now) (M.Machine.meaning on.now.machine.now)) s t }
    {
        self.sheet.below(on.machine, &self.pairs, s, t).unwrap()
    }

    /// The strikes, in the order made.
    pub(crate) fn strikes<M: Machine, O: Order<Label = M::Label>>(
        &self,
        on: &Setting<M, O>,
    ) -> &[Strike]
        requires { IsSettled (setting (O.Order.relation on.now.order.now) (M.Machine.meaning on.now.machine.now)) (page_of self.now) }
        ensures { result.now ≡ strikes_on (setting (O.Order.relation on.now.order.now) (M.Machine.meaning on.now.machine.now)) }
    {
        &self.strikes[..self.sheet.strikes]
    }
}
