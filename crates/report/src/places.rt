//! Memory for what is read of a text.
ghost use Rattle.std.specs.Prelude.{◌≡◌, ◌≤◌, IfOk};
ghost use Rattle.model.specs.Machines.{tabled, traced, state_bound};
ghost use Rattle.text.specs.declared.row.Form.TheVariants.{Machine as MachineForm, Trace as TraceForm};
ghost use Rattle.report.specs.Sides.{HasRoom, first_states};

use model::{FlagSet, Span, Table, Trace};
use std::alloc::{AllocError, Global};
use text::{LABEL_PLACES, STEP_PLACES};

/// A label of a text.
pub(crate) type Label = (FlagSet, Span);

/// What a place for a label holds before a text is read.
const BLANK: Label = (FlagSet { bits: 0 }, Span { low: 0, high: 0 });

/// Places for the labels and the step bytes of a side.
#[derive(Drop)]
pub(crate) struct Places {
    pub(crate) labels: Vec<Label>,
    pub(crate) steps: Vec<u8>,
}

impl Places {
    pub(crate) fn new(heap: Global) -> Result<Places, AllocError>
        ensures { IfOk result HasRoom }
    {
        Ok(Places {
            labels: vec![in heap; BLANK; LABEL_PLACES]?,
            steps: vec![in heap; 0u8; STEP_PLACES]?,
        })
    }

    /// The machine of the first `n` states.
    pub(crate) fn table(&self, n: usize) -> Table<'_, Label>
        requires states { n ≤ state_bound }
        requires room { HasRoom self.now }
        ensures { tabled result.labels.now result.steps.now ≡ first_states MachineForm n self.now }
    {
        Table::new(&self.labels[..n], &self.steps[..n * n])
    }

    /// The trace of the first `n` states.
    pub(crate) fn trace(&self, n: usize) -> Trace<'_, Label>
        requires states { n ≤ state_bound }
        requires room { HasRoom self.now }
        ensures { traced result.labels.now ≡ first_states TraceForm n self.now }
    {
        Trace::new(&self.labels[..n])
    }
}
