//! Memory lent for a side of a text.
ghost use Rattle.std.specs.Prelude.{◌≡◌, ◌≤◌, length, replicate};
ghost use Rattle.model.specs.Memory.{over};
ghost use Rattle.text.specs.Rows.{label_places, step_places};
ghost use Rattle.text.specs.InOrder.{Storable};
ghost use Rattle.text.specs.Readings.{is_short};
ghost use Rattle.text.specs.Filling.{held, with_row, Keeps};

use crate::row::{Form, Row};
use model::STATE_BOUND;

/// The labels for which a side lends memory.
pub const LABEL_PLACES: usize = STATE_BOUND;

/// The step bytes for which a side lends memory.
pub const STEP_PLACES: usize = STATE_BOUND * STATE_BOUND;

/// A place for each label of a side, and a byte for each pair of its states.
#[derive(Drop)]
pub(crate) struct Lent<'a, L> {
    pub(crate) labels: &'a mut [L],
    pub(crate) steps: &'a mut [u8],
}

/// Clears the first bytes.
fn clear(steps: &mut [u8], count: usize)
    requires { count ≤ length steps.old }
    ensures { steps.new ≡ over (replicate count 0) steps.old }
{
    steps[..count].fill(0);
}

impl<L: Copy> Lent<'_, L> {
    /// Whether a side may need more.
    pub(crate) fn is_short(&self) -> bool
        ensures { result ≡ is_short (held self.now) }
    {
        self.labels.len() < LABEL_PLACES || self.steps.len() < STEP_PLACES
    }

    /// Stores what a row says.
    pub(crate) fn store(&mut self, row: Row<L>)
        requires row { Storable row }
        requires labels { label_places ≤ length self.old.labels.now }
        requires steps { step_places ≤ length self.old.steps.now }
        ensures { Keeps self.old (with_row row (held self.old)) self.new }
    {
        match row {
            Row::Header(Form::Machine, count) => clear(self.steps, count * count),
            Row::Header(Form::Trace, _) => {}
            Row::Label(s, label) => self.labels[s] = label,
            Row::Step(place) => self.steps[place] = 1,
        }
    }
}
