//! Memory lent for reading, for the examples.
use model::{FlagSet, Flags, Span};
use text::{
    LABEL_PLACES, Place, Refused, STEP_PLACES, Side, Spelled, TwoRead, read_machine, read_two,
};

/// A label of a text of two machines.
pub(crate) type Pair = (FlagSet, Span);

pub(crate) const fn pair(bits: u32, low: i16, high: i16) -> Pair {
    (FlagSet { bits }, Span { low, high })
}

/// The memory of a side: a place more than is asked for.
#[derive(Clone, Copy, PartialEq, Eq, Debug)]
pub(crate) struct Lent<L> {
    pub(crate) labels: [L; LABEL_PLACES + 1],
    pub(crate) steps: [u8; STEP_PLACES + 1],
}

impl<L: Copy> Lent<L> {
    /// Memory of this label and of sevens.
    pub(crate) fn of(label: L) -> Self {
        Lent {
            labels: [label; LABEL_PLACES + 1],
            steps: [7; STEP_PLACES + 1],
        }
    }

    /// The same, which begins with these.
    pub(crate) fn with(mut self, labels: &[L], steps: &[u8]) -> Self {
        for (place, label) in self.labels.iter_mut().zip(labels) {
            *place = *label;
        }
        for (place, step) in self.steps.iter_mut().zip(steps) {
            *place = *step;
        }
        self
    }
}

/// Memory before a text of two machines is read.
pub(crate) fn sevens() -> Lent<Pair> {
    Lent::of(pair(7, 7, 7))
}

/// Reads a text of two machines.
pub(crate) fn read(
    text: &[u8],
    left: &mut Lent<Pair>,
    right: &mut Lent<Pair>,
) -> Result<TwoRead, Refused<Place>> {
    read_two(
        text,
        &mut left.labels,
        &mut left.steps,
        &mut right.labels,
        &mut right.steps,
    )
}

/// How a text of two machines is refused: the number of the fault, the side and the line. Nothing where it is read or memory
/// changed.
pub(crate) fn refusal(text: &[u8]) -> Option<(u8, Side, usize)> {
    let mut left = sevens();
    let mut right = sevens();
    let refused = read(text, &mut left, &mut right).err()?;
    let Place { side, line } = refused.place?;
    (left == sevens() && right == sevens()).then_some((refused.fault.into(), side, line))
}

/// Reads a text of a machine alone.
pub(crate) fn read_alone<O: Spelled>(
    order: &O,
    text: &[u8],
    lent: &mut Lent<O::Label>,
) -> Result<usize, Refused<usize>> {
    read_machine(order, text, &mut lent.labels, &mut lent.steps)
}

/// How a text of a machine alone is refused: the number of the fault and the line.
pub(crate) fn refusal_alone(text: &[u8]) -> Option<(u8, usize)> {
    let before = Lent::of(FlagSet { bits: 7 });
    let mut lent = before;
    let refused = read_alone(&Flags {}, text, &mut lent).err()?;
    let line = refused.place?;
    (lent == before).then_some((refused.fault.into(), line))
}
