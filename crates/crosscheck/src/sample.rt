//! Machines made by choices.
ghost use Rattle.std.specs.Prelude.{◌<◌, ◌≤◌};

use crate::choices::Choices;
use model::{FlagSet, Table};
use std::alloc::{AllocError, Global};
use std::fmt;

/// One flag.
const ONE: FlagSet = FlagSet { bits: 1 };

/// Both flags: `ONE` and `OTHER` are within it.
const BOTH: FlagSet = FlagSet { bits: 3 };

/// The other flag.
const OTHER: FlagSet = FlagSet { bits: 2 };

/// The labels of two kinds are the first two.
const LABELS: [FlagSet; 3] = [ONE, BOTH, OTHER];

/// The labels of a machine for which the second comparer takes more rounds than there are states, under `Turned`.
const SLOW_LABELS: [FlagSet; 6] = [BOTH, OTHER, OTHER, BOTH, BOTH, ONE];

/// Its steps.
#[rattlefmt::skip]
const SLOW_STEPS: [u8; 36] = [
    1, 0, 1, 1, 0, 0,
    0, 1, 0, 0, 0, 0,
    1, 0, 0, 0, 0, 0,
    1, 0, 0, 1, 1, 0,
    0, 1, 0, 1, 0, 1,
    0, 1, 0, 0, 0, 1,
];

/// What machines are made: how many states, of how many kinds of labels, and with one step of so many.
#[derive(Drop)]
pub(crate) struct Shape {
    pub(crate) states: usize,
    pub(crate) kinds: usize,
    pub(crate) sparsity: usize,
    ghost labelled: { 0 < kinds },
    ghost known: { kinds ≤ 3 },
    ghost chosen: { 0 < sparsity },
}

/// A table with memory of its own.
#[derive(Drop)]
pub(crate) struct Sample {
    labels: Vec<FlagSet>,
    steps: Vec<u8>,
}

impl Sample {
    pub(crate) fn new<C: Choices>(
        heap: Global,
        shape: &Shape,
        choices: &mut C,
    ) -> Result<Sample, AllocError> {
        let mut labels = Vec::new(heap);
        for _ in 0..shape.states {
            labels.push(LABELS[choices.pick(shape.kinds)])?;
        }
        let mut steps = Vec::new(heap);
        for _ in 0..shape.states.saturating_mul(shape.states) {
            steps.push(u8::from(choices.pick(shape.sparsity) == 0))?;
        }
        Ok(Sample { labels, steps })
    }

    /// The machine that takes many rounds.
    pub(crate) fn slow(heap: Global) -> Result<Sample, AllocError> {
        Ok(Sample {
            labels: SLOW_LABELS.to_vec(heap)?,
            steps: SLOW_STEPS.to_vec(heap)?,
        })
    }

    pub(crate) fn table(&self) -> Table<'_, FlagSet> {
        Table::new(&self.labels, &self.steps)
    }
}

impl fmt::Display for Sample {
    fn fmt<W: fmt::Write>(&self, f: &mut fmt::Formatter<W>) -> fmt::Result {
        write!(f, "(labels")?;
        for label in &self.labels {
            let bits = label.bits;
            write!(f, " {bits}")?;
        }
        write!(f, ") (steps")?;
        for step in &self.steps {
            write!(f, " {step}")?;
        }
        write!(f, ")")
    }
}
