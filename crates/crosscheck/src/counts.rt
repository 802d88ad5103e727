//! How much was compared.
use std::fmt;

#[derive(Default, Drop)]
pub(crate) struct Counts {
    pub(crate) machines: u64,
    /// Machines under an order, settled in one way.
    pub(crate) comparisons: u64,
    /// Machines under an order of which the two ways to settle give other strikes, or in another order.
    pub(crate) reordered: u64,
    /// Pairs that stand by both.
    pub(crate) standing: u64,
    /// Struck pairs whose reason tells them apart.
    pub(crate) reasons: u64,
}

/// Counts one more.
pub(crate) fn count(counter: &mut u64) {
    *counter = counter.saturating_add(1);
}

impl fmt::Display for Counts {
    fn fmt<W: fmt::Write>(&self, f: &mut fmt::Formatter<W>) -> fmt::Result {
        let machines = self.machines;
        let comparisons = self.comparisons;
        let reordered = self.reordered;
        let standing = self.standing;
        let reasons = self.reasons;
        writeln!(f, "(machines {machines})")?;
        writeln!(f, "(comparisons {comparisons})")?;
        writeln!(f, "(reordered {reordered})")?;
        writeln!(f, "(standing {standing})")?;
        writeln!(f, "(reasons {reasons})")
    }
}
