//! What is printed.
use crate::crossing::{Crossing, Stop};
use std::alloc::{AllocError, Global};

/// What is printed of all machines.
#[derive(Drop)]
pub(crate) struct Report {
    pub(crate) lines: String,
    /// The lines are one that tells a difference.
    pub(crate) is_difference: bool,
}

/// Sets the two against each other on all machines.
pub(crate) fn cross_check(heap: Global) -> Result<Report, AllocError> {
    match Crossing::whole(heap) {
        Ok(counts) => Ok(Report {
            lines: counts.to_string(heap)?,
            is_difference: false,
        }),
        Err(Stop::Differs(line)) => Ok(Report {
            lines: line,
            is_difference: true,
        }),
        Err(Stop::Memory(error)) => Err(error),
    }
}
