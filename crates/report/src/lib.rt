//! What programs print of texts: two machines compared, and a formula evaluated at the states of one.
#![tactic(auto)]

pub mod comparison;
pub mod holding;
pub mod lines;
mod places;
mod program;
pub mod refused;
pub mod report;
mod settled;
mod writing;

pub use comparison::compare;
pub use holding::holds;
pub use lines::{ClassLine, ComparedLine, HoldsLine, StartLine, StrikeLine};
pub use program::read_text;
pub use refused::{RefusedLine, Section, Spot};
pub use report::Report;
