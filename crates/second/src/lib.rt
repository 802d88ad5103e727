//! A second way to find which states can stand in for which: sets of states are narrowed by walking backwards, until
//! nothing changes. It shares no code with the sheet, and only its safety is proved.
#![tactic(auto)]

mod backward;
pub mod relation;

pub use relation::Relation;
