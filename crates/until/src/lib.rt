//! Walks over the steps of a machine, and the until formulas that they decide.
#![tactic(auto)]

pub mod evaluation;
pub mod formula;
pub mod rows;
pub mod search;
pub mod theory;

pub use evaluation::evaluate;
pub use formula::Line;
pub use rows::Rows;
pub use search::{marked, meets, reached, shortest_walk, walk_exists};
