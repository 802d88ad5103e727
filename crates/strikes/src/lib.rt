//! Strikes: pairs of states told apart, each on a ground, and what follows from them.
#![tactic(auto)]

pub mod strike;
pub mod theory;

pub use strike::{Ground, Strike};
