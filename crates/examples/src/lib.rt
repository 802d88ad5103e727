//! How the calls are used: a buyer's own order, and examples that run.
#![tactic(auto)]

#[cfg(test)]
mod pages;
#[cfg(test)]
mod refusal_tests;
pub mod severity;
#[cfg(test)]
mod sheet_tests;
#[cfg(test)]
mod tests;
