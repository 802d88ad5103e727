//! The calls of the sheet for programs in C, over tables of flags, with numbers and areas of bytes only.
#![tactic(auto)]

mod answers;
pub mod calls;
mod fours;
mod records;
mod sheets;
mod table;
#[cfg(test)]
mod tests;
pub mod theory;
