//! Examples of what is printed of texts.
#![tactic(auto)]

#[cfg(test)]
mod compare_tests;
#[cfg(test)]
mod holds_tests;
