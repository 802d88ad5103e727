//! Examples of texts of machines, read and written.
#![tactic(auto)]

#[cfg(test)]
mod first_line_tests;
#[cfg(test)]
mod lent;
#[cfg(test)]
mod limit_tests;
#[cfg(test)]
mod line_tests;
#[cfg(test)]
mod place_tests;
#[cfg(test)]
mod reading_tests;
#[cfg(test)]
mod writing_tests;
