//! The sheet: pairs of states struck with a reason, until no more can be struck.
//!
//! Some things are passed as they are. States are plain numbers, two for a pair: those of a call are not yet known to be
//! states, and the definitions read lists by them; a type of checked numbers would carry its machine in each. Pair bytes
//! and strikes are lent for one call, each by itself, since some calls take no strikes and some no order; the machine is
//! the caller's for all calls. That pairs are as many as they should be is asked where a byte is written or a slice taken.
#![tactic(auto)]

mod calls;
mod checks;
mod judge;
mod lookup;
pub mod memory;
pub mod request;
pub mod run;
pub mod setting;
pub mod sheet;
mod striking;
pub mod verdict;
mod walking;

pub use memory::{StrikeMemory, StrikeRecords, StrikeSlice};
pub use request::{Reply, Request};
pub use run::run_requests;
pub use setting::Setting;
pub use sheet::Sheet;
pub use verdict::Verdict;
