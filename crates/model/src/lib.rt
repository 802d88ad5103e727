//! What the comparer compares: labels under an order, and machines whose states carry them.
#![tactic(auto)]

pub mod band;
pub mod beside;
pub mod flags;
pub mod layers;
pub mod machine;
pub mod order;
pub mod refusal;
pub mod table;
pub mod trace;

pub use band::{Band, Span};
pub use beside::Beside;
pub use flags::{FlagSet, Flags};
pub use layers::{Both, Exact, Turned};
pub use machine::{Machine, STATE_BOUND, State, is_sized};
pub use order::{Order, order_laws};
pub use refusal::Refusal;
pub use table::Table;
pub use trace::Trace;
