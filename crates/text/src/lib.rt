//! Texts of machines, read and written.
#![tactic(auto)]

mod cut;
mod fault;
mod form;
mod formula;
mod label;
mod lent;
mod line;
mod number;
mod order;
mod order_line;
mod question;
mod reader;
mod reading;
mod reading_formula;
mod row;
pub mod theory;
mod word;
mod writing;

pub use fault::{Fault, Place, Refused, Side};
pub use formula::FORMULA_PLACES;
pub use label::{LABEL_NUMBERS, Numbers, Spelled};
pub use lent::{LABEL_PLACES, STEP_PLACES};
pub use order::{Base, TextOrder};
pub use question::{Parts, cut_question};
pub use reading::{SideRead, TEXT_BOUND, TwoRead, read_machine, read_two};
pub use reading_formula::{formula_text_says_one, read_formula};
pub use row::Form;
pub use writing::write_machine;
