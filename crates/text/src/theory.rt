//! What texts of machines say, for every order whose labels can be written, and what texts of two machines say: each theorem
//! stands in the contract of a call of its own, by its name; the calls do nothing.
ghost use Rattle.text.specs.Statements.{ReadIsWritten, WrittenIsRead, SameText, TwoIsWritten, TwoIsRead, SameTwoTexts};

use crate::label::Spelled;

/// A text that is read is the one that `write_machine` writes for the machine that it says.
pub fn text_is_of_its_machine<O: Spelled>(order: &O)
    ensures { ReadIsWritten (O.Spelled.spelled order.now) (O.Spelled.understood order.now) }
{}

/// The text that `write_machine` writes for a machine says that machine.
pub fn machine_is_read_from_its_text<O: Spelled>(order: &O)
    ensures { WrittenIsRead (O.Spelled.spelled order.now) (O.Spelled.understood order.now) }
{}

/// No two texts say the same machine.
pub fn machine_has_one_text<O: Spelled>(order: &O)
    ensures { SameText (O.Spelled.understood order.now) }
{}

/// A text of two machines that is read is the text of its order and of the machines that it says.
pub fn text_is_of_its_two_machines()
    ensures { TwoIsWritten }
{}

/// The text of two machines says those machines.
pub fn two_machines_are_read_from_their_text()
    ensures { TwoIsRead }
{}

/// No two texts say the same two machines.
pub fn two_machines_have_one_text()
    ensures { SameTwoTexts }
{}
