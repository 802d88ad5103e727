//! The line that names the order of a text.
ghost use Rattle.std.specs.Prelude.{◌≡◌, ◌<◌, length, drop, Ok, Err, IfOk, MatchResult};
ghost use Rattle.text.specs.Lines.{newline, pieces};
ghost use Rattle.text.specs.Readings.{order_of, first_line};
ghost use Rattle.text.specs.Questions.{after_line};

use crate::cut::cut;
use crate::fault::Fault;
use crate::form::is_line;
use crate::line::{inside, word_and_items};
use crate::order::TextOrder;

/// What the line of an order says.
fn order_of(line: &[u8]) -> Result<TextOrder, Fault>
    ensures { result ≡ order_of line.now }
{
    if !is_line(line) {
        return Err(Fault::NoForm);
    }
    let (word, _) = word_and_items(line);
    if !word.ok_or(Fault::UnknownWord)?.is_order() {
        return Err(Fault::OutOfOrder);
    }
    TextOrder::named(inside(line)).ok_or(Fault::WrongItems)
}

/// The order that a text begins with, and the rest of the text.
pub(crate) fn first_line(text: &[u8]) -> Result<(TextOrder, &[u8]), Fault>
    ensures says { MatchResult result (λ p. first_line (pieces newline text.now) ≡ Ok p.0) (λ e. first_line (pieces newline text.now) ≡ Err e) }
    ensures rest { IfOk result (λ p. drop 1 (pieces newline text.now) ≡ pieces newline p.1.now) }
    ensures left { IfOk result (λ p. p.1.now ≡ after_line text.now) }
    ensures shorter { IfOk result (λ p. length p.1.now < length text.now) }
{
    let (line, rest) = cut(text, b'\n');
    let rest = rest.ok_or(if line.is_empty() {
        Fault::OutOfOrder
    } else {
        Fault::NoForm
    })?;
    Ok((order_of(line)?, rest))
}
