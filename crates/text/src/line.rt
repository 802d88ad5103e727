//! What one line says.
ghost use Rattle.std.specs.Prelude.{◌≡◌, ◌≤◌, true, drop, Some, IfOk, IfSome};
ghost use Rattle.text.specs.Lines.{space, pieces_of, is_line, inside, words, first_word};
ghost use Rattle.text.specs.Words.{word_of};
ghost use Rattle.text.specs.Rows.{state_number, header, label, step, stepped, largest_number, row, row_by};
ghost use Rattle.text.specs.declared.row.Due.TheVariants.{Step as StepDue};
ghost use Rattle.text.specs.InOrder.{Within, Fits};

use crate::cut::cut;
use crate::fault::Fault;
use crate::label::Spelled;
use crate::number::numbers;
use crate::row::{Due, Form, Part, Row, Shape};
use crate::word::Word;
use model::STATE_BOUND;

/// What stands between the first bracket of a line and the last.
pub(crate) fn inside(line: &[u8]) -> &[u8]
    requires { is_line line.now ≡ true }
    ensures { result.now ≡ inside line.now }
{
    &line[1..line.len() - 1]
}

/// The first word of a line, where it is one of a text, and its items.
pub(crate) fn word_and_items(line: &[u8]) -> (Option<Word>, Option<&[u8]>)
    requires { is_line line.now ≡ true }
    ensures word { result.0 ≡ word_of (first_word line.now) }
    ensures items { pieces_of space result.1 ≡ drop 1 (words line.now) }
{
    let (first, items) = cut(inside(line), b' ');
    (Word::of(first), items)
}

/// A number of a state, or a count.
fn state_number(number: i64) -> Option<usize>
    ensures is { result ≡ state_number number }
    ensures within { IfSome result (λ n. n ≤ largest_number) }
{
    u16::try_from(number).ok().map(usize::from)
}

/// The header of a side of some states, which are not too many with those before it.
fn header<L>(due: Due, form: Form, numbers: &[i64]) -> Result<Row<L>, Fault>
    requires { Within due }
    ensures says { result ≡ header due form numbers.now }
    ensures fits { IfOk result (λ r. Fits due r) }
{
    let [count] = numbers else {
        return Err(Fault::WrongItems);
    };
    let count = state_number(*count).ok_or(Fault::WrongItems)?;
    if count == 0 || due.states_before() + count > STATE_BOUND {
        return Err(Fault::WrongCount);
    }
    Ok(Row::Header(form, count))
}

/// The label of the state that is due.
fn label<O: Spelled>(order: &O, state: usize, numbers: &[i64]) -> Result<Row<O::Label>, Fault>
    ensures { result ≡ label (O.Spelled.understood order.now) state numbers.now }
{
    let [first, rest @ ..] = numbers else {
        return Err(Fault::WrongItems);
    };
    let number = state_number(*first).ok_or(Fault::WrongItems)?;
    let label = order.label(rest).ok_or(Fault::WrongItems)?;
    if number != state {
        return Err(Fault::OutOfOrder);
    }
    Ok(Row::Label(state, label))
}

/// A step between two of the states, at the place that is due or later.
fn stepped<L>(part: Part, place: usize, from: usize, to: usize) -> Result<Row<L>, Fault>
    requires within { Within (StepDue part place) }
    requires from { from ≤ largest_number }
    requires to { to ≤ largest_number }
    ensures says { result ≡ stepped part.count place (Some from) (Some to) }
    ensures fits { IfOk result (λ r. Fits (StepDue part place) r) }
{
    let count = part.count;
    let there = from * count + to;
    if from >= count || to >= count || there < place {
        return Err(Fault::OutOfOrder);
    }
    Ok(Row::Step(there))
}

/// A step by the numbers of its states.
fn step<L>(part: Part, place: usize, numbers: &[i64]) -> Result<Row<L>, Fault>
    requires { Within (StepDue part place) }
    ensures says { result ≡ step part.count place numbers.now }
    ensures fits { IfOk result (λ r. Fits (StepDue part place) r) }
{
    let [from, to] = numbers else {
        return Err(Fault::WrongItems);
    };
    let from = state_number(*from).ok_or(Fault::WrongItems)?;
    let to = state_number(*to).ok_or(Fault::WrongItems)?;
    stepped(part, place, from, to)
}

/// What a word says with its numbers, where it is due.
fn row<O: Spelled>(order: &O, due: Due, word: Word, numbers: &[i64]) -> Result<Row<O::Label>, Fault>
    requires { Within due }
    ensures says { result ≡ row (O.Spelled.understood order.now) due word numbers.now }
    ensures fits { IfOk result (λ r. Fits due r) }
{
    match (word, due) {
        (Word::Machine, _) => header(due, Form::Machine, numbers),
        (Word::Trace, _) => header(due, Form::Trace, numbers),
        (Word::Label, Due::Label(_, state)) => label(order, state, numbers),
        (Word::Step, Due::Step(part, place)) => step(part, place, numbers),
        _ => Err(Fault::OutOfOrder),
    }
}

/// What a word says with its items, which are read only where the word is due.
pub(crate) fn row_by<O: Spelled>(
    order: &O,
    shape: Shape,
    due: Due,
    word: Option<Word>,
    items: Option<&[u8]>,
) -> Result<Row<O::Label>, Fault>
    requires { Within due }
    ensures says { result ≡ row_by (O.Spelled.understood order.now) shape due word (pieces_of space items.entry) }
    ensures fits { IfOk result (λ r. Fits due r) }
{
    let word = word
        .filter(|word| shape.knows(*word))
        .ok_or(Fault::UnknownWord)?;
    if !due.takes(word) {
        return Err(Fault::OutOfOrder);
    }
    let numbers = numbers(items).ok_or(Fault::WrongItems)?;
    row(order, due, word, &numbers)
}
