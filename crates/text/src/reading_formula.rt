//! A formula read from a text.
ghost use Rattle.std.specs.Prelude.{◌≡◌, ◌-◌, ◌≤◌, length, take, Some, is_some, IsSome, IfSome, IfOk, IsTrue};
ghost use Rattle.model.specs.Memory.{over};
ghost use Rattle.until.specs.Lines.{denoted, all_name_earlier};
ghost use Rattle.text.specs.Lines.{newline, pieces, first_piece, first_word};
ghost use Rattle.text.specs.FormulaTexts.{is_formula_word, deepest, line_checked, Writes, ReadsFormula, SaysOne};
ghost use Rattle.text.specs.FormulaParts.{line_with, shown, line_of, lines_of, ReadsItems, ReadsLine, ReadsText};

use crate::cut::cut;
use crate::fault::{Fault, Refused};
use crate::form::{deepest, is_line};
use crate::formula::{FORMULA_PLACES, Lines, formula};
use crate::label::Spelled;
use crate::number::numbers;
use crate::reading::TEXT_BOUND;
use arrayvec::ArrayVec;
use until::Line;

/// The deepest that the brackets of a line may be nested.
const NESTING_BOUND: usize = 32;

/// Whether formulas begin with the word.
fn is_formula_word(word: &[u8]) -> bool
    ensures { result ≡ is_formula_word word.now }
{
    matches!(word, b"true" | b"at" | b"and" | b"until")
}

/// Whether the first word between the first byte and the last is one of formulas.
pub(crate) fn has_formula_word(line: &[u8]) -> bool
    ensures { result ≡ is_formula_word (first_word line.now) }
{
    match line {
        [_, inside @ .., _] => is_formula_word(cut(inside, b' ').0),
        _ => false,
    }
}

/// What a line of a formula is refused for before its items are looked at.
fn check_line(line: &[u8]) -> Result<(), Fault>
    ensures { result ≡ line_checked line.now }
{
    if !is_line(line) {
        return Err(Fault::NoForm);
    }
    if deepest(line) > NESTING_BOUND {
        return Err(Fault::TooDeep);
    }
    if !has_formula_word(line) {
        return Err(Fault::UnknownWord);
    }
    Ok(())
}

/// The line with its label, where that is one of the order: numbers with a space between them.
fn with_label<O: Spelled>(order: &O, line: &Line<&[u8]>) -> Option<Line<O::Label>>
    ensures { result ≡ line_of (O.understood order.now) (line_with (λ b. b.now) line.now) }
{
    match line {
        Line::True => Some(Line::True),
        Line::At(label) => order.label(&numbers(Some(label))?).map(Line::At),
        Line::And(f, g) => Some(Line::And(*f, *g)),
        Line::Until(f, g) => Some(Line::Until(*f, *g)),
    }
}

/// Whether the order has the label of each line.
fn has_labels<O: Spelled>(order: &O, lines: &[Line<&[u8]>]) -> bool
    ensures { result ≡ is_some (lines_of (O.understood order.now) (shown lines.now)) }
{
    lines.iter().all(|line| with_label(order, line).is_some())
}

/// The lines of the formula that a line writes.
fn read_items<'a, O: Spelled>(order: &O, line: &'a [u8]) -> Option<Lines<'a>>
    requires short { length line.now ≤ 512 }
    requires shallow { deepest 0 line.now ≤ 32 }
    ensures { ReadsItems (O.understood order.now) line.now result }
{
    let mut lines = ArrayVec::new();
    let rest = formula(line, NESTING_BOUND - 1, &mut lines)?;
    (rest.is_empty() && has_labels(order, &lines)).then_some(lines)
}

/// The same, or why the line is refused.
fn read_line<'a, O: Spelled>(order: &O, line: &'a [u8]) -> Result<Lines<'a>, Fault>
    ensures { ReadsLine (O.understood order.now) line.now result }
{
    check_line(line)?;
    read_items(order, line).ok_or(Fault::WrongItems)
}

/// The lines of the formula that a text writes in one line, with nothing else.
fn read_text<'a, O: Spelled>(order: &O, text: &'a [u8]) -> Result<Lines<'a>, Refused<usize>>
    ensures { ReadsText (O.understood order.now) text.now result }
{
    if text.is_empty() {
        return Err(Fault::OutOfOrder.at(1));
    }
    let (line, after) = cut(text, b'\n');
    let Some(after) = after else {
        return Err(Fault::NoForm.at(1));
    };
    match read_line(order, line) {
        Err(fault) => Err(fault.at(1)),
        Ok(_) if !after.is_empty() => Err(Fault::OutOfOrder.at(2)),
        Ok(lines) => Ok(lines),
    }
}

/// Writes the lines with their labels. These are read once more, since memory is written only where nothing is refused.
fn write_lines<O: Spelled>(order: &O, read: &[Line<&[u8]>], lines: &mut [Line<O::Label>])
    requires there { IsSome (lines_of (O.understood order.now) (shown read.now)) }
    requires room { length read.now ≤ length lines.old }
    ensures { IfSome (lines_of (O.understood order.now) (shown read.now)) (λ front. lines.new ≡ over front lines.old) }
{
    for (k, line) in read.iter().enumerate() {
        lines[k] = with_label(order, line).unwrap();
    }
}

/// Reads the formula that a text writes, and answers how many numbered lines it wrote, the last being the formula's
/// own. The rest of the memory is untouched, and so is all of it where the text is refused.
pub fn read_formula<O: Spelled>(
    order: &O,
    text: &[u8],
    lines: &mut [Line<O::Label>],
) -> Result<usize, Refused<usize>>
    ensures read { ReadsFormula (O.understood order.now) text.now lines.old result lines.new }

    // The last line denotes the formula that the text writes, and evaluating the lines is not refused for their numbers.
    ensures denotes { IfOk result (λ k. Writes (O.understood order.now) (first_piece (pieces newline text.now))
        (Some (denoted (take k lines.new) (k - 1)))) }
    ensures earlier { IfOk result (λ k. IsTrue (all_name_earlier 0 (take k lines.new))) }
{
    if text.len() > TEXT_BOUND {
        return Err(Fault::TooLong.at(1));
    }
    if lines.len() < FORMULA_PLACES {
        return Err(Refused {
            fault: Fault::ShortMemory,
            place: None,
        });
    }
    let read = read_text(order, text)?;
    write_lines(order, &read, lines);
    Ok(read.len())
}

/// No text says two things, so that reading one has one answer.
pub fn formula_text_says_one<O: Spelled>(order: &O)
    ensures { SaysOne (O.Spelled.understood order.now) }
{}
