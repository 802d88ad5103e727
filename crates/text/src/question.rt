//! Texts of an order, a machine and a formula, cut into their parts.
ghost use Rattle.std.specs.Prelude.{◌≡◌, ◌≤◌, length, IfSome, IfOk};
ghost use Rattle.std.specs.Result.{result_map_both};
ghost use Rattle.text.specs.Lines.{newline, pieces};
ghost use Rattle.text.specs.Readings.{text_bound};
ghost use Rattle.text.specs.Questions.{is_formula_line, before_formula, question, held_parts};

use crate::cut::cut;
use crate::fault::Fault;
use crate::form::is_line;
use crate::order::TextOrder;
use crate::order_line::first_line;
use crate::reading::TEXT_BOUND;
use crate::reading_formula::has_formula_word;

/// The parts of a text of an order, a machine and a formula.
#[derive(Clone, Copy)]
pub struct Parts<'a> {
    pub order: TextOrder,
    /// The text of the machine: the lines before the first line of a formula, or all.
    pub machine: &'a [u8],
    /// The text of the formula: what begins with that line, where there is one.
    pub formula: Option<&'a [u8]>,
    /// How many lines come before the formula's first, or all where there is none, with that of the order.
    pub lines: usize,
}

/// What comes before the first line of a formula.
#[derive(Clone, Copy)]
struct Before {
    /// How many lines, or all where there is no such line.
    lines: usize,
    /// How many bytes, where there is such a line.
    bytes: Option<usize>,
}

/// Whether it is a line whose word formulas begin with.
fn is_formula_line(line: &[u8]) -> bool
    ensures { result ≡ is_formula_line line.now }
{
    is_line(line) && has_formula_word(line)
}

/// What comes before the first line of a formula.
#[tactic(auto, using(crate::proofs::LinesBefore::before_start, crate::proofs::LinesBefore::before_none))]
fn before_formula(text: &[u8]) -> Before
    ensures is { result ≡ before_formula (pieces newline text.now) }
    ensures few { result.lines ≤ length text.now }
    ensures within { IfSome result.bytes (λ k. k ≤ length text.now) }
{
    let mut left = text;
    let mut lines = 0;
    while let (line, Some(rest)) = cut(left, b'\n') {
        if is_formula_line(line) {
            return Before {
                lines,
                bytes: Some(text.len() - left.len()),
            };
        }
        left = rest;
        lines += 1;
    }
    Before { lines, bytes: None }
}

/// Cuts a text into its parts, unless it is too long, or its first line is not that of an order.
pub fn cut_question(text: &[u8]) -> Result<Parts<'_>, Fault>
    ensures is { result_map_both held_parts (λ fault. fault) result ≡ question text.now }
    ensures few { IfOk result (λ parts. parts.lines ≤ text_bound) }
    ensures short { IfOk result (λ parts. length parts.machine.now ≤ text_bound) }
{
    if text.len() > TEXT_BOUND {
        return Err(Fault::TooLong);
    }
    let (order, rest) = first_line(text)?;
    let before = before_formula(rest);
    Ok(Parts {
        order,
        machine: before.bytes.map_or(rest, |n| &rest[..n]),
        formula: before.bytes.map(|n| &rest[n..]),
        lines: before.lines + 1,
    })
}
