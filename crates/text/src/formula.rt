//! Formulas read from the front of bytes, as numbered lines.
ghost use Rattle.std.specs.Prelude.{◌≡◌, ℕ, ◌+◌, List, [], ◌++◌, length, IfSome, IfNone};
ghost use Rattle.text.specs.FormulaParts.{LabelFront, Reads, NoFront, HasRoom, shown};

use crate::cut::cut;
use arrayvec::ArrayVec;
use until::Line;

/// The places for lines that reading a formula needs.
pub const FORMULA_PLACES: usize = 80;

/// The lines of a formula, each label as its place in the text.
pub(crate) type Lines<'a> = ArrayVec<Line<&'a [u8]>, FORMULA_PLACES>;

/// The bytes of a label, up to the bracket that closes it, and what is left after the bracket.
fn label(bytes: &[u8]) -> Option<(&[u8], &[u8])>
    ensures read { IfSome result (λ p. LabelFront bytes.now p.0.now p.1.now) }
    ensures none { IfNone result ((label : List ℕ) (rest : List ℕ) → LabelFront bytes.now label rest → ⊥) }
{
    let (label, rest) = cut(bytes, b')');
    if label.is_empty() {
        return None;
    }
    Some((label, rest?))
}

/// Reads the formula in front, and answers what is left after it. Its operands may be nested `depth` deep.
#[cycle(formula)]
pub(crate) fn formula<'a>(bytes: &'a [u8], depth: usize, lines: &mut Lines<'a>) -> Option<&'a [u8]>
    requires { HasRoom lines.old.items bytes.now }
    ensures read { IfSome result (λ rest. Reads bytes.now rest.now (shown lines.old.items) (shown lines.new.items)) }
    ensures none { IfNone result (NoFront (depth + 1) bytes.now []) }
{
    if let Some(rest) = bytes.strip_prefix(b"(true)") {
        lines.push(Line::True);
        return Some(rest);
    }
    if let Some(rest) = bytes.strip_prefix(b"(at ") {
        let (label, rest) = label(rest)?;
        lines.push(Line::At(label));
        return Some(rest);
    }
    if let Some(rest) = bytes.strip_prefix(b"(and ") {
        let (f, rest) = operand(rest, b" ", depth, lines)?;
        let (g, rest) = operand(rest, b")", depth, lines)?;
        lines.push(Line::And(f, g));
        return Some(rest);
    }
    if let Some(rest) = bytes.strip_prefix(b"(until ") {
        let (f, rest) = operand(rest, b" ", depth, lines)?;
        let (g, rest) = operand(rest, b")", depth, lines)?;
        lines.push(Line::Until(f, g));
        return Some(rest);
    }
    None
}

/// Reads the formula in front and the bytes `next` after it. Answers the number of its line, and what is left.
#[cycle(formula)]
fn operand<'a>(
    bytes: &'a [u8],
    next: &[u8],
    depth: usize,
    lines: &mut Lines<'a>,
) -> Option<(usize, &'a [u8])>
    requires { HasRoom lines.old.items bytes.now }
    ensures read { IfSome result
        (λ p. Reads bytes.now (next.now ++ p.1.now) (shown lines.old.items) (shown lines.new.items)) }
    ensures number { IfSome result (λ p. p.0 + 1 ≡ length lines.new.items) }
    ensures none { IfNone result (NoFront depth bytes.now next.now) }
{
    let rest = formula(bytes, depth.checked_sub(1)?, lines)?;
    Some((lines.len() - 1, rest.strip_prefix(next)?))
}
