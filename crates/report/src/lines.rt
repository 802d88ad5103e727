//! The lines of a report.
ghost use Rattle.std.specs.Prelude.{◌≡◌, Some};
ghost use Rattle.report.specs.Printed.{yes_or_no, compared_line, class_line, ground_words, strike_line, start_line, holds_line};

use std::fmt;
use strikes::{Ground, Strike};

/// A word of the printed lines; the library prints `true` and `false`.
fn yes_or_no(yes: bool) -> &'static str
    ensures { result.now ≡ yes_or_no yes }
{
    if yes { "yes" } else { "no" }
}

/// How many states were compared.
#[derive(Clone, Copy, PartialEq, Eq, Debug)]
pub struct ComparedLine {
    pub states: usize,
}

impl fmt::Display for ComparedLine {
    ghost output = { λ line. Some (compared_line line.states) };

    fn fmt<W: fmt::Write>(&self, f: &mut fmt::Formatter<W>) -> fmt::Result {
        let states = self.states;
        writeln!(f, "(compared {states})")
    }
}

/// The class of a state: the least state that is the same as it.
#[derive(Clone, Copy, PartialEq, Eq, Debug)]
pub struct ClassLine {
    pub state: usize,
    pub class: usize,
}

impl fmt::Display for ClassLine {
    ghost output = { λ line. Some (class_line line.state line.class) };

    fn fmt<W: fmt::Write>(&self, f: &mut fmt::Formatter<W>) -> fmt::Result {
        let state = self.state;
        let class = self.class;
        writeln!(f, "(class {state} {class})")
    }
}

/// A strike, with its ground.
#[derive(Clone, Copy, PartialEq, Eq, Debug)]
pub struct StrikeLine {
    pub strike: Strike,
}

/// The words of a ground.
#[derive(Clone, Copy)]
struct GroundWords(Ground);

impl fmt::Display for GroundWords {
    ghost output = { λ words. Some (ground_words words.0) };

    fn fmt<W: fmt::Write>(&self, f: &mut fmt::Formatter<W>) -> fmt::Result {
        match self.0 {
            Ground::ByLabel => write!(f, "label"),
            Ground::ByStep(to) => write!(f, "step {to}"),
        }
    }
}

impl fmt::Display for StrikeLine {
    ghost output = { λ line. Some (strike_line line.strike) };

    fn fmt<W: fmt::Write>(&self, f: &mut fmt::Formatter<W>) -> fmt::Result {
        let first = self.strike.first;
        let second = self.strike.second;
        let ground = GroundWords(self.strike.ground);
        writeln!(f, "(strike {first} {second} {ground})")
    }
}

/// Whether a state of the left is below a state of the right.
#[derive(Clone, Copy, PartialEq, Eq, Debug)]
pub struct StartLine {
    pub left: usize,
    pub right: usize,
    pub is_below: bool,
}

impl fmt::Display for StartLine {
    ghost output = { λ line. Some (start_line line.left line.right line.is_below) };

    fn fmt<W: fmt::Write>(&self, f: &mut fmt::Formatter<W>) -> fmt::Result {
        let left = self.left;
        let right = self.right;
        let word = yes_or_no(self.is_below);
        writeln!(f, "(start {left} {right} {word})")
    }
}

/// Whether a formula holds at a state.
#[derive(Clone, Copy, PartialEq, Eq, Debug)]
pub struct HoldsLine {
    pub state: usize,
    pub holds: bool,
}

impl fmt::Display for HoldsLine {
    ghost output = { λ line. Some (holds_line line.state line.holds) };

    fn fmt<W: fmt::Write>(&self, f: &mut fmt::Formatter<W>) -> fmt::Result {
        let state = self.state;
        let word = yes_or_no(self.holds);
        writeln!(f, "(holds {state} {word})")
    }
}
