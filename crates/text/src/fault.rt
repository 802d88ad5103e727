//! What is wrong with a text, and where.
ghost use Rattle.std.specs.Prelude.{◌≡◌, Some};
ghost use Rattle.text.specs.Faults.{number_of, words_of, refused_at, line_alone};

use std::error::Error;
use std::fmt;

/// What is wrong with a line, a text, or the memory for it, with the number by which the documents name it.
#[derive(Clone, Copy, PartialEq, Eq, Debug)]
pub enum Fault {
    /// A line is too long, has no newline, or is not one bracketed form of the bytes that may stand in it.
    NoForm = 1,
    /// The first word is none that a line of such a text has.
    UnknownWord = 2,
    /// The items are not those of the word: too few, too many, a number miswritten or out of range, or a low above its high.
    WrongItems = 3,
    /// A line is missing, doubled or out of order, or a number is no state.
    OutOfOrder = 4,
    /// There are no states, or more than a text may have.
    WrongCount = 5,
    /// Memory that was handed in is too short.
    ShortMemory = 6,
    /// A formula is nested too deep.
    TooDeep = 12,
    /// The text is too long.
    TooLong = 13,
}

/// The number of a fault.
impl From<Fault> for u8 {
    ghost from_gives = { λ e r. r ≡ number_of e };

    fn from(fault: Fault) -> u8
        ensures { result ≡ number_of fault }
    {
        fault as u8
    }
}

/// The fault in a few words.
impl fmt::Display for Fault {
    ghost output = { λ e. Some (words_of e) };

    fn fmt<W: fmt::Write>(&self, f: &mut fmt::Formatter<W>) -> fmt::Result {
        f.write_str(match self {
            Fault::NoForm => "not a line",
            Fault::UnknownWord => "unknown word",
            Fault::WrongItems => "wrong items",
            Fault::OutOfOrder => "out of order",
            Fault::WrongCount => "no states or too many",
            Fault::ShortMemory => "memory too short",
            Fault::TooDeep => "nested too deep",
            Fault::TooLong => "text too long",
        })
    }
}

impl Error for Fault {}

/// The part of a text that a line belongs to.
#[derive(Clone, Copy, PartialEq, Eq, Debug)]
pub enum Side {
    /// The line that names the order.
    Order,
    /// The first machine, or the trace in its place.
    Left,
    /// The second machine, or a machine alone.
    Right,
}

/// A line of a text of two machines, counted from 1, and its side.
#[derive(Clone, Copy, PartialEq, Eq, Debug)]
pub struct Place {
    pub side: Side,
    pub line: usize,
}

/// Why a text is refused, and where: `P` is the number of a line, counted from 1, or a `Place`. Short memory has no place.
#[derive(Clone, Copy, PartialEq, Eq, Debug)]
pub struct Refused<P> {
    pub fault: Fault,
    pub place: Option<P>,
}

impl Fault {
    /// The fault of a line.
    pub(crate) fn at(self, line: usize) -> Refused<usize>
        ensures { result ≡ refused_at self line }
    {
        Refused {
            fault: self,
            place: Some(line),
        }
    }
}

impl Refused<Place> {
    /// The same, by its line alone.
    pub(crate) fn line_alone(self) -> Refused<usize>
        ensures { result ≡ line_alone self }
    {
        Refused {
            fault: self.fault,
            place: self.place.map(|place| place.line),
        }
    }
}
