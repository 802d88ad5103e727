//! The line that says why a text is refused, and where.
ghost use Rattle.std.specs.Prelude.{◌≡◌, Some};
ghost use Rattle.report.specs.Refused.{section_of, spot_of, section_word, spot_words, refused_line};

use std::fmt;
use text::{Place, Refused, Side};

/// The part of a text that a line belongs to.
#[derive(Clone, Copy, PartialEq, Eq, Debug)]
pub enum Section {
    /// The line that names the order.
    Order,
    /// The left of two machines.
    Left,
    /// The right of two machines.
    Right,
    /// The machine of which a formula is asked.
    Machine,
    Formula,
}

/// A line of a text, counted from 1, and its part.
#[derive(Clone, Copy, PartialEq, Eq, Debug)]
pub struct Spot {
    pub section: Section,
    pub line: usize,
}

impl From<Side> for Section {
    ghost from_gives = { λ side r. r ≡ section_of side };

    fn from(side: Side) -> Section
        ensures { result ≡ section_of side }
    {
        match side {
            Side::Order => Section::Order,
            Side::Left => Section::Left,
            Side::Right => Section::Right,
        }
    }
}

impl From<Place> for Spot {
    ghost from_gives = { λ place r. r ≡ spot_of place };

    fn from(place: Place) -> Spot
        ensures { result ≡ spot_of place }
    {
        Spot {
            section: place.side.into(),
            line: place.line,
        }
    }
}

impl Section {
    fn word(self) -> &'static str
        ensures { result.now ≡ section_word self }
    {
        match self {
            Section::Order => "order",
            Section::Left => "left",
            Section::Right => "right",
            Section::Machine => "machine",
            Section::Formula => "formula",
        }
    }
}

/// A part of a text and a line, where there is one.
#[derive(Clone, Copy)]
struct SpotWords(Option<Spot>);

impl fmt::Display for SpotWords {
    ghost output = { λ words. Some (spot_words words.0) };

    fn fmt<W: fmt::Write>(&self, f: &mut fmt::Formatter<W>) -> fmt::Result {
        match self.0 {
            None => Ok(()),
            Some(spot) => {
                let section = spot.section.word();
                let line = spot.line;
                write!(f, " {section} {line}")
            }
        }
    }
}

/// Why a text was refused, and where.
#[derive(Clone, Copy, PartialEq, Eq, Debug)]
pub struct RefusedLine {
    pub refused: Refused<Spot>,
}

impl fmt::Display for RefusedLine {
    ghost output = { λ line. Some (refused_line line.refused) };

    fn fmt<W: fmt::Write>(&self, f: &mut fmt::Formatter<W>) -> fmt::Result {
        let number = u8::from(self.refused.fault);
        let spot = SpotWords(self.refused.place);
        writeln!(f, "(refused {number}{spot})")
    }
}
