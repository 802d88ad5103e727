//! What the lines of a machine's text say, and in which order they come.
ghost use Rattle.std.specs.Prelude.{◌≡◌};
ghost use Rattle.text.specs.InOrder.{Within, Fits};
ghost use Rattle.text.specs.Rows.{knows, is_due, side_of, side_at, side_by, states_before, after, may_end};

use crate::fault::Side;
use crate::word::Word;

/// What a text holds: two machines after an order, or a machine alone.
#[derive(Clone, Copy, PartialEq, Eq, Debug)]
pub(crate) enum Shape {
    /// The line of an order, and a left and a right.
    Two,
    /// The lines of a machine, which is read as a right.
    Alone,
}

/// Whether a side is a machine with steps or a trace.
#[derive(Clone, Copy, PartialEq, Eq, Debug)]
pub enum Form {
    /// Its steps are lines of the text.
    Machine,
    /// A step leads from each state to the next, and no line says so.
    Trace,
}

/// What a line says.
#[derive(Clone, Copy, PartialEq, Eq, Debug)]
pub(crate) enum Row<L> {
    /// A machine or a trace of so many states begins.
    Header(Form, usize),
    /// The label of a state.
    Label(usize, L),
    /// A step, by the place of its pair of states: from s to t at s×n+t.
    Step(usize),
}

/// A side that has begun.
#[derive(Clone, Copy, PartialEq, Eq, Debug)]
pub(crate) struct Part {
    pub(crate) side: Side,
    pub(crate) form: Form,
    /// How many states it has.
    pub(crate) count: usize,
}

/// What may come next.
#[derive(Clone, Copy, PartialEq, Eq, Debug)]
pub(crate) enum Due {
    /// The header of a side, after so many states of sides before it.
    Header(Side, usize),
    /// The label of this state.
    Label(Part, usize),
    /// A step at this place or later, or what follows the side.
    Step(Part, usize),
}

impl Shape {
    /// Whether a line of such a text may have the word.
    pub(crate) fn knows(self, word: Word) -> bool
        ensures { result ≡ knows self word }
    {
        match self {
            Shape::Two => true,
            Shape::Alone => matches!(word, Word::Machine | Word::Label | Word::Step),
        }
    }
}

impl Due {
    /// Whether the word may come next: a trace only on the left, steps after a machine's labels, and the right after the left.
    pub(crate) fn takes(self, word: Word) -> bool
        ensures { result ≡ is_due self word }
    {
        match (self, word) {
            (Due::Header(..), Word::Machine) | (Due::Label(..), Word::Label) => true,
            (Due::Header(side, _), Word::Trace) => side == Side::Left,
            (Due::Step(part, _), Word::Step) => part.form == Form::Machine,
            (Due::Step(part, _), Word::Machine) => part.side == Side::Left,
            _ => false,
        }
    }

    /// The side that is being read.
    pub(crate) fn side(self) -> Side
        ensures { result ≡ side_of self }
    {
        match self {
            Due::Header(side, _) => side,
            Due::Label(part, _) | Due::Step(part, _) => part.side,
        }
    }

    /// The side of a line with this word: a machine after the left's last label begins the right.
    pub(crate) fn side_at(self, word: Word) -> Side
        ensures { result ≡ side_at self word }
    {
        match (self, word) {
            (Due::Step(..), Word::Machine) => Side::Right,
            _ => self.side(),
        }
    }

    /// The same of a line whose word may be unknown.
    pub(crate) fn side_by(self, word: Option<Word>) -> Side
        ensures { result ≡ side_by self word }
    {
        word.map_or(self.side(), |word| self.side_at(word))
    }

    /// The states of the sides before a header that comes next.
    pub(crate) fn states_before(self) -> usize
        ensures { result ≡ states_before self }
    {
        match self {
            Due::Header(_, before) => before,
            Due::Label(..) => 0,
            Due::Step(part, _) => part.count,
        }
    }

    /// What is due after a row.
    pub(crate) fn after<L>(self, row: &Row<L>) -> Due
        requires within { Within self }
        requires fits { Fits self row.now }
        ensures after { result ≡ after self row.now }
        ensures within { Within result }
    {
        match (self, row) {
            (_, Row::Header(form, count)) => {
                let part = Part {
                    side: self.side_at(Word::Machine),
                    form: *form,
                    count: *count,
                };
                Due::Label(part, 0)
            }
            (Due::Label(part, s), Row::Label(..)) if s + 1 < part.count => Due::Label(part, s + 1),
            (Due::Label(part, _), Row::Label(..)) => Due::Step(part, 0),
            (Due::Step(part, _), Row::Step(place)) => Due::Step(part, place + 1),
            _ => self,
        }
    }

    /// Whether the text may end here.
    pub(crate) fn may_end(self) -> bool
        ensures { result ≡ may_end self }
    {
        matches!(self, Due::Step(part, _) if part.side == Side::Right)
    }
}
