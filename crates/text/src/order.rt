//! The orders that a text may name.
ghost use Rattle.std.specs.Prelude.{◌≡◌, option_map};
ghost use Rattle.text.specs.OrderLines.{base_at_most, text_at_most, base_spelled, base_understood, text_spelled, text_understood, is_order_word, order_letters, order_named};
ghost use Rattle.text.specs.TextOrderLaws.{base_lawful, text_lawful, base_spelling, text_spelling};

use crate::label::{Numbers, Spelled};
use crate::word::Word;
use model::{Band, Both, Exact, FlagSet, Flags, Order, Span, Turned};

/// What an order looks at: the labels of every text are pairs of a set of flags and a band.
#[derive(Clone, Copy, PartialEq, Eq, Debug)]
pub enum Base {
    /// A label is at most those that have all its flags.
    Flags,
    /// A label is at most those whose band lies inside its own.
    Band,
}

impl Order for Base {
    type Label = (FlagSet, Span);

    ghost relation = { base_at_most };

    ghost lawful = { base_lawful };

    fn at_most(&self, a: &(FlagSet, Span), b: &(FlagSet, Span)) -> bool
        ensures { result ≡ base_at_most self.now a.now b.now }
    {
        match self {
            Self::Flags => Flags {}.at_most(&a.0, &b.0),
            Self::Band => Band {}.at_most(&a.1, &b.1),
        }
    }
}

/// A label is its part that the base looks at. The other part is empty: no flags, or the band from 0 to 0.
impl Spelled for Base {
    ghost spelled = { base_spelled };

    ghost understood = { base_understood };

    ghost spelling = { base_spelling };

    fn numbers(&self, label: &(FlagSet, Span)) -> Option<Numbers>
        ensures { option_map (λ v. v.items) result ≡ base_spelled self.now label.now }
    {
        match (self, label) {
            (Self::Flags, (flags, Span { low: 0, high: 0 })) => Flags {}.numbers(flags),
            (Self::Band, (FlagSet { bits: 0 }, span)) => Band {}.numbers(span),
            _ => None,
        }
    }

    fn label(&self, numbers: &[i64]) -> Option<(FlagSet, Span)>
        ensures { result ≡ base_understood self.now numbers.now }
    {
        match self {
            Self::Flags => Some((Flags {}.label(numbers)?, Span { low: 0, high: 0 })),
            Self::Band => Some((FlagSet { bits: 0 }, Band {}.label(numbers)?)),
        }
    }
}

/// An order that a text may name.
#[derive(Clone, Copy, PartialEq, Eq, Debug)]
pub enum TextOrder {
    /// As the base says.
    Plain(Base),
    /// The base with its two labels exchanged.
    Turned(Base),
    /// The base both ways: what it looks at is the same.
    Exact(Base),
    /// The flags and the band at once.
    Both,
}

/// Flags and bands, of which both must agree.
const BOTH: Both<Flags, Band> = Both {
    first: Flags {},
    second: Band {},
};

impl Order for TextOrder {
    type Label = (FlagSet, Span);

    ghost relation = { text_at_most };

    ghost lawful = { text_lawful };

    fn at_most(&self, a: &(FlagSet, Span), b: &(FlagSet, Span)) -> bool
        ensures { result ≡ text_at_most self.now a.now b.now }
    {
        match self {
            Self::Plain(base) => base.at_most(a, b),
            Self::Turned(base) => Turned { inner: *base }.at_most(a, b),
            Self::Exact(base) => Exact { inner: *base }.at_most(a, b),
            Self::Both => BOTH.at_most(a, b),
        }
    }
}

/// Turning an order or asking it both ways changes no label.
impl Spelled for TextOrder {
    ghost spelled = { text_spelled };

    ghost understood = { text_understood };

    ghost spelling = { text_spelling };

    fn numbers(&self, label: &(FlagSet, Span)) -> Option<Numbers>
        ensures { option_map (λ v. v.items) result ≡ text_spelled self.now label.now }
    {
        match self {
            Self::Plain(base) | Self::Turned(base) | Self::Exact(base) => base.numbers(label),
            Self::Both => BOTH.numbers(label),
        }
    }

    fn label(&self, numbers: &[i64]) -> Option<(FlagSet, Span)>
        ensures { result ≡ text_understood self.now numbers.now }
    {
        match self {
            Self::Plain(base) | Self::Turned(base) | Self::Exact(base) => base.label(numbers),
            Self::Both => BOTH.label(numbers),
        }
    }
}

impl TextOrder {
    const ALL: [Self; 7] = [
        Self::Plain(Base::Flags),
        Self::Plain(Base::Band),
        Self::Turned(Base::Flags),
        Self::Turned(Base::Band),
        Self::Exact(Base::Flags),
        Self::Exact(Base::Band),
        Self::Both,
    ];

    /// How it is named between the brackets of its line.
    pub fn letters(self) -> &'static [u8]
        ensures { result.now ≡ order_letters self }
    {
        match self {
            Self::Plain(Base::Flags) => b"flags",
            Self::Plain(Base::Band) => b"band",
            Self::Turned(Base::Flags) => b"turned (flags)",
            Self::Turned(Base::Band) => b"turned (band)",
            Self::Exact(Base::Flags) => b"exact (flags)",
            Self::Exact(Base::Band) => b"exact (band)",
            Self::Both => b"both (flags) (band)",
        }
    }

    /// The order that is named so, if any.
    pub fn named(letters: &[u8]) -> Option<Self>
        ensures { result ≡ order_named letters.now }
    {
        Self::ALL
            .iter()
            .copied()
            .find(|order| order.letters() == letters)
    }
}

impl Word {
    /// Whether a line that names an order begins with it.
    pub(crate) fn is_order(self) -> bool
        ensures { result ≡ is_order_word self }
    {
        matches!(
            self,
            Word::Flags | Word::Band | Word::Turned | Word::Exact | Word::Both
        )
    }
}
