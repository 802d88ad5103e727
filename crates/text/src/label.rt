//! Labels as numbers.
ghost use Rattle.std.specs.Prelude.{◌≡◌, List, ℤ, Option, option_map};
ghost use Rattle.text.specs.Spelling.{Spelling, flags_spelled, flags_understood, band_spelled, band_understood, both_spelled, both_understood};
ghost use Rattle.text.specs.SpellingLaws.{flags_spelling, band_spelling, both_spelling};

use arrayvec::ArrayVec;
use model::{Band, Both, Exact, FlagSet, Flags, Order, Span, Turned};

/// The most numbers that write a label.
pub const LABEL_NUMBERS: usize = 3;

/// The numbers of a label.
pub type Numbers = ArrayVec<i64, LABEL_NUMBERS>;

/// Orders whose labels a text can hold, as numbers.
pub trait Spelled: Order {
    /// The numbers that write a label, where it can be written.
    ghost spelled: { Self → Self.Label → Option (List ℤ) };

    /// The label that numbers write, if any.
    ghost understood: { Self → List ℤ → Option Self.Label };

    /// The numbers that write a label, where it can be written.
    fn numbers(&self, label: &Self::Label) -> Option<Numbers>
        ensures { option_map (λ v. v.items) result ≡ spelled self.now label.now };

    /// The label that the numbers write, if any.
    fn label(&self, numbers: &[i64]) -> Option<Self::Label>
        ensures { result ≡ understood self.now numbers.now };

    /// The two are inverse to each other, and the numbers are few and small.
    ghost spelling: { (o : Self) → Spelling (spelled o) (understood o) };
}

/// A set of flags is one number.
impl Spelled for Flags {
    ghost spelled = { λ _. flags_spelled };

    ghost understood = { λ _. flags_understood };

    ghost spelling = { λ _. flags_spelling };

    fn numbers(&self, label: &FlagSet) -> Option<Numbers>
        ensures { option_map (λ v. v.items) result ≡ flags_spelled label.now }
    {
        ArrayVec::try_from([i64::from(label.bits)].as_slice()).ok()
    }

    fn label(&self, numbers: &[i64]) -> Option<FlagSet>
        ensures { result ≡ flags_understood numbers.now }
    {
        let [bits] = numbers else { return None };
        let bits = u32::try_from(*bits).ok()?;
        Some(FlagSet { bits })
    }
}

/// A band is its low and its high.
impl Spelled for Band {
    ghost spelled = { λ _. band_spelled };

    ghost understood = { λ _. band_understood };

    ghost spelling = { λ _. band_spelling };

    fn numbers(&self, label: &Span) -> Option<Numbers>
        ensures { option_map (λ v. v.items) result ≡ band_spelled label.now }
    {
        if label.low > label.high {
            return None;
        }
        ArrayVec::try_from([i64::from(label.low), i64::from(label.high)].as_slice()).ok()
    }

    fn label(&self, numbers: &[i64]) -> Option<Span>
        ensures { result ≡ band_understood numbers.now }
    {
        match numbers {
            [low, high] if low <= high => Some(Span {
                low: i16::try_from(*low).ok()?,
                high: i16::try_from(*high).ok()?,
            }),
            _ => None,
        }
    }
}

/// A pair is its flags, and then its band.
impl Spelled for Both<Flags, Band> {
    ghost spelled = { λ _. both_spelled };

    ghost understood = { λ _. both_understood };

    ghost spelling = { λ _. both_spelling };

    fn numbers(&self, label: &(FlagSet, Span)) -> Option<Numbers>
        ensures { option_map (λ v. v.items) result ≡ both_spelled label.now }
    {
        let mut numbers = self.first.numbers(&label.0)?;
        let band = self.second.numbers(&label.1)?;
        numbers.try_extend_from_slice(&band).ok()?;
        Some(numbers)
    }

    fn label(&self, numbers: &[i64]) -> Option<(FlagSet, Span)>
        ensures { result ≡ both_understood numbers.now }
    {
        let (flags, band) = numbers.split_at_checked(1)?;
        Some((self.first.label(flags)?, self.second.label(band)?))
    }
}

/// Labels are those of the order below.
impl<O: Spelled> Spelled for Turned<O> {
    ghost spelled = { λ o. O.Spelled.spelled o.inner };

    ghost understood = { λ o. O.Spelled.understood o.inner };

    ghost spelling = { λ o. O.Spelled.spelling o.inner };

    fn numbers(&self, label: &O::Label) -> Option<Numbers>
        ensures { option_map (λ v. v.items) result ≡ O.Spelled.spelled self.now.inner label.now }
    {
        self.inner.numbers(label)
    }

    fn label(&self, numbers: &[i64]) -> Option<O::Label>
        ensures { result ≡ O.Spelled.understood self.now.inner numbers.now }
    {
        self.inner.label(numbers)
    }
}

/// Labels are those of the order below.
impl<O: Spelled> Spelled for Exact<O> {
    ghost spelled = { λ o. O.Spelled.spelled o.inner };

    ghost understood = { λ o. O.Spelled.understood o.inner };

    ghost spelling = { λ o. O.Spelled.spelling o.inner };

    fn numbers(&self, label: &O::Label) -> Option<Numbers>
        ensures { option_map (λ v. v.items) result ≡ O.Spelled.spelled self.now.inner label.now }
    {
        self.inner.numbers(label)
    }

    fn label(&self, numbers: &[i64]) -> Option<O::Label>
        ensures { result ≡ O.Spelled.understood self.now.inner numbers.now }
    {
        self.inner.label(numbers)
    }
}
