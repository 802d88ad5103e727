//! Labels that are bands of numbers.
ghost use Rattle.std.specs.Prelude.{◌≡◌};
ghost use Rattle.model.specs.Orders.{band_at_most};
ghost use Rattle.model.specs.OrderLaws.{band_lawful};

use crate::order::Order;

/// The numbers from `low` to `high`. A low above its high is compared as any other.
#[derive(Clone, Copy, PartialEq, Eq, Debug)]
pub struct Span {
    pub low: i16,
    pub high: i16,
}

/// The order by bands: a label is at most those that lie inside it, so the wider is the lesser.
#[derive(Clone, Copy, PartialEq, Eq, Debug)]
pub struct Band {}

impl Order for Band {
    type Label = Span;

    ghost relation = { λ _. band_at_most };

    ghost lawful = { λ _. band_lawful };

    fn at_most(&self, a: &Span, b: &Span) -> bool
        ensures { result ≡ band_at_most a.now b.now }
    {
        a.low <= b.low && b.high <= a.high
    }
}
