//! Labels that are sets of flags.
ghost use Rattle.std.specs.Prelude.{◌≡◌, Decides};
ghost use Rattle.model.specs.Orders.{flags_at_most, Within};
ghost use Rattle.model.specs.OrderLaws.{flags_lawful};

use crate::order::Order;

/// A set of 32 flags: flag i is in it where bit i is set.
#[derive(Clone, Copy, PartialEq, Eq, Debug)]
pub struct FlagSet {
    pub bits: u32,
}

impl FlagSet {
    /// Whether every flag of this set is in `other`.
    #[tactic(auto, using(crate::proofs::Masks::masked, crate::proofs::Masks::mask_means))]
    pub fn is_within(self, other: FlagSet) -> bool
        ensures test { result ≡ flags_at_most self other }
        ensures means { Decides result (Within self other) }
    {
        self.bits & other.bits == self.bits
    }
}

/// The order by flags: a label is at most those that have all its flags.
#[derive(Clone, Copy, PartialEq, Eq, Debug)]
pub struct Flags {}

impl Order for Flags {
    type Label = FlagSet;

    ghost relation = { λ _. flags_at_most };

    ghost lawful = { λ _. flags_lawful };

    fn at_most(&self, a: &FlagSet, b: &FlagSet) -> bool
        ensures { result ≡ flags_at_most a.now b.now }
    {
        a.is_within(*b)
    }
}
