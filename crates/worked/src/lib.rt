//! Cases worked by hand, shown to follow from the definitions.
#![tactic(auto)]

ghost use Rattle.worked.specs.Cases.{WorkedByHand};

/// The worked cases hold.
pub fn worked_cases()
    ensures { WorkedByHand }
{}
