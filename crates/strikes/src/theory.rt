//! What strikes say, for every machine and order: each theorem stands in the contract of a call of its
//! own, by its name; the calls do nothing.
ghost use Rattle.strikes.specs.Statements.{StrikesTell, StandingIsEntailment, AlikeIsSame, StandingIsLargest};

use model::Order;

/// The formula of each strike holds at its first state and fails at its second.
pub fn strikes_tell<O: Order>(order: &O)
    ensures { StrikesTell (O.Order.relation order.now) }
{}

/// What stands, once nothing more can be struck, is exactly the preorder of the until formulas.
pub fn standing_is_entailment<O: Order>(order: &O)
    ensures { StandingIsEntailment (O.Order.relation order.now) }
{}

/// What stands both ways, once nothing more can be struck, is exactly what has the same until formulas.
pub fn alike_is_same<O: Order>(order: &O)
    ensures { AlikeIsSame (O.Order.relation order.now) }
{}

/// What stands, once nothing more can be struck, is the largest simulation.
pub fn standing_is_largest<O: Order>(order: &O)
    ensures { StandingIsLargest (O.Order.relation order.now) }
{}
