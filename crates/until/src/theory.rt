//! What is proved of walks, for every machine: the theorem stands in the contract of a call that does nothing.
ghost use Rattle.until.specs.Decided.{WalksDecide};

use model::Machine;

/// The test that computes whether there is a walk is right, whatever the conditions.
pub fn walks_decide<M: Machine>(machine: &M)
    ensures { WalksDecide (M.Machine.meaning machine.now) }
{}
