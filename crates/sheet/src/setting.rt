//! What the pairs of states are struck by.

/// A machine, and the order under which its labels are compared. It has no model: what the two mean are functions, and the
/// value of a model can hold none.
#[derive_where(Clone, Copy)]
pub struct Setting<'a, M, O> {
    pub machine: &'a M,
    pub order: &'a O,
}
