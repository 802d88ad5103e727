//! Orders on labels.
ghost use Rattle.std.specs.Prelude.{◌≡◌, Bool};
ghost use Rattle.model.specs.Orders.{Preorder};

/// An order on labels. It may carry settings, so it is a value and is passed by reference.
pub trait Order {
    type Label: Copy;

    /// "a is at most b", as a relation on labels.
    ghost relation: { Self → Self.Label → Self.Label → Bool };

    /// The relation is reflexive and transitive.
    ghost lawful: { (o : Self) → Preorder (relation o) };

    /// Whether `a` is at most `b`.
    fn at_most(&self, a: &Self::Label, b: &Self::Label) -> bool
        ensures { result ≡ relation self.now a.now b.now };
}

/// The two laws of every order, and so of every pile of layers over any orders.
pub fn order_laws<O: Order>(order: &O)
    ensures { Preorder (O.Order.relation order.now) }
{}
