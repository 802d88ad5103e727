//! Orders made of other orders.
ghost use Rattle.std.specs.Prelude.{◌≡◌};
ghost use Rattle.model.specs.Orders.{turned_at_most, exact_at_most, both_at_most};
ghost use Rattle.model.specs.OrderLaws.{turned_lawful, exact_lawful, both_lawful};

use crate::order::Order;

/// The order below with its sides exchanged.
#[derive(Clone, Copy, PartialEq, Eq, Debug)]
pub struct Turned<O> {
    pub inner: O,
}

impl<O: Order> Order for Turned<O> {
    type Label = O::Label;

    ghost relation = { λ o. turned_at_most (O.Order.relation o.inner) };

    ghost lawful = { λ o. turned_lawful (O.Order.lawful o.inner) };

    fn at_most(&self, a: &O::Label, b: &O::Label) -> bool
        ensures { result ≡ turned_at_most (O.Order.relation self.now.inner) a.now b.now }
    {
        self.inner.at_most(b, a)
    }
}

/// The order below, asked both ways.
#[derive(Clone, Copy, PartialEq, Eq, Debug)]
pub struct Exact<O> {
    pub inner: O,
}

impl<O: Order> Order for Exact<O> {
    type Label = O::Label;

    ghost relation = { λ o. exact_at_most (O.Order.relation o.inner) };

    ghost lawful = { λ o. exact_lawful (O.Order.lawful o.inner) };

    fn at_most(&self, a: &O::Label, b: &O::Label) -> bool
        ensures { result ≡ exact_at_most (O.Order.relation self.now.inner) a.now b.now }
    {
        self.inner.at_most(a, b) && self.inner.at_most(b, a)
    }
}

/// Two orders on pairs of labels: both must agree.
#[derive(Clone, Copy, PartialEq, Eq, Debug)]
pub struct Both<A, B> {
    pub first: A,
    pub second: B,
}

impl<A: Order, B: Order> Order for Both<A, B> {
    type Label = (A::Label, B::Label);

    ghost relation = { λ o. both_at_most (A.Order.relation o.first) (B.Order.relation o.second) };

    ghost lawful = { λ o. both_lawful (A.Order.lawful o.first) (B.Order.lawful o.second) };

    fn at_most(&self, a: &(A::Label, B::Label), b: &(A::Label, B::Label)) -> bool
        ensures { result ≡ both_at_most (A.Order.relation self.now.first) (B.Order.relation self.now.second) a.now b.now }
    {
        self.first.at_most(&a.0, &b.0) && self.second.at_most(&a.1, &b.1)
    }
}
