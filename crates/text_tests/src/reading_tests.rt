//! Examples of texts that are read, each proved and then run.
use crate::lent::{Lent, Pair, pair, read, read_alone, sevens};
use model::{Band, Both, Exact, FlagSet, Flags, Span, Turned};
use std::test::Fail;
use text::{Base, Form, SideRead, TextOrder, TwoRead};

/// The orders that a text may name, and how.
const ORDERS: [(&str, TextOrder); 7] = [
    ("(flags)", TextOrder::Plain(Base::Flags)),
    ("(band)", TextOrder::Plain(Base::Band)),
    ("(turned (flags))", TextOrder::Turned(Base::Flags)),
    ("(turned (band))", TextOrder::Turned(Base::Band)),
    ("(exact (flags))", TextOrder::Exact(Base::Flags)),
    ("(exact (band))", TextOrder::Exact(Base::Band)),
    ("(both (flags) (band))", TextOrder::Both),
];

/// Labels as a text under an order has them, and what they are.
fn labels_of(order: TextOrder) -> [(&'static str, Pair); 3] {
    match order {
        TextOrder::Plain(Base::Flags)
        | TextOrder::Turned(Base::Flags)
        | TextOrder::Exact(Base::Flags) => [
            ("4294967295", pair(4294967295, 0, 0)),
            ("0", pair(0, 0, 0)),
            ("5", pair(5, 0, 0)),
        ],
        TextOrder::Plain(Base::Band)
        | TextOrder::Turned(Base::Band)
        | TextOrder::Exact(Base::Band) => [
            ("-32768 32767", pair(0, -32768, 32767)),
            ("0 0", pair(0, 0, 0)),
            ("-10 -1", pair(0, -10, -1)),
        ],
        TextOrder::Both => [
            ("4294967295 -32768 32767", pair(4294967295, -32768, 32767)),
            ("0 0 0", pair(0, 0, 0)),
            ("10 -1 9", pair(10, -1, 9)),
        ],
    }
}

// What stands past a side's labels and past its n×n bytes stays.
#[test]
fn orders_are_read(rt: HostRuntime) -> Result<(), Fail> {
    for (name, order) in ORDERS {
        let [(a, first), (b, second), (c, third)] = labels_of(order);
        let before = format!(in rt.alloc();
            "{name}\n(machine 2)\n(label 0 {a})\n(label 1 {b})\n(step 0 1)\n(step 1 0)\n(step 1 1)\n"
        )?;
        let text = format!(in rt.alloc();
            "{before}(machine 3)\n(label 0 {c})\n(label 1 {b})\n(label 2 {a})\n(step 0 0)\n(step 0 2)\n(step 2 1)\n"
        )?;
        let mut left = sevens();
        let mut right = sevens();
        let said = TwoRead {
            order,
            left: SideRead {
                form: Form::Machine,
                count: 2,
            },
            right: 3,
        };
        assert!(rt;
            read(text.as_bytes(), &mut left, &mut right) == Ok(said),
            "{name}"
        );
        let lefts = sevens().with(&[first, second], &[0, 1, 1, 1]);
        let rights = sevens().with(&[third, second, first], &[1, 0, 1, 0, 0, 0, 0, 1, 0]);
        assert!(rt; left == lefts && right == rights, "{name}");
    }
    Ok(())
}

// A trace on the left has no step bytes, and a machine without steps has zeros.
#[test]
fn traces_are_read(rt: HostRuntime) -> Result<(), Fail> {
    for (name, order) in ORDERS {
        let [(a, first), (b, second), (c, third)] = labels_of(order);
        let text = format!(in rt.alloc();
            "{name}\n(trace 3)\n(label 0 {b})\n(label 1 {a})\n(label 2 {a})\n(machine 2)\n(label 0 {c})\n(label 1 {b})\n"
        )?;
        let mut left = sevens();
        let mut right = sevens();
        let said = TwoRead {
            order,
            left: SideRead {
                form: Form::Trace,
                count: 3,
            },
            right: 2,
        };
        assert!(rt;
            read(text.as_bytes(), &mut left, &mut right) == Ok(said),
            "{name}"
        );
        let lefts = sevens().with(&[second, first, first], &[]);
        let rights = sevens().with(&[third, second], &[0; 4]);
        assert!(rt; left == lefts && right == rights, "{name}");
    }
    Ok(())
}

// Labels of one, two and three numbers.
#[test]
fn machines_alone_are_read(rt: HostRuntime) {
    let flags = b"(machine 2)\n(label 0 0)\n(label 1 4294967295)\n(step 0 0)\n(step 1 0)\n";
    let said = [FlagSet { bits: 0 }, FlagSet { bits: 4294967295 }];
    let mut lent = Lent::of(FlagSet { bits: 7 });
    let wanted = lent.with(&said, &[1, 0, 1, 0]);
    assert_eq!(rt;
        read_alone(&Turned { inner: Flags {} }, flags, &mut lent),
        Ok(2)
    );
    assert!(rt; lent == wanted);
    let band = b"(machine 1)\n(label 0 -32768 32767)\n(step 0 0)\n";
    let mut lent = Lent::of(Span { low: 7, high: 7 });
    let wanted = lent.with(
        &[Span {
            low: -32768,
            high: 32767,
        }],
        &[1],
    );
    assert_eq!(rt;
        read_alone(&Exact { inner: Band {} }, band, &mut lent),
        Ok(1)
    );
    assert!(rt; lent == wanted);
    let order = Both {
        first: Flags {},
        second: Band {},
    };
    let mut lent = sevens();
    let wanted = lent.with(&[pair(12, -3, -2)], &[0]);
    assert_eq!(rt;
        read_alone(&order, b"(machine 1)\n(label 0 12 -3 -2)\n", &mut lent),
        Ok(1)
    );
    assert!(rt; lent == wanted);
}
