//! Examples of where texts are refused, each proved and then run.
use crate::lent::{refusal, refusal_alone};
use std::test::Fail;
use text::Fault;
use text::Side::{self, Left, Order, Right};

const FLAGS: &str = "(flags)\n";

const ONE: &str = "(flags)\n(machine 1)\n(label 0 1)\n";

const TRACE: &str = "(flags)\n(trace 1)\n(label 0 1)\n";

const TWO: &str = "(flags)\n(machine 1)\n(label 0 1)\n(machine 1)\n(label 0 1)\n";

/// Texts of two machines in two parts, and how each is refused.
const TEXTS: &[(&str, &str, u8, Side, usize)] = &[
    // No newline before the end.
    ("", "(flags)", 1, Order, 1),
    ("", "x", 1, Order, 1),
    ("", " ", 1, Order, 1),
    ("", "(nothing)", 1, Order, 1),
    (FLAGS, "(nothing)", 1, Left, 2),
    (FLAGS, "(machine 1)", 1, Left, 2),
    (FLAGS, "(machine 1)\n(label 0 1)", 1, Left, 3),
    (ONE, "(step 0 0)", 1, Left, 4),
    (ONE, "(machine 1)", 1, Left, 4),
    (ONE, "(machine 1)\n(label 0 1)", 1, Right, 5),
    (TWO, "(step 0 0)", 1, Right, 6),
    (TWO, "(", 1, Right, 6),
    // A line is missing.
    ("", "", 4, Order, 1),
    (FLAGS, "", 4, Left, 2),
    (FLAGS, "(machine 1)\n", 4, Left, 3),
    (FLAGS, "(machine 2)\n(label 0 1)\n", 4, Left, 4),
    (FLAGS, "(trace 2)\n(label 0 1)\n", 4, Left, 4),
    (TRACE, "", 4, Left, 4),
    (ONE, "", 4, Left, 4),
    (ONE, "(step 0 0)\n", 4, Left, 5),
    (ONE, "(machine 1)\n", 4, Right, 5),
    (ONE, "(machine 2)\n(label 0 1)\n", 4, Right, 6),
    (ONE, "(step 0 0)\n(machine 1)\n", 4, Right, 6),
    // A line of nothing.
    ("", "\n", 1, Order, 1),
    (FLAGS, "\n", 1, Left, 2),
    (ONE, "\n(machine 1)\n(label 0 1)\n", 1, Left, 4),
    (ONE, "(machine 1)\n\n(label 0 1)\n", 1, Right, 5),
    (TWO, "\n", 1, Right, 6),
    // Only a machine after the left's last label begins the right.
    (FLAGS, "(machine 1)\n(machine 1)\n", 4, Left, 3),
    (FLAGS, "(trace 1)\n(machine 1)\n", 4, Left, 3),
    (FLAGS, "(trace 1)\n(machine 0)\n", 4, Left, 3),
    (ONE, "(trace 1)\n(label 0 1)\n", 4, Left, 4),
    (ONE, "(label 1 1)\n(machine 1)\n", 4, Left, 4),
    (ONE, "(flags)\n(machine 1)\n", 4, Left, 4),
    (ONE, "(step 0 1)\n(machine 1)\n", 4, Left, 4),
    (ONE, "(machines 1)\n(label 0 1)\n", 2, Left, 4),
    (ONE, "(machine 1 )\n(label 0 1)\n", 1, Left, 4),
    (ONE, "(machine x)\n(label 0 1)\n", 3, Right, 4),
    (ONE, "(machine 0)\n(label 0 1)\n", 5, Right, 4),
    (ONE, "(step 0 0)\n(machine)\n", 3, Right, 5),
    (ONE, "(machine 1)\n(step 0 0)\n", 4, Right, 5),
    (ONE, "(machine 1)\n(machine 1)\n", 4, Right, 5),
    (ONE, "(machine 1)\n(nothing)\n", 2, Right, 5),
    (TWO, "(machine 1)\n(label 0 1)\n", 4, Right, 6),
    (TWO, "(step 0 0)\n(step 0 0)\n", 4, Right, 7),
    // No steps under a trace.
    (TRACE, "(step 0 0)\n(machine 1)\n", 4, Left, 4),
    (TRACE, "(step)\n", 4, Left, 4),
    (TRACE, "(machine 0)\n", 5, Right, 4),
    // The first faulty line is named.
    ("", "(flag)\n(machine 1", 2, Order, 1),
    ("", "(machine 1)\n(label 0 1)\n()\n", 4, Order, 1),
    (FLAGS, "(machine 0)\n\n", 5, Left, 2),
    (FLAGS, "(machine 1)\n(label 1 1)\n()\n", 4, Left, 3),
    (ONE, "(machine 64)\n(label 0 01)\n()\n", 5, Right, 4),
];

#[test]
fn places(rt: HostRuntime) -> Result<(), Fail> {
    for &(start, rest, fault, side, line) in TEXTS {
        let text = format!(in rt.alloc(); "{start}{rest}")?;
        let refused = Some((fault, side, line));
        assert_eq!(rt; refusal(text.as_bytes()), refused, "{text:?}");
    }
    Ok(())
}

/// Texts of a machine alone, and how each is refused.
const TEXTS_ALONE: &[(&str, u8, usize)] = &[
    ("", 4, 1),
    ("\n", 1, 1),
    ("(machine 1)", 1, 1),
    ("(machine 1)\n", 4, 2),
    ("(machine 2)\n(label 0 1)\n", 4, 3),
    ("(machine 1)\n(label 0 1)", 1, 2),
    ("(machine 1)\n(label 0 1)\n(step 0 0)", 1, 3),
    ("(machine 1)\n(label 0 1)\n\n", 1, 3),
    ("(machine 1)\n(step 0 0)\n", 4, 2),
    ("(machine 1)\n(machine 1)\n(label 0 1)\n", 4, 2),
    ("(machine 2)\n(label 1 1)\n(label 0 1)\n", 4, 2),
    ("(machine 0)\n(label 0 -1)\n\n", 5, 1),
    ("(flags)\n(machine 1)\n(label 0 1)\n", 2, 1),
    ("(machine 1)\n(label 0 1)\n(machine 1)\n(label 0 1)\n", 4, 3),
];

#[test]
fn places_alone(rt: HostRuntime) {
    for &(text, fault, line) in TEXTS_ALONE {
        let refused = Some((fault, line));
        assert_eq!(rt; refusal_alone(text.as_bytes()), refused, "{text:?}");
    }
}

#[test]
fn faults_have_numbers(rt: HostRuntime) {
    let faults = [
        Fault::NoForm,
        Fault::UnknownWord,
        Fault::WrongItems,
        Fault::OutOfOrder,
        Fault::WrongCount,
        Fault::ShortMemory,
        Fault::TooDeep,
        Fault::TooLong,
    ];
    assert!(rt; faults.map(u8::from) == [1, 2, 3, 4, 5, 6, 12, 13]);
}
