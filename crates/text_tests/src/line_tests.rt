//! Examples of lines of a machine that are refused, each proved and then run.
use crate::lent::{refusal, refusal_alone};
use std::test::Fail;
use text::Side;

/// Lines, and what is wrong with each where a machine's header is due.
const HEADERS: &[(&str, u8)] = &[
    ("(machine 1", 1),
    ("(machine 1 )", 1),
    ("(machine  1)", 1),
    ("(machine 1) ", 1),
    ("(machine +1)", 1),
    ("(machine 1.0)", 1),
    ("(Machine 1)", 1),
    ("(machine(1))", 1),
    ("", 1),
    ("(machine1)", 2),
    ("(machines 1)", 2),
    ("(state +1", 1),
    ("(state)", 2),
    ("(machine)", 3),
    ("(machine 1 1)", 3),
    ("(machine 1 1 1 1 1)", 3),
    ("(machine x)", 3),
    ("(machine 1x)", 3),
    ("(machine ())", 3),
    ("(machine (1))", 3),
    ("(machine (flags))", 3),
    ("(machine 01)", 3),
    ("(machine 00)", 3),
    ("(machine -0)", 3),
    ("(machine -1)", 3),
    ("(machine -)", 3),
    ("(machine 1-)", 3),
    ("(machine --1)", 3),
    ("(machine 65536)", 3),
    ("(machine 65537)", 3),
    ("(machine 4294967297)", 3),
    ("(machine 18446744073709551617)", 3),
    ("(machine 0 0)", 3),
    ("(machine 065)", 3),
    ("(machine 0)", 5),
    ("(machine 65)", 5),
    ("(machine 257)", 5),
    ("(machine 65535)", 5),
];

// On the right a line without a fault of its form or its word is the right's.
#[test]
fn headers(rt: HostRuntime) -> Result<(), Fail> {
    for &(line, fault) in HEADERS {
        let left = format!(in rt.alloc();
            "(flags)\n{line}\n(label 0 1)\n(machine 1)\n(label 0 1)\n"
        )?;
        let refused = Some((fault, Side::Left, 2));
        assert_eq!(rt; refusal(left.as_bytes()), refused, "{line:?}");
        let right = format!(in rt.alloc();
            "(flags)\n(machine 1)\n(label 0 1)\n{line}\n(label 0 1)\n"
        )?;
        let side = if fault > 2 { Side::Right } else { Side::Left };
        let refused = Some((fault, side, 4));
        assert_eq!(rt; refusal(right.as_bytes()), refused, "{line:?}");
        let alone = format!(in rt.alloc(); "{line}\n(label 0 1)\n")?;
        let refused = Some((fault, 1));
        assert_eq!(rt; refusal_alone(alone.as_bytes()), refused, "{line:?}");
    }
    Ok(())
}

/// Lines, what is wrong with each where the left's header is due, and where a header alone is.
const NO_HEADERS: &[(&str, u8, u8)] = &[
    ("(trace)", 3, 2),
    ("(trace 1 1)", 3, 2),
    ("(trace 01)", 3, 2),
    ("(trace -0)", 3, 2),
    ("(trace 65536)", 3, 2),
    ("(trace 65535)", 5, 2),
    ("(trace 65)", 5, 2),
    ("(trace 0)", 5, 2),
    ("(flags)", 4, 2),
    ("(band)", 4, 2),
    ("(turned ())", 4, 2),
    ("(exact (band))", 4, 2),
    ("(both)", 4, 2),
    ("(label 0 1)", 4, 4),
    ("(label x)", 4, 4),
    ("(step 0 0)", 4, 4),
    ("(step)", 4, 4),
];

#[test]
fn no_headers(rt: HostRuntime) -> Result<(), Fail> {
    for &(line, fault, fault_alone) in NO_HEADERS {
        let left = format!(in rt.alloc();
            "(flags)\n{line}\n(label 0 1)\n(machine 1)\n(label 0 1)\n"
        )?;
        let refused = Some((fault, Side::Left, 2));
        assert_eq!(rt; refusal(left.as_bytes()), refused, "{line:?}");
        let alone = format!(in rt.alloc(); "{line}\n(label 0 1)\n")?;
        let refused = Some((fault_alone, 1));
        assert_eq!(rt; refusal_alone(alone.as_bytes()), refused, "{line:?}");
    }
    Ok(())
}

/// Lines, and what is wrong with each where the label of state 1 is due.
const LABELS: &[(&str, u8)] = &[
    ("(label 1 5", 1),
    ("(label 1 +5)", 1),
    ("(label 1  5)", 1),
    ("(labels 1 5)", 2),
    ("(label1 5)", 2),
    ("(label)", 3),
    ("(label 1)", 3),
    ("(label 1 5 5)", 3),
    ("(label 1 5 5 5)", 3),
    ("(label 1 5 5 5 5)", 3),
    ("(label 1 x)", 3),
    ("(label x 5)", 3),
    ("(label 1 (5))", 3),
    ("(label (1) 5)", 3),
    ("(label 1 05)", 3),
    ("(label 01 5)", 3),
    ("(label 1 -0)", 3),
    ("(label -0 5)", 3),
    ("(label 1 -1)", 3),
    ("(label -1 5)", 3),
    ("(label 1 4294967296)", 3),
    ("(label 1 18446744073709551621)", 3),
    ("(label 65536 5)", 3),
    ("(label 65537 5)", 3),
    ("(label 0 05)", 3),
    ("(label 2 4294967296)", 3),
    ("(label 65535 -1)", 3),
    ("(label 0 5)", 4),
    ("(label 2 5)", 4),
    ("(label 65535 5)", 4),
    ("(machine 1)", 4),
    ("(machine 0)", 4),
    ("(machine 65536)", 4),
    ("(machine x)", 4),
    ("(step 0 0)", 4),
    ("(step 0)", 4),
];

#[test]
fn labels(rt: HostRuntime) -> Result<(), Fail> {
    for &(line, fault) in LABELS {
        let two = format!(in rt.alloc(); "(machine 2)\n(label 0 5)\n{line}\n")?;
        let left = format!(in rt.alloc(); "(flags)\n{two}(machine 1)\n(label 0 1)\n")?;
        let refused = Some((fault, Side::Left, 4));
        assert_eq!(rt; refusal(left.as_bytes()), refused, "{line:?}");
        let right = format!(in rt.alloc(); "(flags)\n(trace 1)\n(label 0 1)\n{two}")?;
        let refused = Some((fault, Side::Right, 6));
        assert_eq!(rt; refusal(right.as_bytes()), refused, "{line:?}");
        assert_eq!(rt; refusal_alone(two.as_bytes()), Some((fault, 3)), "{line:?}");
    }
    Ok(())
}

/// Labels of bands, and of flags with bands, and what is wrong with each where the label of state 0 is due.
const BANDS: &[(&str, &str, u8)] = &[
    ("band", "(label 0)", 3),
    ("band", "(label 0 5)", 3),
    ("band", "(label 0 5 5 5)", 3),
    ("band", "(label 0 5 4)", 3),
    ("band", "(label 0 -4 -5)", 3),
    ("band", "(label 0 32767 -32768)", 3),
    ("band", "(label 0 -32769 0)", 3),
    ("band", "(label 0 0 32768)", 3),
    ("band", "(label 0 32768 32768)", 3),
    ("band", "(label 0 -32769 -32769)", 3),
    ("band", "(label 0 0 65535)", 3),
    ("band", "(label 0 -0 5)", 3),
    ("band", "(label 0 -05 5)", 3),
    ("band", "(label 0 5 05)", 3),
    ("band", "(label 0 -99999999999999999999 5)", 3),
    ("band", "(label 1 5 4)", 3),
    ("band", "(label 1 4 5)", 4),
    ("turned (band)", "(label 0 5)", 3),
    ("turned (band)", "(label 0 5 4)", 3),
    ("exact (band)", "(label 0 5)", 3),
    ("exact (band)", "(label 0 5 4)", 3),
    ("turned (flags)", "(label 0 5 5)", 3),
    ("exact (flags)", "(label 0 5 5)", 3),
    ("exact (flags)", "(label 0 4294967296)", 3),
    ("both (flags) (band)", "(label 0 1)", 3),
    ("both (flags) (band)", "(label 0 1 4)", 3),
    ("both (flags) (band)", "(label 0 1 4 5 6)", 3),
    ("both (flags) (band)", "(label 0 1 5 4)", 3),
    ("both (flags) (band)", "(label 0 -1 4 5)", 3),
    ("both (flags) (band)", "(label 0 4294967296 4 5)", 3),
    ("both (flags) (band)", "(label 0 1 -32769 5)", 3),
    ("both (flags) (band)", "(label 0 1 4 32768)", 3),
    ("both (flags) (band)", "(label 1 1 5 4)", 3),
    ("both (flags) (band)", "(label 1 1 4 5)", 4),
];

#[test]
fn bands(rt: HostRuntime) -> Result<(), Fail> {
    for &(order, line, fault) in BANDS {
        let text = format!(in rt.alloc(); "({order})\n(trace 1)\n{line}\n(machine 1)\n{line}\n")?;
        let refused = Some((fault, Side::Left, 3));
        assert_eq!(rt; refusal(text.as_bytes()), refused, "{order} {line}");
    }
    Ok(())
}

/// Lines, and what is wrong with each after a step from 1 to 1, of three states.
const STEPS: &[(&str, u8)] = &[
    ("(step 1 2", 1),
    ("(step 1 +2)", 1),
    ("(step 1 2 )", 1),
    ("(steps 1 2)", 2),
    ("(stop 1 2)", 2),
    ("(step)", 3),
    ("(step 1)", 3),
    ("(step 1 2 2)", 3),
    ("(step 1 2 2 2 2)", 3),
    ("(step x 2)", 3),
    ("(step 1 x)", 3),
    ("(step (1) 2)", 3),
    ("(step 1 ())", 3),
    ("(step 01 2)", 3),
    ("(step 1 02)", 3),
    ("(step -0 2)", 3),
    ("(step 1 -0)", 3),
    ("(step -1 2)", 3),
    ("(step 1 -2)", 3),
    ("(step 65536 2)", 3),
    ("(step 1 65536)", 3),
    ("(step 65537 2)", 3),
    ("(step 1 65538)", 3),
    ("(step 1 4294967298)", 3),
    ("(step 9 02)", 3),
    ("(step 0 65536)", 3),
    ("(step 1 1)", 4),
    ("(step 1 0)", 4),
    ("(step 0 0)", 4),
    ("(step 0 2)", 4),
    ("(step 1 3)", 4),
    ("(step 2 3)", 4),
    ("(step 0 5)", 4),
    ("(step 0 8)", 4),
    ("(step 3 0)", 4),
    ("(step 3 3)", 4),
    ("(step 1 65535)", 4),
    ("(step 65535 0)", 4),
    ("(step 65535 65535)", 4),
    ("(label 3 5)", 4),
    ("(label)", 4),
];

#[test]
fn steps(rt: HostRuntime) -> Result<(), Fail> {
    for &(line, fault) in STEPS {
        let three = format!(in rt.alloc();
            "(machine 3)\n(label 0 1)\n(label 1 2)\n(label 2 4)\n(step 1 1)\n{line}\n"
        )?;
        let left = format!(in rt.alloc(); "(flags)\n{three}(machine 1)\n(label 0 1)\n")?;
        let refused = Some((fault, Side::Left, 7));
        assert_eq!(rt; refusal(left.as_bytes()), refused, "{line:?}");
        let right = format!(in rt.alloc(); "(flags)\n(trace 1)\n(label 0 1)\n{three}")?;
        let refused = Some((fault, Side::Right, 9));
        assert_eq!(rt; refusal(right.as_bytes()), refused, "{line:?}");
        let refused = Some((fault, 6));
        assert_eq!(rt; refusal_alone(three.as_bytes()), refused, "{line:?}");
    }
    Ok(())
}

/// Lines of words that are not due once the right or a machine alone has its labels, and what is wrong with each.
const ENDS: &[(&str, u8, u8)] = &[
    ("(machine 1)", 4, 4),
    ("(machine 0)", 4, 4),
    ("(machine)", 4, 4),
    ("(trace 1)", 4, 2),
    ("(flags)", 4, 2),
    ("(turned (flags))", 4, 2),
    ("(label 1 1)", 4, 4),
    ("(end)", 2, 2),
    ("()", 1, 1),
    ("", 1, 1),
];

// After its last label, and after its last step.
#[test]
fn ends(rt: HostRuntime) -> Result<(), Fail> {
    for &(line, fault, fault_alone) in ENDS {
        for (steps, count) in [("", 0), ("(step 0 0)\n", 1)] {
            let one = format!(in rt.alloc(); "(machine 1)\n(label 0 1)\n{steps}{line}\n")?;
            let refused = Some((fault_alone, 3 + count));
            assert_eq!(rt; refusal_alone(one.as_bytes()), refused, "{line:?}");
            let two = format!(in rt.alloc(); "(flags)\n(trace 1)\n(label 0 1)\n{one}")?;
            let refused = Some((fault, Side::Right, 6 + count));
            assert_eq!(rt; refusal(two.as_bytes()), refused, "{line:?}");
        }
    }
    Ok(())
}
