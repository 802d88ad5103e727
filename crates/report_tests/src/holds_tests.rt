//! Examples of texts of an order, a machine and a formula, each proved and then run.
use report::holds;
use std::alloc::{AllocError, Global};
use std::fmt::Write;
use std::test::Fail;

/// Texts, and what is printed of each.
const TEXTS: &[(&str, &str)] = &[
    // A machine of one state.
    (
        "(flags)\n(machine 1)\n(label 0 1)\n(true)\n",
        "(holds 0 yes)\n",
    ),
    (
        "(flags)\n(machine 1)\n(label 0 1)\n(at 1)\n",
        "(holds 0 yes)\n",
    ),
    (
        "(flags)\n(machine 1)\n(label 0 1)\n(at 3)\n",
        "(holds 0 no)\n",
    ),
    (
        "(turned (flags))\n(machine 1)\n(label 0 1)\n(at 3)\n",
        "(holds 0 yes)\n",
    ),
    (
        "(exact (flags))\n(machine 1)\n(label 0 3)\n(at 1)\n",
        "(holds 0 no)\n",
    ),
    (
        "(band)\n(machine 1)\n(label 0 -5 7)\n(at -5 7)\n",
        "(holds 0 yes)\n",
    ),
    (
        "(both (flags) (band))\n(machine 1)\n(label 0 1 2 3)\n(at 1 2 3)\n",
        "(holds 0 yes)\n",
    ),
    // A walk to a state of the second operand, by states of the first.
    (
        "(flags)\n(machine 3)\n(label 0 1)\n(label 1 2)\n(label 2 1)\n(step 0 1)\n(until (at 1) (at 2))\n",
        "(holds 0 yes)\n(holds 1 yes)\n(holds 2 no)\n",
    ),
    (
        "(flags)\n(machine 3)\n(label 0 1)\n(label 1 2)\n(label 2 4)\n(step 0 1)\n(step 1 2)\n(until (at 1) (at 4))\n",
        "(holds 0 no)\n(holds 1 no)\n(holds 2 yes)\n",
    ),
    (
        "(flags)\n(machine 2)\n(label 0 1)\n(label 1 3)\n(and (at 1) (at 2))\n",
        "(holds 0 no)\n(holds 1 yes)\n",
    ),
    // The line of the order.
    ("", "(refused 4 order 1)\n"),
    ("(flags)", "(refused 1 order 1)\n"),
    (
        "(Flags)\n(machine 1)\n(label 0 1)\n(true)\n",
        "(refused 1 order 1)\n",
    ),
    ("(true)\n", "(refused 2 order 1)\n"),
    (
        "(flags 1)\n(machine 1)\n(label 0 1)\n(true)\n",
        "(refused 3 order 1)\n",
    ),
    (
        "(machine 1)\n(label 0 1)\n(true)\n",
        "(refused 4 order 1)\n",
    ),
    // The machine, which is read as one alone.
    ("(flags)\n", "(refused 4 machine 2)\n"),
    ("(flags)\n(true)\n", "(refused 4 machine 2)\n"),
    ("(flags)\n(flags)\n(true)\n", "(refused 2 machine 2)\n"),
    (
        "(flags)\n(trace 1)\n(label 0 1)\n(true)\n",
        "(refused 2 machine 2)\n",
    ),
    (
        "(flags)\n(machine 01)\n(label 0 1)\n(true)\n",
        "(refused 3 machine 2)\n",
    ),
    ("(flags)\n(machine 0)\n(true)\n", "(refused 5 machine 2)\n"),
    ("(flags)\n(machine 65)\n(true)\n", "(refused 5 machine 2)\n"),
    (
        "(flags)\n(machine 1)\n(label 0 -0)\n(true)\n",
        "(refused 3 machine 3)\n",
    ),
    (
        "(flags)\n(machine 1)\n(label 1 1)\n(true)\n",
        "(refused 4 machine 3)\n",
    ),
    (
        "(flags)\n(machine 2)\n(label 0 1)\n(true)\n",
        "(refused 4 machine 4)\n",
    ),
    (
        "(flags)\n(machine 1)\n(label 0 1)\n(step 0 1)\n(true)\n",
        "(refused 4 machine 4)\n",
    ),
    (
        "(flags)\n(machine 1)\n(label 0 1)\n(step 0 0)\n(step 0 0)\n(true)\n",
        "(refused 4 machine 5)\n",
    ),
    (
        "(flags)\n(machine 1)\n(label 0 1)\n(machine 1)\n(label 0 1)\n(true)\n",
        "(refused 4 machine 4)\n",
    ),
    // No line of a formula: it is missing after the machine, or what might be one is no line.
    (
        "(flags)\n(machine 1)\n(label 0 1)\n",
        "(refused 4 machine 4)\n",
    ),
    (
        "(flags)\n(machine 1)\n(label 0 1)\n(true)",
        "(refused 1 machine 4)\n",
    ),
    (
        "(flags)\n(machine 1)\n(label 0 1)\n(and (true) (true)\n",
        "(refused 1 machine 4)\n",
    ),
    (
        "(flags)\n(machine 1)\n(label 0 1)\n(never)\n",
        "(refused 2 machine 4)\n",
    ),
    // The formula.
    (
        "(flags)\n(machine 1)\n(label 0 1)\n(true 1)\n",
        "(refused 3 formula 4)\n",
    ),
    (
        "(flags)\n(machine 1)\n(label 0 1)\n(at)\n",
        "(refused 3 formula 4)\n",
    ),
    (
        "(flags)\n(machine 1)\n(label 0 1)\n(at 1 2)\n",
        "(refused 3 formula 4)\n",
    ),
    (
        "(band)\n(machine 1)\n(label 0 1 2)\n(at 2 1)\n",
        "(refused 3 formula 4)\n",
    ),
    (
        "(flags)\n(machine 1)\n(label 0 1)\n(until (true))\n",
        "(refused 3 formula 4)\n",
    ),
    (
        "(flags)\n(machine 1)\n(label 0 1)\n(step 0 0)\n(and (true) (flags))\n",
        "(refused 3 formula 5)\n",
    ),
    (
        "(flags)\n(machine 1)\n(label 0 1)\n(true)\n(true)\n",
        "(refused 4 formula 5)\n",
    ),
    (
        "(flags)\n(machine 1)\n(label 0 1)\n(true)\n(step 0 0)\n",
        "(refused 4 formula 5)\n",
    ),
    (
        "(flags)\n(machine 1)\n(label 0 1)\n(true)\n\n",
        "(refused 4 formula 5)\n",
    ),
    (
        "(flags)\n(machine 1)\n(label 0 1)\n(true)\nx",
        "(refused 4 formula 5)\n",
    ),
    // The first fault of several.
    (
        "(flags)\n(machine 1)\n(label 0)\n(at)\n",
        "(refused 3 machine 3)\n",
    ),
    ("(flag)\n(machine 0)\n(at)\n", "(refused 2 order 1)\n"),
];

#[test]
fn texts_are_answered(rt: HostRuntime) -> Result<(), Fail> {
    for &(text, lines) in TEXTS {
        let report = holds(rt.alloc(), text.as_bytes())?;
        assert_eq!(rt; report.lines.as_str(), lines, "{text}");
        assert_eq!(rt; report.is_refusal, lines.starts_with("(refused"), "{text}");
    }
    Ok(())
}

/// A formula whose brackets are nested so deep, after a machine of one state.
fn nested(heap: Global, depth: usize) -> Result<String, AllocError> {
    let mut text = String::new(heap);
    write!(text, "(flags)\n(machine 1)\n(label 0 1)\n")?;
    for _ in 1..depth {
        write!(text, "(and ")?;
    }
    write!(text, "(true)")?;
    for _ in 1..depth {
        write!(text, " (true))")?;
    }
    writeln!(text, "")?;
    Ok(text)
}

#[test]
fn formulas_are_not_nested_too_deep(rt: HostRuntime) -> Result<(), Fail> {
    let deep = nested(rt.alloc(), 32)?;
    let report = holds(rt.alloc(), deep.as_bytes())?;
    assert_eq!(rt; report.lines.as_str(), "(holds 0 yes)\n");
    let deeper = nested(rt.alloc(), 33)?;
    let report = holds(rt.alloc(), deeper.as_bytes())?;
    assert_eq!(rt; report.lines.as_str(), "(refused 12 formula 4)\n");
    Ok(())
}

#[test]
fn texts_are_bounded(rt: HostRuntime) -> Result<(), Fail> {
    let letters = "a".repeat(rt.alloc(), 60_000)?;
    let report = holds(rt.alloc(), letters.as_bytes())?;
    assert_eq!(rt; report.lines.as_str(), "(refused 1 order 1)\n");
    let longer = "a".repeat(rt.alloc(), 60_001)?;
    let report = holds(rt.alloc(), longer.as_bytes())?;
    assert_eq!(rt; report.lines.as_str(), "(refused 13 order 1)\n");
    Ok(())
}
