//! Examples of texts of two machines, each proved and then run.
use report::compare;
use std::test::Fail;

/// Texts, and what is printed of each.
const TEXTS: &[(&str, &str)] = &[
    (
        "(flags)\n(machine 1)\n(label 0 1)\n(machine 1)\n(label 0 3)\n",
        "(compared 2)\n(class 0 0)\n(class 1 1)\n(strike 1 0 label)\n(start 0 1 yes)\n",
    ),
    (
        "(turned (flags))\n(machine 1)\n(label 0 1)\n(machine 1)\n(label 0 3)\n",
        "(compared 2)\n(class 0 0)\n(class 1 1)\n(strike 0 1 label)\n(start 0 1 no)\n",
    ),
    // A trace steps from each state to the next.
    (
        "(flags)\n(trace 2)\n(label 0 1)\n(label 1 2)\n(machine 1)\n(label 0 1)\n",
        "(compared 3)\n(class 0 0)\n(class 1 1)\n(class 2 2)\n(strike 0 1 label)\n(strike 1 0 label)\n(strike 1 2 label)\n(strike 2 1 label)\n(strike 0 2 step 1)\n(start 0 2 no)\n",
    ),
    ("", "(refused 4 order 1)\n"),
    ("(flags)\n(machine 1)\n(label 0)\n", "(refused 3 left 3)\n"),
    (
        "(flags)\n(machine 1)\n(label 0 1)\n",
        "(refused 4 left 4)\n",
    ),
    (
        "(flags)\n(machine 1)\n(label 0 1)\n(machine 64)\n",
        "(refused 5 right 4)\n",
    ),
];

#[test]
fn texts_are_compared(rt: HostRuntime) -> Result<(), Fail> {
    for &(text, lines) in TEXTS {
        let report = compare(rt.alloc(), text.as_bytes())?;
        assert_eq!(rt; report.lines.as_str(), lines, "{text}");
        assert_eq!(rt; report.is_refusal, lines.starts_with("(refused"), "{text}");
    }
    Ok(())
}

#[test]
fn texts_are_bounded(rt: HostRuntime) -> Result<(), Fail> {
    let longer = "a".repeat(rt.alloc(), 60_001)?;
    let report = compare(rt.alloc(), longer.as_bytes())?;
    assert_eq!(rt; report.lines.as_str(), "(refused 13 order 1)\n");
    Ok(())
}
