//! Examples of lines that name no order, each proved and then run.
use crate::lent::refusal;
use std::test::Fail;
use text::Side;

/// Lines, and what is wrong with each where a line names an order.
const LINES: &[(&str, u8)] = &[
    // Not one bracketed form from the first byte to the last.
    ("", 1),
    ("(", 1),
    (")", 1),
    ("flags", 1),
    ("(flags", 1),
    ("flags)", 1),
    ("(flags))", 1),
    ("(flags) ", 1),
    (" (flags)", 1),
    ("(flags)(band)", 1),
    ("(flags) (band)", 1),
    ("(flags)a", 1),
    ("(turned (flags)", 1),
    ("(turned (flags)))", 1),
    ("(both (flags) (band)", 1),
    // No letter after the first bracket.
    ("()", 1),
    ("(5)", 1),
    ("(-)", 1),
    ("(5flags)", 1),
    ("( flags)", 1),
    ("((flags))", 1),
    ("(Flags)", 1),
    // A neighbour that may not stand there.
    ("(turned ((flags)))", 1),
    ("(turned ( flags))", 1),
    ("(turned(flags))", 1),
    ("(turned a(b))", 1),
    ("(turned 5(b))", 1),
    ("(turned  (flags))", 1),
    ("(flags )", 1),
    ("(turned (flags) )", 1),
    ("(turned (flags )", 1),
    ("(turned (a)(b))", 1),
    ("(turned (a)b)", 1),
    ("(turned (a)5)", 1),
    ("(turned (a)-)", 1),
    // No byte of a line.
    ("(turned (Flags))", 1),
    ("(turned (flags) é)", 1),
    ("(turned +5)", 1),
    ("(turned\t(flags))", 1),
    ("(flags)\r", 1),
    ("(both (flags), (band))", 1),
    // No word of a text.
    ("(a)", 2),
    ("(flag)", 2),
    ("(flagss)", 2),
    ("(flags5)", 2),
    ("(flags-)", 2),
    ("(order)", 2),
    ("(turning (flags))", 2),
    ("(not (flags))", 2),
    ("(at 5)", 2),
    ("(until (at 1) (at 2))", 2),
    ("(holds 0 yes)", 2),
    // An order with other items.
    ("(flags 5)", 3),
    ("(flags ())", 3),
    ("(band -5 5)", 3),
    ("(band (flags))", 3),
    ("(turned)", 3),
    ("(turned ())", 3),
    ("(turned (5))", 3),
    ("(turned (-5))", 3),
    ("(turned (a) a)", 3),
    ("(turned flags)", 3),
    ("(turned (flags) (flags))", 3),
    ("(turned (turned (flags)))", 3),
    ("(exact)", 3),
    ("(exact 5)", 3),
    ("(exact (machine))", 3),
    ("(exact (both (flags) (band)))", 3),
    ("(both)", 3),
    ("(both (flags))", 3),
    ("(both (band) (flags))", 3),
    ("(both (flags) (flags))", 3),
    ("(both (flags) (band) (band))", 3),
    ("(both (flags) (turned (band)))", 3),
    // No order.
    ("(machine 1)", 4),
    ("(machine)", 4),
    ("(machine x)", 4),
    ("(trace 0)", 4),
    ("(label 0 1)", 4),
    ("(label (flags))", 4),
    ("(step 0 0)", 4),
    ("(step ())", 4),
];

#[test]
fn no_orders(rt: HostRuntime) -> Result<(), Fail> {
    for &(line, fault) in LINES {
        let text = format!(in rt.alloc();
            "{line}\n(machine 1)\n(label 0 1)\n(machine 1)\n(label 0 1)\n"
        )?;
        let wanted = Some((fault, Side::Order, 1));
        assert_eq!(rt; refusal(text.as_bytes()), wanted, "{line:?}");
    }
    Ok(())
}

// Before the end of the line, in the place of a letter of the word.
#[test]
fn bytes_of_lines(rt: HostRuntime) {
    for byte in 0..=255 {
        let mut text = *b"(flags )\n(machine 1)\n(label 0 1)\n(machine 1)\n(label 0 1)\n";
        text[6] = byte;
        let fault = if matches!(byte, b'a'..=b'z' | b'0'..=b'9' | b'-') {
            2
        } else {
            1
        };
        assert_eq!(rt; refusal(&text), Some((fault, Side::Order, 1)), "{byte}");
    }
}
