//! Examples of texts and memory at their limits, each proved and then run.
use crate::lent::{Lent, read, refusal, refusal_alone, sevens};
use model::{FlagSet, Flags};
use std::alloc::{AllocError, Global};
use std::fmt::Write;
use std::test::Fail;
use text::{
    Base, Fault, Form, Place, Refused, Side, SideRead, TextOrder, TwoRead, read_machine, read_two,
};

const HEADED: &str = "(flags)\n(machine 1)\n";

const LABELLED: &str = "(flags)\n(machine 1)\n(label 0 1)\n";

/// A text before a line of 512 bytes, the line's start, how many letters follow it before the last bracket, what is wrong with
/// the line, and where.
const LONG_LINES: &[(&str, &str, usize, u8, Side, usize)] = &[
    ("", "(flags ", 504, 3, Side::Order, 1),
    ("", "(flag ", 505, 2, Side::Order, 1),
    ("(flags)\n", "(machine ", 502, 3, Side::Left, 2),
    (HEADED, "(label ", 504, 3, Side::Left, 3),
    (LABELLED, "(step ", 505, 3, Side::Left, 4),
    (LABELLED, "(flags ", 504, 4, Side::Left, 4),
    (LABELLED, "(machine ", 502, 3, Side::Right, 4),
];

// A line that is too long does not begin the right.
#[test]
fn lines_are_bounded(rt: HostRuntime) -> Result<(), Fail> {
    for &(before, start, count, fault, side, line) in LONG_LINES {
        let letters = "a".repeat(rt.alloc(), count)?;
        let text = format!(in rt.alloc(); "{before}{start}{letters})\n")?;
        let refused = Some((fault, side, line));
        assert_eq!(rt; refusal(text.as_bytes()), refused, "{start}");
        let longer = format!(in rt.alloc(); "{before}{start}{letters}a)\n")?;
        let side = if side == Side::Right {
            Side::Left
        } else {
            side
        };
        let refused = Some((1, side, line));
        assert_eq!(rt; refusal(longer.as_bytes()), refused, "{start}");
    }
    Ok(())
}

// A good text, and letters after it.
#[test]
fn texts_are_bounded(rt: HostRuntime) -> Result<(), Fail> {
    let letters = "a".repeat(rt.alloc(), 60_000)?;
    let two = format!(in rt.alloc();
        "(flags)\n(trace 1)\n(label 0 1)\n(machine 1)\n(label 0 1)\n{letters}"
    )?;
    for (length, refused) in [
        (60_000, (1, Side::Right, 6)),
        (60_001, (13, Side::Order, 1)),
        (60_054, (13, Side::Order, 1)),
    ] {
        let text = two.as_bytes().get(..length).ok_or("shorter")?;
        assert_eq!(rt; refusal(text), Some(refused), "{length}");
    }
    let one = format!(in rt.alloc(); "(machine 1)\n(label 0 1)\n{letters}")?;
    for (length, refused) in [(60_000, (1, 3)), (60_001, (13, 1)), (60_024, (13, 1))] {
        let text = one.as_bytes().get(..length).ok_or("shorter")?;
        assert_eq!(rt; refusal_alone(text), Some(refused), "{length}");
    }
    Ok(())
}

/// The text of a side of so many states.
fn side(alloc: Global, word: &str, count: usize) -> Result<String, AllocError> {
    let mut text = format!(in alloc; "({word} {count})\n")?;
    for s in 0..count {
        writeln!(text, "(label {s} 1)")?;
    }
    Ok(text)
}

/// The word and the states of the left, the states of the right, and the side and the line that are refused, if any.
const COUNTS: &[(&str, usize, usize, Option<(Side, usize)>)] = &[
    ("machine", 1, 63, None),
    ("machine", 32, 32, None),
    ("machine", 63, 1, None),
    ("trace", 1, 63, None),
    ("trace", 63, 1, None),
    ("machine", 1, 64, Some((Side::Right, 4))),
    ("machine", 2, 63, Some((Side::Right, 5))),
    ("machine", 32, 33, Some((Side::Right, 35))),
    ("machine", 63, 2, Some((Side::Right, 66))),
    ("machine", 64, 1, Some((Side::Right, 67))),
    ("trace", 2, 63, Some((Side::Right, 5))),
    ("trace", 64, 1, Some((Side::Right, 67))),
    ("machine", 64, 0, Some((Side::Right, 67))),
    ("machine", 65, 1, Some((Side::Left, 2))),
    ("trace", 65, 1, Some((Side::Left, 2))),
    ("machine", 0, 64, Some((Side::Left, 2))),
    ("trace", 0, 1, Some((Side::Left, 2))),
];

#[test]
fn states_are_bounded(rt: HostRuntime) -> Result<(), Fail> {
    for &(word, left, right, refused) in COUNTS {
        let first = side(rt.alloc(), word, left)?;
        let second = side(rt.alloc(), "machine", right)?;
        let text = format!(in rt.alloc(); "(exact (flags))\n{first}{second}")?;
        let refused = refused.map(|(side, line)| (5, side, line));
        assert_eq!(rt; refusal(text.as_bytes()), refused, "{word} {left} {right}");
        let said = read(text.as_bytes(), &mut sevens(), &mut sevens()).ok();
        let counts = said.map(|said| (said.left.count, said.right));
        let wanted = refused.is_none().then_some((left, right));
        assert_eq!(rt; counts, wanted, "{word} {left} {right}");
    }
    Ok(())
}

#[test]
fn states_alone_are_bounded(rt: HostRuntime) -> Result<(), Fail> {
    for (count, is_read) in [(0, false), (1, true), (63, true), (64, true), (65, false)] {
        let text = side(rt.alloc(), "machine", count)?;
        let refused = (!is_read).then_some((5, 1));
        assert_eq!(rt; refusal_alone(text.as_bytes()), refused, "{count}");
    }
    Ok(())
}

const FIRST: Place = Place {
    side: Side::Order,
    line: 1,
};

const LONG: Refused<Place> = Refused {
    fault: Fault::TooLong,
    place: Some(FIRST),
};

const EMPTY: Refused<Place> = Refused {
    fault: Fault::OutOfOrder,
    place: Some(FIRST),
};

const SHORT: Refused<Place> = Refused {
    fault: Fault::ShortMemory,
    place: None,
};

const FLAGS: TwoRead = TwoRead {
    order: TextOrder::Plain(Base::Flags),
    left: SideRead {
        form: Form::Trace,
        count: 1,
    },
    right: 1,
};

/// What reading into so much of the memory of each side answers, and whether memory is as it was.
fn read_into(
    text: &[u8],
    left: (usize, usize),
    right: (usize, usize),
) -> Option<(Result<TwoRead, Refused<Place>>, bool)> {
    let mut a = sevens();
    let mut b = sevens();
    let read = read_two(
        text,
        a.labels.get_mut(..left.0)?,
        a.steps.get_mut(..left.1)?,
        b.labels.get_mut(..right.0)?,
        b.steps.get_mut(..right.1)?,
    );
    Some((read, a == sevens() && b == sevens()))
}

/// The labels and the step bytes that are lent for the left and for the right, and whether they do.
const MEMORIES: &[((usize, usize), (usize, usize), bool)] = &[
    ((64, 4096), (64, 4096), true),
    ((65, 4097), (65, 4097), true),
    ((63, 4096), (64, 4096), false),
    ((64, 4095), (64, 4096), false),
    ((64, 4096), (63, 4096), false),
    ((64, 4096), (64, 4095), false),
    ((1, 1), (1, 1), false),
    ((0, 0), (0, 0), false),
];

// A good text, one that is too long, and one without a line.
#[test]
fn memory_may_be_short(rt: HostRuntime) -> Result<(), Fail> {
    let text = b"(flags)\n(trace 1)\n(label 0 1)\n(machine 1)\n(label 0 1)\n";
    let letters = "a".repeat(rt.alloc(), 60_001)?;
    for &(left, right, is_enough) in MEMORIES {
        let wanted = if is_enough { Ok(FLAGS) } else { Err(SHORT) };
        let said = read_into(text, left, right);
        assert_eq!(rt; said, Some((wanted, !is_enough)), "{left:?} {right:?}");
        let long = read_into(letters.as_bytes(), left, right);
        assert_eq!(rt; long, Some((Err(LONG), true)), "{left:?} {right:?}");
        let none = read_into(b"", left, right);
        let wanted = if is_enough { EMPTY } else { SHORT };
        assert_eq!(rt; none, Some((Err(wanted), true)), "{left:?} {right:?}");
    }
    Ok(())
}

/// How the text of a machine alone is refused, if at all, for so much memory, and whether memory is as it was.
fn refused_into(
    text: &[u8],
    labels: usize,
    steps: usize,
) -> Option<(Option<Refused<usize>>, bool)> {
    let mut a = Lent::of(FlagSet { bits: 7 });
    let read = read_machine(
        &Flags {},
        text,
        a.labels.get_mut(..labels)?,
        a.steps.get_mut(..steps)?,
    );
    Some((read.err(), a == Lent::of(FlagSet { bits: 7 })))
}

#[test]
fn memory_alone_may_be_short(rt: HostRuntime) -> Result<(), Fail> {
    let text = b"(machine 1)\n(label 0 1)\n";
    let letters = "a".repeat(rt.alloc(), 60_001)?;
    let short = Refused {
        fault: Fault::ShortMemory,
        place: None,
    };
    let long = Refused {
        fault: Fault::TooLong,
        place: Some(1),
    };
    assert_eq!(rt; refused_into(text, 64, 4096), Some((None, false)));
    for (labels, steps) in [(63, 4096), (64, 4095), (0, 0)] {
        for text in [&text[..], b""] {
            let refused = refused_into(text, labels, steps);
            assert_eq!(rt; refused, Some((Some(short), true)), "{labels} {steps}");
        }
        let refused = refused_into(letters.as_bytes(), labels, steps);
        assert_eq!(rt; refused, Some((Some(long), true)), "{labels} {steps}");
    }
    Ok(())
}
