//! Examples of machines written as texts, each proved and then run.
use crate::lent::{Lent, pair, read_alone, sevens};
use model::{Band, Beside, Both, FlagSet, Flags, Machine, Span, Table, Trace, Turned};
use std::array;
use text::{Base, Fault, Spelled, TextOrder, write_machine};

/// Memory of nines that begins with a text.
fn nines_after(text: &str) -> [u8; 256] {
    array::from_fn(|at| text.as_bytes().get(at).copied().unwrap_or(9))
}

/// What writing into so many nines answers, and memory after it.
fn written<M: Machine, O: Spelled<Label = M::Label>>(
    order: &O,
    machine: &M,
    room: usize,
) -> (Option<Result<usize, Fault>>, [u8; 256]) {
    let mut memory = [9; 256];
    let answer = memory
        .get_mut(..room)
        .map(|out| write_machine(order, machine, out));
    (answer, memory)
}

/// Whether writing gives this text with room to spare and with none, and is refused for a byte less.
fn writes<M: Machine, O: Spelled<Label = M::Label>>(order: &O, machine: &M, text: &str) -> bool {
    let length = text.len();
    let said = (Some(Ok(length)), nines_after(text));
    written(order, machine, 256) == said
        && written(order, machine, length) == said
        && written(order, machine, length.saturating_sub(1))
            == (Some(Err(Fault::ShortMemory)), [9; 256])
        && written(order, machine, 0) == (Some(Err(Fault::ShortMemory)), [9; 256])
}

const BOTH: Both<Flags, Band> = Both {
    first: Flags {},
    second: Band {},
};

// A byte of 7 is a step, and a trace has its steps written.
#[test]
fn machines_are_written(rt: HostRuntime) {
    let flags = [
        FlagSet { bits: 0 },
        FlagSet { bits: 4294967295 },
        FlagSet { bits: 10 },
    ];
    let table = Table::new(&flags, &[0, 1, 0, 7, 0, 0, 0, 0, 1]);
    assert!(rt;
        writes(
            &Flags {},
            &table,
            "(machine 3)\n(label 0 0)\n(label 1 4294967295)\n(label 2 10)\n(step 0 1)\n(step 1 0)\n(step 2 2)\n"
        )
    );
    let bands = [
        Span {
            low: -32768,
            high: 32767,
        },
        Span { low: -1, high: -1 },
        Span { low: 0, high: 5 },
    ];
    assert!(rt;
        writes(
            &Turned { inner: Band {} },
            &Trace::new(&bands),
            "(machine 3)\n(label 0 -32768 32767)\n(label 1 -1 -1)\n(label 2 0 5)\n(step 0 1)\n(step 1 2)\n"
        )
    );
    let pairs = [pair(1, -5, 5), pair(0, 0, 0), pair(4294967295, 7, 8)];
    let beside = Beside {
        left: Table::new(&pairs[..1], &[1]),
        right: Trace::new(&pairs[1..]),
    };
    let text =
        "(machine 3)\n(label 0 1 -5 5)\n(label 1 0 0 0)\n(label 2 4294967295 7 8)\n(step 0 0)\n(step 1 2)\n";
    assert!(rt; writes(&BOTH, &beside, text) && writes(&TextOrder::Both, &beside, text));
}

// For each room: a label is looked at before the count, and the count before the room.
#[test]
fn writing_refuses(rt: HostRuntime) {
    for room in [0, 256] {
        let none: [Span; 0] = [];
        let wrong_count = (Some(Err(Fault::WrongCount)), [9; 256]);
        assert!(rt; written(&Band {}, &Table::new(&none, &[]), room) == wrong_count);
        assert!(rt; written(&Band {}, &Trace::new(&none), room) == wrong_count);
        let wrong_items = (Some(Err(Fault::WrongItems)), [9; 256]);
        let bands = [Span { low: 5, high: 5 }, Span { low: 5, high: 4 }];
        assert!(rt; written(&Band {}, &Table::new(&bands, &[0; 4]), room) == wrong_items);
        let pairs = [pair(1, -5, -6)];
        assert!(rt; written(&BOTH, &Trace::new(&pairs), room) == wrong_items);
        assert!(rt;
            written(&TextOrder::Exact(Base::Band), &Trace::new(&pairs), room) == wrong_items
        );
    }
}

/// The text of what is read of a text of a machine alone, in memory of nines.
fn rewritten(order: &TextOrder, text: &str) -> Option<[u8; 256]> {
    let mut lent = sevens();
    let n = read_alone(order, text.as_bytes(), &mut lent).ok()?;
    let table = Table::new(lent.labels.get(..n)?, lent.steps.get(..n.checked_mul(n)?)?);
    let (answer, memory) = written(order, &table, 256);
    answer?.ok()?;
    Some(memory)
}

/// Texts of machines alone, and their orders.
const TEXTS: [(TextOrder, &str); 4] = [
    (TextOrder::Plain(Base::Flags), "(machine 1)\n(label 0 0)\n"),
    (
        TextOrder::Exact(Base::Flags),
        "(machine 1)\n(label 0 4294967295)\n(step 0 0)\n",
    ),
    (
        TextOrder::Turned(Base::Band),
        "(machine 2)\n(label 0 -32768 -1)\n(label 1 0 10)\n(step 1 0)\n",
    ),
    (
        TextOrder::Both,
        "(machine 2)\n(label 0 0 -1 0)\n(label 1 100 1 32767)\n(step 0 0)\n(step 1 1)\n",
    ),
];

#[test]
fn texts_are_written_as_read(rt: HostRuntime) {
    for (order, text) in TEXTS {
        assert_eq!(rt;
            rewritten(&order, text),
            Some(nines_after(text)),
            "{text:?}"
        );
    }
}

/// The states that are read of a machine's text.
fn reread<M: Machine, O: Spelled<Label = M::Label>>(
    order: &O,
    machine: &M,
    lent: &mut Lent<M::Label>,
) -> Option<usize> {
    let mut text = [9; 60_000];
    let length = write_machine(order, machine, &mut text).ok()?;
    read_alone(order, text.get(..length)?, lent).ok()
}

#[test]
fn machines_are_read_as_written(rt: HostRuntime) {
    let flags = [FlagSet { bits: 4294967295 }; 64];
    let mut lent = Lent::of(FlagSet { bits: 7 });
    let wanted = lent.with(&flags, &[1; 4096]);
    let largest = Table::new(&flags, &[1; 4096]);
    assert!(rt; reread(&Flags {}, &largest, &mut lent) == Some(64) && lent == wanted);
    let bands = [
        Span {
            low: -32768,
            high: 32767,
        },
        Span { low: -1, high: 0 },
    ];
    let mut lent = Lent::of(Span { low: 7, high: 7 });
    let wanted = lent.with(&bands, &[0, 1, 0, 0]);
    assert!(rt; reread(&Band {}, &Trace::new(&bands), &mut lent) == Some(2) && lent == wanted);
}

// 13 bytes of the header, 1,398 of labels and 51,968 of steps.
#[test]
fn largest_is_written(rt: HostRuntime) {
    let flags = [FlagSet { bits: 4294967295 }; 64];
    let steps = [1; 4096];
    let table = Table::new(&flags, &steps);
    assert_eq!(rt;
        write_machine(&Flags {}, &table, &mut [9; 53_379]),
        Ok(53_379)
    );
    assert_eq!(rt;
        write_machine(&Flags {}, &table, &mut [9; 53_378]),
        Err(Fault::ShortMemory)
    );
}
