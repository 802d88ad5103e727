//! Examples, each proved and then run.
use crate::pages::{ONE, TWO};
use crate::severity::{Alarm, Severity};
use model::{
    Band, Beside, Both, Exact, FlagSet, Flags, Machine, Order, Refusal, Span, Table, Trace, Turned,
};
use std::test::Fail;
use until::{Line, evaluate, reached, shortest_walk, walk_exists};

const THREE: FlagSet = FlagSet { bits: 3 };

#[test]
fn orders_answer(rt: HostRuntime) {
    assert!(rt; Flags {}.at_most(&ONE, &THREE) && !Flags {}.at_most(&THREE, &ONE));
    assert!(rt; Turned { inner: Flags {} }.at_most(&THREE, &ONE));
    assert!(rt; !Exact { inner: Flags {} }.at_most(&ONE, &THREE));
    let wide = Span { low: -3, high: 12 };
    let narrow = Span { low: 0, high: 12 };
    assert!(rt; Band {}.at_most(&wide, &narrow) && !Band {}.at_most(&narrow, &wide));
    let lower = Span { low: -3, high: 11 };
    assert!(rt;
        Band {}.at_most(&wide, &lower)
            && !Band {}.at_most(&lower, &wide)
            && !Band {}.at_most(&lower, &narrow)
    );
    let pairs = Both {
        first: Flags {},
        second: Band {},
    };
    assert!(rt;
        pairs.at_most(&(ONE, wide), &(THREE, narrow))
            && !pairs.at_most(&(ONE, narrow), &(THREE, wide))
    );
    let upside_down = Span { low: 5, high: -5 };
    assert!(rt; Band {}.at_most(&upside_down, &upside_down));
    assert!(rt;
        Severity {}.at_most(&Alarm::Quiet, &Alarm::Fault)
            && !Severity {}.at_most(&Alarm::Fault, &Alarm::Warning)
    );
}

// A table beside a trace beside a table, under exact over both.
#[test]
fn layers_stack(rt: HostRuntime) -> Result<(), Fail> {
    let low = (ONE, Span { low: 0, high: 9 });
    let high = (TWO, Span { low: 5, high: 9 });
    let two = [low, high];
    let one = [low];
    let inner = Beside {
        left: Trace::new(&two),
        right: Table::new(&one, &[1]),
    };
    let machine = Beside {
        left: Table::new(&two, &[0, 7, 0, 0]),
        right: inner,
    };
    assert_eq!(rt; machine.count(), 5);
    assert!(rt; machine.has_step(0, 1) && machine.has_step(2, 3) && machine.has_step(4, 4));
    assert!(rt;
        !machine.has_step(1, 2)
            && !machine.has_step(3, 4)
            && !machine.has_step(0, 5)
            && !machine.has_step(9, 1)
    );
    assert!(rt; machine.label(5).is_none());
    let order = Exact {
        inner: Both {
            first: Flags {},
            second: Band {},
        },
    };
    match (machine.label(0), machine.label(4)) {
        (Some(a), Some(b)) => {
            assert!(rt; order.at_most(&a, &b) && !order.at_most(&a, &high));
            Ok(())
        },
        _ => Err(Fail::new("a state without a label")),
    }
}

#[test]
fn what_does_not_fit_is_empty(rt: HostRuntime) {
    let none: [FlagSet; 0] = [];
    let long = [ONE; 65];
    assert!(rt;
        !Table::fits(&none, &[]) && !Table::fits(&[ONE], &[0, 0]) && Table::fits(&[ONE], &[0])
    );
    assert_eq!(rt; Table::new(&[ONE], &[0, 0]).count(), 0);
    assert_eq!(rt; Table::new(&long, &[0; 4225]).count(), 0);
    assert_eq!(rt; Trace::new(&none).count(), 0);
    assert_eq!(rt; Trace::new(&long).count(), 0);
    assert_eq!(rt; Trace::new(&long[0..64]).count(), 64);
    assert_eq!(rt;
        Beside {
            left: Trace::new(&long[0..64]),
            right: Trace::new(&[ONE]),
        }
        .count(),
        0
    );
}

// 0 → 1 → 2 → 3 and 0 → 2: the shorter way to 3 is by 2, which must be marked to be passed.
#[test]
fn walks_are_shortest(rt: HostRuntime) {
    let labels = [ONE; 4];
    let machine = Table::new(&labels, &[0, 1, 1, 0, 0, 0, 1, 0, 0, 0, 0, 1, 0, 0, 0, 0]);
    let mut walk = [9u8; 5];
    assert_eq!(rt;
        shortest_walk(&machine, &[1, 1, 1, 0], &[0, 0, 0, 1], 0, &mut walk),
        Ok(Some(3))
    );
    assert!(rt; walk == [0, 2, 3, 9, 9]);
    assert!(rt;
        walk_exists(&machine, &[1, 1, 1, 0], &[0, 0, 0, 1], 0)
            && !walk_exists(&machine, &[1], &[1], 4)
    );
    let ends = reached(&machine, &[1, 0, 0, 0], 0);
    assert!(rt; ends[0] && ends[1] && ends[2] && !ends[3] && !ends[4]);
    assert_eq!(rt;
        shortest_walk(&machine, &[1, 1, 0, 0], &[0, 0, 0, 1], 0, &mut walk),
        Ok(None)
    );
    assert_eq!(rt;
        shortest_walk(&machine, &[], &[1], 0, &mut walk),
        Ok(Some(1))
    );
    assert_eq!(rt; shortest_walk(&machine, &[1], &[1], 4, &mut walk), Ok(None));
    assert_eq!(rt;
        shortest_walk(&machine, &[1], &[1], 0, &mut walk[0..3]),
        Err(Refusal::ShortMemory)
    );
}

#[test]
fn formulas_are_evaluated(rt: HostRuntime) {
    let labels = [Alarm::Quiet, Alarm::Warning, Alarm::Fault];
    let machine = Trace::new(&labels);
    let lines = [
        Line::True,
        Line::At(Alarm::Fault),
        Line::Until(0, 1),
        Line::At(Alarm::Warning),
        Line::And(2, 3),
    ];
    let mut rows = [7u8; 16];
    assert_eq!(rt; evaluate(&machine, &Severity {}, &lines, &mut rows), Ok(()));
    assert!(rt; rows == [1, 1, 1, 0, 0, 1, 1, 1, 1, 0, 1, 1, 0, 1, 1, 7]);
}

#[test]
fn formulas_are_refused(rt: HostRuntime) {
    let labels = [ONE];
    let machine = Trace::new(&labels);
    let mut rows = [7u8; 2];
    assert_eq!(rt;
        evaluate(
            &machine,
            &Flags {},
            &[Line::True, Line::And(0, 1)],
            &mut rows,
        ),
        Err(Refusal::LineNotEarlier)
    );
    assert_eq!(rt;
        evaluate(
            &machine,
            &Flags {},
            &[Line::And(5, 5), Line::True, Line::True],
            &mut rows,
        ),
        Err(Refusal::ShortMemory)
    );
    assert_eq!(rt; evaluate(&machine, &Flags {}, &[], &mut rows), Ok(()));
    assert_eq!(rt;
        evaluate(
            &Trace::new(&labels[0..0]),
            &Flags {},
            &[Line::True],
            &mut rows[0..0],
        ),
        Ok(())
    );
    assert!(rt; rows == [7, 7]);
}

#[test]
fn refusals_have_numbers(rt: HostRuntime) {
    let refusals = [
        Refusal::NoStates,
        Refusal::ShortMemory,
        Refusal::NoSuchState,
        Refusal::OtherSheet,
        Refusal::NotSettled,
        Refusal::OtherPair,
        Refusal::NoSuchStep,
        Refusal::LineNotEarlier,
    ];
    assert!(rt; refusals.map(u8::from) == [5, 6, 7, 8, 9, 10, 11, 12]);
}

#[test]
fn refusals_have_words(rt: HostRuntime) -> Result<(), Fail> {
    for (refusal, words) in [
        (Refusal::NoStates, "no states"),
        (Refusal::ShortMemory, "memory too short"),
        (Refusal::NoSuchState, "no such state"),
        (Refusal::OtherSheet, "not a sheet of this machine"),
        (Refusal::NotSettled, "sheet not settled"),
        (
            Refusal::OtherPair,
            "pair struck where it should stand, or the other way round",
        ),
        (
            Refusal::NoSuchStep,
            "no such step, or no walk that answers it",
        ),
        (
            Refusal::LineNotEarlier,
            "line names a line that is not earlier",
        ),
    ] {
        let printed = refusal.to_string(rt.alloc())?;
        assert_eq!(rt; printed.as_str(), words);
    }
    Ok(())
}
