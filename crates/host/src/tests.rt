//! Examples of the calls, each proved and then run.
use crate::calls::{
    comparer_answer, comparer_begin, comparer_below, comparer_class, comparer_fits,
    comparer_reason, comparer_settle, comparer_sweep, comparer_try,
};

/// Labels 1, 2 and 1, and a step from the first state to the second.
const LABELS: [u8; 12] = [1, 0, 0, 0, 2, 0, 0, 0, 1, 0, 0, 0];

const STEPS: [u8; 9] = [0, 1, 0, 0, 0, 0, 0, 0, 0];

/// The strikes that settling makes.
const STRUCK: [u8; 20] = [0, 1, 0, 0, 1, 0, 0, 0, 1, 2, 0, 0, 2, 1, 0, 0, 0, 2, 1, 1];

/// The areas of a sheet of three states, with a byte more than it needs.
#[derive(Clone, Copy, PartialEq, Eq, Debug)]
struct Areas {
    sheet: [u8; 5],
    pairs: [u8; 10],
    strikes: [u8; 37],
}

/// Areas of sevens.
const SEVENS: Areas = Areas {
    sheet: [7; 5],
    pairs: [7; 10],
    strikes: [7; 37],
};

impl Areas {
    fn begin(&mut self, n: usize) -> u8 {
        let Areas {
            sheet,
            pairs,
            strikes,
        } = self;
        comparer_begin(n, &LABELS, &STEPS, sheet, pairs, strikes)
    }

    fn try_pair(&mut self, s: usize, t: usize, answer: &mut [u8]) -> u8 {
        let Areas {
            sheet,
            pairs,
            strikes,
        } = self;
        comparer_try(3, &LABELS, &STEPS, sheet, pairs, strikes, s, t, answer)
    }

    fn sweep(&mut self, n: usize, s: usize, answer: &mut [u8]) -> u8 {
        let Areas {
            sheet,
            pairs,
            strikes,
        } = self;
        comparer_sweep(n, &LABELS, &STEPS, sheet, pairs, strikes, s, answer)
    }

    fn settle(&mut self, labels: &[u8], answer: &mut [u8]) -> u8 {
        let Areas {
            sheet,
            pairs,
            strikes,
        } = self;
        comparer_settle(3, labels, &STEPS, sheet, pairs, strikes, answer)
    }

    fn class(&self, s: usize, answer: &mut [u8]) -> u8 {
        comparer_class(3, &LABELS, &STEPS, &self.sheet, &self.pairs, s, answer)
    }

    fn below(&self, s: usize, t: usize, answer: &mut [u8]) -> u8 {
        comparer_below(3, &LABELS, &STEPS, &self.sheet, &self.pairs, s, t, answer)
    }

    fn reason(&self, s: usize, t: usize, answer: &mut [u8]) -> u8 {
        let Areas {
            sheet,
            pairs,
            strikes,
        } = self;
        comparer_reason(3, &LABELS, &STEPS, sheet, pairs, strikes, s, t, answer)
    }

    fn walk(&self, s: usize, t: usize, u: usize, walk: &mut [u8], answer: &mut [u8]) -> u8 {
        comparer_answer(
            3,
            &LABELS,
            &STEPS,
            &self.sheet,
            &self.pairs,
            s,
            t,
            u,
            walk,
            answer,
        )
    }
}

/// Areas in which a sheet was begun.
fn begun() -> Areas {
    let mut areas = SEVENS;
    areas.begin(3);
    areas
}

/// Areas in which it was settled as well.
fn settled() -> Areas {
    let mut areas = begun();
    areas.settle(&LABELS, &mut [0; 4]);
    areas
}

#[test]
fn begins_and_leaves_the_strikes(rt: HostRuntime) {
    let mut areas = SEVENS;
    assert!(rt; areas.begin(3) == 0 && areas.sheet == [3, 0, 0, 0, 7]);
    assert!(rt; areas.pairs == [1, 1, 1, 1, 1, 1, 1, 1, 1, 7] && areas.strikes == SEVENS.strikes);
}

#[test]
fn settles_the_bytes(rt: HostRuntime) {
    let mut areas = begun();
    let mut answer = [9; 5];
    assert!(rt; areas.settle(&LABELS, &mut answer) == 0 && answer == [5, 0, 3, 0, 9]);
    assert!(rt; areas.sheet == [3, 1, 5, 0, 7] && areas.pairs == [1, 0, 0, 0, 1, 0, 1, 0, 1, 7]);
    assert!(rt; areas.strikes[..20] == STRUCK[..] && areas.strikes[20..] == SEVENS.strikes[20..]);
}

#[test]
fn tries_and_sweeps(rt: HostRuntime) {
    let mut areas = begun();
    let mut answer = [9; 6];
    assert!(rt; areas.try_pair(0, 1, &mut answer) == 0 && answer == [2, 0, 1, 0, 0, 9]);
    assert!(rt; areas.try_pair(0, 1, &mut answer) == 0 && answer == [0, 0, 0, 0, 0, 9]);
    assert!(rt; areas.try_pair(0, 0, &mut answer) == 0 && answer == [1, 0, 0, 0, 0, 9]);
    assert!(rt; areas.sheet == [3, 0, 1, 0, 7] && areas.pairs[1] == 0);
    assert!(rt; areas.sweep(3, 1, &mut answer) == 0 && answer == [2, 0, 0, 0, 0, 9]);
    assert!(rt; areas.sheet == [3, 0, 3, 0, 7]);
}

#[test]
fn asks_of_a_settled_sheet(rt: HostRuntime) {
    let mut areas = settled();
    let mut answer = [9; 5];
    assert!(rt; areas.class(2, &mut answer) == 0 && answer == [2, 9, 9, 9, 9]);
    assert!(rt; areas.below(2, 0, &mut answer) == 0 && answer == [1, 9, 9, 9, 9]);
    assert!(rt; areas.reason(0, 2, &mut answer) == 0 && answer == [0, 2, 1, 1, 9]);
    let mut walk = [9; 4];
    assert!(rt; areas.walk(0, 0, 1, &mut walk, &mut answer) == 0 && answer == [2, 2, 1, 1, 9]);
    assert!(rt; walk == [0, 1, 9, 9]);
}

// The reading of bytes that no call wrote: any byte but 0 says settled, and any kind but 0 a step.
#[test]
fn reads_other_bytes(rt: HostRuntime) {
    let mut areas = settled();
    let mut answer = [9; 5];
    areas.sheet[1] = 200;
    areas.strikes[18] = 77;
    assert!(rt; areas.reason(0, 2, &mut answer) == 0 && answer == [0, 2, 1, 1, 9]);
    assert!(rt; areas.settle(&LABELS, &mut answer) == 0 && answer == [0, 0, 1, 0, 9]);
    assert!(rt; areas.sheet == [3, 1, 5, 0, 7] && areas.strikes[18] == 77);
}

#[test]
fn refuses_and_writes_nothing(rt: HostRuntime) {
    let mut areas = begun();
    let mut answer = [9; 5];
    let numbers = [
        areas.begin(65),
        areas.settle(&LABELS, &mut answer[..3]),
        areas.settle(&LABELS[..11], &mut answer),
        areas.try_pair(0, 3, &mut answer),
        areas.sweep(2, 0, &mut answer),
        areas.class(0, &mut answer),
        areas.reason(0, 1, &mut answer),
    ];
    assert!(rt; numbers == [5, 6, 6, 7, 8, 9, 10] && areas == begun() && answer == [9; 5]);
    assert!(rt; settled().walk(0, 0, 2, &mut [0; 3], &mut answer) == 11 && answer == [9; 5]);
}

#[test]
fn tables_fit(rt: HostRuntime) {
    assert!(rt; comparer_fits(3, &LABELS, &STEPS) && comparer_fits(2, &LABELS, &STEPS));
    assert!(rt; !comparer_fits(0, &LABELS, &STEPS) && !comparer_fits(4, &LABELS, &STEPS));
}
