//! Examples of what the sheet refuses, each proved and then run.
use crate::pages::{BLANK, ONE, Page, SEVENS, settled_page, two_beside_one};
use model::{Flags, Machine, Refusal, Table};
use sheet::{Setting, Sheet, StrikeSlice};
use strikes::Strike;

const SHORT: Option<Refusal> = Some(Refusal::ShortMemory);

const OUT: Option<Refusal> = Some(Refusal::NoSuchState);

const OTHER: Option<Refusal> = Some(Refusal::OtherSheet);

const EARLY: Option<Refusal> = Some(Refusal::NotSettled);

const PAIR: Option<Refusal> = Some(Refusal::OtherPair);

const STEP: Option<Refusal> = Some(Refusal::NoSuchStep);

fn begin_refusal<M: Machine>(machine: &M, pairs: &mut [u8], records: &[Strike]) -> Option<Refusal> {
    Sheet::begin(machine, pairs, &records).err()
}

#[test]
fn begin_refuses(rt: HostRuntime) {
    let mut pairs = [7; 9];
    assert!(rt;
        begin_refusal(&Table::new(&[ONE], &[]), &mut pairs, &[BLANK; 9]) == Some(Refusal::NoStates)
            && begin_refusal(&two_beside_one(), &mut pairs, &[BLANK; 8]) == SHORT
            && begin_refusal(&two_beside_one(), &mut [7; 8], &[BLANK; 9]) == SHORT
            && pairs == [7; 9]
    );
}

/// The refusals of class, below, reason, answer, try, sweep and settle in turn.
fn refusals(page: &mut Page, s: usize, t: usize, u: usize) -> [Option<Refusal>; 7] {
    let machine = &two_beside_one();
    let on = &Setting {
        machine,
        order: &Flags {},
    };
    let strikes = &mut StrikeSlice {
        items: &mut page.records,
    };
    let sheet = &mut page.sheet;
    let pairs = &mut page.pairs;
    [
        sheet.class(machine, pairs, s).err(),
        sheet.below(machine, pairs, s, t).err(),
        sheet.reason(machine, pairs, strikes, s, t).err(),
        sheet.answer(machine, pairs, s, t, u, &mut [9; 26]).err(),
        sheet.try_pair(on, pairs, strikes, s, t).err(),
        sheet.sweep(on, pairs, strikes, s).err(),
        sheet.settle(on, pairs, strikes).err(),
    ]
}

/// Three states asked about on the settled page, and what is refused.
const CASES: [(usize, usize, usize, [Option<Refusal>; 7]); 6] = [
    (0, 2, 1, [None, None, None, PAIR, None, None, None]),
    (0, 0, 1, [None, None, PAIR, None, None, None, None]),
    (0, 0, 2, [None, None, PAIR, STEP, None, None, None]),
    (0, 0, 3, [None, None, PAIR, OUT, None, None, None]),
    (0, 3, 1, [None, OUT, OUT, OUT, OUT, None, None]),
    (3, 0, 1, [OUT, OUT, OUT, OUT, OUT, OUT, None]),
];

#[test]
fn calls_refuse(rt: HostRuntime) {
    let mut page = settled_page();
    for (s, t, u, refused) in CASES {
        assert!(rt; refusals(&mut page, s, t, u) == refused);
    }
    assert!(rt; page == settled_page());
}

/// Counts and strikes that are not the settled page's, and what is refused.
const OTHERS: [(usize, usize, [Option<Refusal>; 7]); 7] = [
    (6, 5, [SHORT; 7]),
    (usize::MAX, 5, [SHORT; 7]),
    (2, 5, [OTHER; 7]),
    (5, 5, [OTHER; 7]),
    (3, 4, [OTHER; 7]),
    (3, 6, [OTHER; 7]),
    (0, 0, [OUT, OUT, OUT, OUT, OUT, OUT, OTHER]),
];

#[test]
fn other_sheets_are_refused(rt: HostRuntime) {
    for (count, strikes, refused) in OTHERS {
        let mut page = settled_page();
        page.sheet.count = count;
        page.sheet.strikes = strikes;
        let before = page;
        assert!(rt; refusals(&mut page, 0, 0, 1) == refused && page == before);
    }
}

// A byte of 7 stands, and settling leaves it.
#[test]
fn not_before_settling(rt: HostRuntime) {
    let mut page = SEVENS;
    assert!(rt; refusals(&mut page, 0, 0, 1) == [EARLY, EARLY, PAIR, EARLY, None, None, None]);
    assert!(rt; page.pairs[0..10] == [7, 0, 0, 0, 7, 0, 7, 0, 7, 7]);
}

// All pairs struck, with records of another pair; then a standing pair that nothing answers.
#[test]
fn pages_that_no_run_makes(rt: HostRuntime) {
    let mut page = SEVENS;
    page.pairs = [0; 26];
    page.sheet.strikes = 9;
    page.sheet.settled = true;
    assert!(rt; refusals(&mut page, 0, 1, 1) == [None, None, PAIR, PAIR, None, None, None]);
    page.pairs = [7; 26];
    page.pairs[5] = 0;
    page.sheet.strikes = 1;
    assert!(rt; refusals(&mut page, 0, 2, 1) == [None, None, PAIR, STEP, None, None, None]);
}

// Strike memory alone is short, then walk memory alone.
#[test]
fn each_memory_is_checked(rt: HostRuntime) {
    let mut page = settled_page();
    let machine = &two_beside_one();
    let on = &Setting {
        machine,
        order: &Flags {},
    };
    let strikes = &mut StrikeSlice {
        items: &mut page.records[0..8],
    };
    let sheet = &mut page.sheet;
    let pairs = &mut page.pairs;
    assert!(rt; sheet.reason(machine, pairs, strikes, 0, 2).err() == SHORT);
    assert!(rt; sheet.try_pair(on, pairs, strikes, 0, 2).err() == SHORT);
    assert!(rt; sheet.sweep(on, pairs, strikes, 0).err() == SHORT);
    assert!(rt; sheet.settle(on, pairs, strikes).err() == SHORT);
    assert!(rt; sheet.answer(machine, pairs, 0, 0, 1, &mut [9; 2]).err() == SHORT);
}

/// Whether an answer is refused so, or not at all, and leaves this in memory of nines.
fn answers(s: usize, t: usize, u: usize, refusal: Option<Refusal>, walk: [u8; 4]) -> bool {
    let page = settled_page();
    let mut written = [9; 4];
    let reply = page
        .sheet
        .answer(&two_beside_one(), &page.pairs, s, t, u, &mut written);
    reply.err() == refusal && written == walk
}

#[test]
fn answers_are_written(rt: HostRuntime) {
    assert!(rt; answers(0, 2, 1, PAIR, [9, 9, 9, 9]) && answers(0, 0, 1, None, [0, 1, 9, 9]));
}
