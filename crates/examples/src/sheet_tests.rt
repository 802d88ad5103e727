//! Examples of the sheet, each proved and then run.
use crate::pages::{ONE, Page, SEVENS, TWO, settled, settled_page, strike, two, two_beside_one};
use model::{Beside, FlagSet, Flags, Machine, Refusal, STATE_BOUND, Table, Trace};
use sheet::{Reply, Request, Setting, StrikeSlice, Verdict, run_requests};
use std::array;
use std::test::Fail;
use strikes::Ground;

#[test]
fn settles(rt: HostRuntime) -> Result<(), Fail> {
    let (page, made) = settled(&two_beside_one())?;
    assert!(rt; made == (5, 3) && page == settled_page());
    Ok(())
}

/// The strikes made and the passes taken, and the classes of the first five states.
fn classes<M: Machine<Label = FlagSet>>(
    machine: &M,
) -> Result<((usize, usize), [Option<usize>; 5]), Refusal> {
    let (page, made) = settled(machine)?;
    Ok((
        made,
        array::from_fn(|s| page.sheet.class(machine, &page.pairs, s).ok()),
    ))
}

/// Labels 1 and 2 with a step, beside labels 1, 1 and 2 with a step from each to the next.
fn five() -> Beside<Table<'static, FlagSet>, Table<'static, FlagSet>> {
    Beside {
        left: two(),
        right: Table::new(&[ONE, ONE, TWO], &[0, 1, 0, 0, 0, 1, 0, 0, 0]),
    }
}

/// The walk that answers a step on the five states, in memory of nines.
fn walk(s: usize, t: usize, u: usize) -> Result<(usize, [u8; 6]), Refusal> {
    let (page, _) = settled(&five())?;
    let mut walk = [9; 6];
    let places = page.sheet.answer(&five(), &page.pairs, s, t, u, &mut walk)?;
    Ok((places, walk))
}

// A step answered by two, and one answered by none.
#[test]
fn walks_may_stand_still(rt: HostRuntime) {
    assert!(rt;
        walk(0, 2, 1) == Ok((3, [2, 3, 4, 9, 9, 9])) && walk(2, 0, 3) == Ok((1, [0, 9, 9, 9, 9, 9]))
    );
}

#[test]
fn classes_are_least(rt: HostRuntime) {
    assert!(rt;
        classes(&five()) == Ok(((12, 2), [Some(0), Some(1), Some(0), Some(0), Some(1)]))
            && classes(&two_beside_one()) == Ok(((5, 3), [Some(0), Some(1), Some(2), None, None]))
            && classes(&Table::new(&[ONE], &[0])) == Ok(((0, 1), [Some(0), None, None, None, None]))
    );
}

/// Whether the first state of a trace is below the first of the two.
fn is_below_two(labels: &[FlagSet]) -> Result<bool, Refusal> {
    let machine = Beside {
        left: Trace::new(labels),
        right: two(),
    };
    let (page, _) = settled(&machine)?;
    page.sheet.below(&machine, &page.pairs, 0, labels.len())
}

#[test]
fn traces_are_below(rt: HostRuntime) {
    let four = FlagSet { bits: 4 };
    assert!(rt;
        is_below_two(&[ONE, ONE, TWO]) == Ok(true) && is_below_two(&[ONE, four, TWO]) == Ok(false)
    );
}

/// What a place for a reply holds before a run.
const UNSAID: Result<Reply, Refusal> = Ok(Reply::Swept(99));

/// The page of a run.
fn ran(requests: &[Request], replies: &mut [Result<Reply, Refusal>]) -> Result<Page, Refusal> {
    let mut page = SEVENS;
    let mut strikes = StrikeSlice {
        items: &mut page.records,
    };
    let on = Setting {
        machine: &two_beside_one(),
        order: &Flags {},
    };
    page.sheet = run_requests(&on, &mut page.pairs, &mut strikes, requests, replies)?;
    Ok(page)
}

#[test]
fn any_order_ends_the_same(rt: HostRuntime) -> Result<(), Fail> {
    let requests = [
        Request::Try(2, 1),
        Request::Try(0, 2),
        Request::Sweep(2),
        Request::Sweep(1),
        Request::Settle,
    ];
    assert!(rt; ran(&requests, &mut [UNSAID; 4]).err() == Some(Refusal::ShortMemory));
    let page = ran(&requests, &mut [UNSAID; 5])?;
    assert!(rt; page.pairs == settled_page().pairs && page.sheet == settled_page().sheet);
    Ok(())
}

#[test]
fn runs_reply(rt: HostRuntime) -> Result<(), Fail> {
    let requests = [
        Request::Try(0, 1),
        Request::Try(0, 1),
        Request::Try(0, 0),
        Request::Sweep(1),
        Request::Class(0),
        Request::Settle,
        Request::Class(2),
        Request::Below(2, 0),
        Request::Below(0, 2),
        Request::Reason(0, 2),
        Request::Answer(0, 0, 1),
    ];
    let mut walk = [0; STATE_BOUND];
    walk[1] = 1;
    let wanted = [
        Ok(Reply::Tried(Verdict::Struck(strike(0, 1, Ground::ByLabel)))),
        Ok(Reply::Tried(Verdict::StaysStruck)),
        Ok(Reply::Tried(Verdict::Stays)),
        Ok(Reply::Swept(2)),
        Err(Refusal::NotSettled),
        Ok(Reply::Settled(2, 2)),
        Ok(Reply::ClassIs(2)),
        Ok(Reply::IsBelow(true)),
        Ok(Reply::IsBelow(false)),
        Ok(Reply::ReasonIs(strike(0, 2, Ground::ByStep(1)))),
        Ok(Reply::Walked {
            places: 2,
            states: walk,
        }),
        UNSAID,
        UNSAID,
    ];
    let mut replies = [UNSAID; 13];
    let _ = ran(&requests, &mut replies)?;
    assert!(rt; replies == wanted);
    assert!(rt; replies[10]?.walk() == Some(&[0, 1][..]) && replies[9]?.walk().is_none());
    Ok(())
}
