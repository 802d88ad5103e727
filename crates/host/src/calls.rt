//! The calls for programs in C. A byte area is passed as a pointer and its length.
//!
//! Each call but `comparer_fits` returns 0, or the number of its refusal, and writes a good answer at the front of the answer's
//! area. It is refused as the call of the sheet is, and by 6 where the table or an area is too short; then it writes nothing.
ghost use Rattle.host.specs.Bytes.{table, fits, areas};
ghost use Rattle.std.specs.Prelude.{◌≡◌};
ghost use Rattle.host.specs.Calls.{HostBegins, HostTries, HostSweeps, HostSettles, HostClasses, HostBelows, HostReasons, HostAnswers};

use crate::answers::{
    NUMBER_BYTES, ONE_BYTE, SETTLED_BYTES, VERDICT_BYTES, lacks, lacks_at_begin, lay,
    settled_bytes, verdict_bytes,
};
use crate::records::{RECORD_BYTES, RecordBytes, RecordBytesMut, record_bytes};
use crate::sheets::{number_bytes, sheet_bytes, sheet_in, write_made};
use crate::table::{FlagTable, is_fit};
use model::{Flags, Refusal};
use sheet::{Setting, Sheet};

/// Whether a table of `count` states fits: from 1 state to the bound, with labels and steps for all of them.
#[unsafe(no_mangle)]
pub extern "C" fn comparer_fits(count: usize, labels: &[u8], steps: &[u8]) -> bool
    ensures { result ≡ fits (table count labels.now steps.now) }
{
    is_fit(count, labels, steps)
}

/// Begins a sheet, and writes the whole of it and its pairs. There is no other answer.
#[unsafe(no_mangle)]
pub extern "C" fn comparer_begin(
    count: usize,
    labels: &[u8],
    steps: &[u8],
    sheet: &mut [u8],
    pairs: &mut [u8],
    strikes: &[u8],
) -> u8
    ensures { HostBegins (table count labels.now steps.now) (areas sheet.old pairs.old strikes.now) result (areas sheet.new pairs.new strikes.now) }
{
    if lacks_at_begin(count, labels, steps, sheet) {
        return u8::from(Refusal::ShortMemory);
    }
    let machine = FlagTable::new(count, labels, steps);
    match Sheet::begin(&machine, pairs, &RecordBytes { bytes: strikes }) {
        Ok(begun) => {
            lay(sheet, &sheet_bytes(begun));
            0
        }
        Err(refusal) => u8::from(refusal),
    }
}

/// Tries the pair (s, t), and strikes it if it stands and has a ground. The answer is the verdict, with the strike.
#[unsafe(no_mangle)]
pub extern "C" fn comparer_try(
    count: usize,
    labels: &[u8],
    steps: &[u8],
    sheet: &mut [u8],
    pairs: &mut [u8],
    strikes: &mut [u8],
    s: usize,
    t: usize,
    answer: &mut [u8],
) -> u8
    ensures { HostTries (table count labels.now steps.now) (areas sheet.old pairs.old strikes.old) s t answer.old result (areas sheet.new pairs.new strikes.new) answer.new }
{
    if lacks(count, labels, steps, sheet, answer, VERDICT_BYTES) {
        return u8::from(Refusal::ShortMemory);
    }
    let machine = FlagTable::new(count, labels, steps);
    let on = Setting {
        machine: &machine,
        order: &Flags {},
    };
    let mut now = sheet_in(sheet);
    let mut records = RecordBytesMut { bytes: strikes };
    match now.try_pair(&on, pairs, &mut records, s, t) {
        Ok(verdict) => {
            write_made(sheet, now.strikes);
            lay(answer, &verdict_bytes(verdict));
            0
        }
        Err(refusal) => u8::from(refusal),
    }
}

/// Tries the pairs of row `s` in turn. The answer is how many it struck, in two bytes.
#[unsafe(no_mangle)]
pub extern "C" fn comparer_sweep(
    count: usize,
    labels: &[u8],
    steps: &[u8],
    sheet: &mut [u8],
    pairs: &mut [u8],
    strikes: &mut [u8],
    s: usize,
    answer: &mut [u8],
) -> u8
    ensures { HostSweeps (table count labels.now steps.now) (areas sheet.old pairs.old strikes.old) s answer.old result (areas sheet.new pairs.new strikes.new) answer.new }
{
    if lacks(count, labels, steps, sheet, answer, NUMBER_BYTES) {
        return u8::from(Refusal::ShortMemory);
    }
    let machine = FlagTable::new(count, labels, steps);
    let on = Setting {
        machine: &machine,
        order: &Flags {},
    };
    let mut now = sheet_in(sheet);
    let mut records = RecordBytesMut { bytes: strikes };
    match now.sweep(&on, pairs, &mut records, s) {
        Ok(struck) => {
            write_made(sheet, now.strikes);
            lay(answer, &number_bytes(struck));
            0
        }
        Err(refusal) => u8::from(refusal),
    }
}

/// Sweeps all rows until nothing is struck, and marks the sheet settled. The answer is how many strikes it made and
/// the passes taken, two bytes each.
#[unsafe(no_mangle)]
pub extern "C" fn comparer_settle(
    count: usize,
    labels: &[u8],
    steps: &[u8],
    sheet: &mut [u8],
    pairs: &mut [u8],
    strikes: &mut [u8],
    answer: &mut [u8],
) -> u8
    ensures { HostSettles (table count labels.now steps.now) (areas sheet.old pairs.old strikes.old) answer.old result (areas sheet.new pairs.new strikes.new) answer.new }
{
    if lacks(count, labels, steps, sheet, answer, SETTLED_BYTES) {
        return u8::from(Refusal::ShortMemory);
    }
    let machine = FlagTable::new(count, labels, steps);
    let on = Setting {
        machine: &machine,
        order: &Flags {},
    };
    let mut now = sheet_in(sheet);
    let mut records = RecordBytesMut { bytes: strikes };
    match now.settle(&on, pairs, &mut records) {
        Ok((struck, passes)) => {
            write_made(sheet, now.strikes);
            sheet[1] = 1;
            lay(answer, &settled_bytes(struck, passes));
            0
        }
        Err(refusal) => u8::from(refusal),
    }
}

/// The smallest state that is `s` or stands both ways with `s`. The answer is that state.
#[unsafe(no_mangle)]
pub extern "C" fn comparer_class(
    count: usize,
    labels: &[u8],
    steps: &[u8],
    sheet: &[u8],
    pairs: &[u8],
    s: usize,
    answer: &mut [u8],
) -> u8
    ensures { HostClasses (table count labels.now steps.now) sheet.now pairs.now s answer.old result answer.new }
{
    if lacks(count, labels, steps, sheet, answer, ONE_BYTE) {
        return u8::from(Refusal::ShortMemory);
    }
    let machine = FlagTable::new(count, labels, steps);
    match sheet_in(sheet).class(&machine, pairs, s) {
        Ok(class) => {
            lay(answer, &[class as u8]);
            0
        }
        Err(refusal) => u8::from(refusal),
    }
}

/// Whether the pair (s, t) stands. The answer is 1 for yes, and 0 for no.
#[unsafe(no_mangle)]
pub extern "C" fn comparer_below(
    count: usize,
    labels: &[u8],
    steps: &[u8],
    sheet: &[u8],
    pairs: &[u8],
    s: usize,
    t: usize,
    answer: &mut [u8],
) -> u8
    ensures { HostBelows (table count labels.now steps.now) sheet.now pairs.now s t answer.old result answer.new }
{
    if lacks(count, labels, steps, sheet, answer, ONE_BYTE) {
        return u8::from(Refusal::ShortMemory);
    }
    let machine = FlagTable::new(count, labels, steps);
    match sheet_in(sheet).below(&machine, pairs, s, t) {
        Ok(is_below) => {
            lay(answer, &[u8::from(is_below)]);
            0
        }
        Err(refusal) => u8::from(refusal),
    }
}

/// The first strike record of the pair (s, t), where it is struck. The answer is that record.
#[unsafe(no_mangle)]
pub extern "C" fn comparer_reason(
    count: usize,
    labels: &[u8],
    steps: &[u8],
    sheet: &[u8],
    pairs: &[u8],
    strikes: &[u8],
    s: usize,
    t: usize,
    answer: &mut [u8],
) -> u8
    ensures { HostReasons (table count labels.now steps.now) (areas sheet.now pairs.now strikes.now) s t answer.old result answer.new }
{
    if lacks(count, labels, steps, sheet, answer, RECORD_BYTES) {
        return u8::from(Refusal::ShortMemory);
    }
    let machine = FlagTable::new(count, labels, steps);
    let records = RecordBytes { bytes: strikes };
    match sheet_in(sheet).reason(&machine, pairs, &records, s, t) {
        Ok(strike) => {
            lay(answer, &record_bytes(strike));
            0
        }
        Err(refusal) => u8::from(refusal),
    }
}

/// Writes a walk of the fewest steps that answers the step from `s` to `u` from `t`. The answer is how many states it has.
#[unsafe(no_mangle)]
pub extern "C" fn comparer_answer(
    count: usize,
    labels: &[u8],
    steps: &[u8],
    sheet: &[u8],
    pairs: &[u8],
    s: usize,
    t: usize,
    u: usize,
    walk: &mut [u8],
    answer: &mut [u8],
) -> u8
    ensures { HostAnswers (table count labels.now steps.now) sheet.now pairs.now s t u walk.old answer.old result walk.new answer.new }
{
    if lacks(count, labels, steps, sheet, answer, ONE_BYTE) {
        return u8::from(Refusal::ShortMemory);
    }
    let machine = FlagTable::new(count, labels, steps);
    match sheet_in(sheet).answer(&machine, pairs, s, t, u, walk) {
        Ok(places) => {
            lay(answer, &[places as u8]);
            0
        }
        Err(refusal) => u8::from(refusal),
    }
}
