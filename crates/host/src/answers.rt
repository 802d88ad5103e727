//! Answers in bytes.
ghost use Rattle.std.specs.Prelude.{◌≡◌, ◌^◌, ◌<◌, ◌≤◌, length};
ghost use Rattle.model.specs.Memory.{over};
ghost use Rattle.host.specs.Bytes.{table};
ghost use Rattle.host.specs.Said.{verdict_bytes, settled_bytes, lacks, lacks_at_begin};

use crate::records::record_bytes;
use crate::sheets::{SHEET_BYTES, number_bytes};
use crate::table::is_short;
use model::is_sized;
use sheet::Verdict;

/// How many bytes the answers of the calls have.
pub(crate) const VERDICT_BYTES: usize = 5;

pub(crate) const NUMBER_BYTES: usize = 2;

pub(crate) const SETTLED_BYTES: usize = 4;

pub(crate) const ONE_BYTE: usize = 1;

/// The bytes of a verdict.
pub(crate) fn verdict_bytes(verdict: Verdict) -> [u8; 5]
    ensures { result ≡ verdict_bytes verdict }
{
    match verdict {
        Verdict::StaysStruck => [0, 0, 0, 0, 0],
        Verdict::Stays => [1, 0, 0, 0, 0],
        Verdict::Struck(strike) => {
            let [first, second, kind, to] = record_bytes(strike);
            [2, first, second, kind, to]
        }
    }
}

/// The bytes of how many strikes a settle made, and of the passes that it took.
pub(crate) fn settled_bytes(made: usize, passes: usize) -> [u8; 4]
    requires made { made < 2 ^ 16 }
    requires passes { passes < 2 ^ 16 }
    ensures { result ≡ settled_bytes (made, passes) }
{
    let [low, high] = number_bytes(made);
    let [low_passes, high_passes] = number_bytes(passes);
    [low, high, low_passes, high_passes]
}

/// Whether the table, the area of a sheet or an answer's of `size` bytes is too short.
pub(crate) fn lacks(
    count: usize,
    labels: &[u8],
    steps: &[u8],
    sheet: &[u8],
    answer: &[u8],
    size: usize,
) -> bool
    ensures { result ≡ lacks (table count labels.now steps.now) sheet.now answer.now size }
{
    is_short(count, labels, steps) || sheet.len() < SHEET_BYTES || answer.len() < size
}

/// The same for a begin, which answers into the area of the sheet. A count of no machine is another refusal.
pub(crate) fn lacks_at_begin(count: usize, labels: &[u8], steps: &[u8], sheet: &[u8]) -> bool
    ensures { result ≡ lacks_at_begin (table count labels.now steps.now) sheet.now }
{
    is_sized(count) && lacks(count, labels, steps, sheet, &[], 0)
}

/// Writes bytes at the front of an area.
pub(crate) fn lay(area: &mut [u8], bytes: &[u8])
    requires { length bytes.now ≤ length area.old }
    ensures { area.new ≡ over bytes.now area.old }
{
    area[..bytes.len()].copy_from_slice(bytes);
}
