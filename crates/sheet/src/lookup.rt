//! What pair bytes and strike records hold of a pair.
ghost use Rattle.std.specs.Prelude.{◌≡◌, ◌<◌, take};
ghost use Rattle.sheet.specs.Pages.{page, first_naming};
ghost use Rattle.sheet.specs.Calls.{are_alike, class_of, ShowsRecord};

use crate::memory::StrikeRecords;
use crate::sheet::Sheet;
use model::Refusal;
use strikes::Strike;
use until::Rows;

/// Whether `s` and `u` stand both ways.
fn alike(rows: Rows, s: usize, u: usize) -> bool
    requires first { s < rows.width }
    requires second { u < rows.width }
    ensures { result ≡ are_alike rows.entry.width rows.entry.bytes.now s u }
{
    rows.is_marked(s, u) && rows.is_marked(u, s)
}

/// The smallest state that is `s` or stands both ways with `s`.
pub(crate) fn class_of(rows: Rows, s: usize) -> usize
    requires { s < rows.width }
    ensures { result ≡ class_of rows.entry.width rows.entry.bytes.now s }
{
    (0..s).find(|u| alike(rows, s, *u)).unwrap_or(s)
}

/// The first of the first `made` records that names the pair (s, t).
fn first_naming<S: StrikeRecords>(strikes: &S, made: usize, s: usize, t: usize) -> Option<Strike>
    ensures { result ≡ first_naming (take made (S.StrikeRecords.records strikes.now)) s t }
{
    (0..made)
        .map_while(|k| strikes.record(k))
        .find(|strike| strike.names(s, t))
}

impl Sheet {
    /// The pair bytes, a row for each state.
    pub(crate) fn rows<'a>(&self, pairs: &'a [u8]) -> Rows<'a>
        ensures width { result.width ≡ self.now.count }
        ensures bytes { result.bytes.now ≡ pairs.now }
    {
        Rows {
            bytes: pairs,
            width: self.count,
        }
    }

    /// The first record of the pair (s, t), where it is struck.
    pub(crate) fn record_of<S: StrikeRecords>(
        &self,
        pairs: &[u8],
        strikes: &S,
        s: usize,
        t: usize,
    ) -> Result<Strike, Refusal>
        requires { t < self.now.count }
        ensures { ShowsRecord self.now.count (page self.now pairs.now (S.StrikeRecords.records strikes.now)) s t result }
    {
        if self.rows(pairs).is_marked(s, t) {
            return Err(Refusal::OtherPair);
        }
        first_naming(strikes, self.strikes, s, t).ok_or(Refusal::OtherPair)
    }
}
