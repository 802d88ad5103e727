//! Strike records in bytes.
ghost use Rattle.std.specs.Prelude.{◌≡◌, ◌+◌, length, slice_set};
ghost use Rattle.std.specs.List.{slice_get};
ghost use Rattle.host.specs.Bytes.{record_in, records_in, record_bytes, with_record};
ghost use Rattle.host.specs.Recorded.{Recorded, recorded_lasting};

use crate::fours::four_at;
use sheet::{StrikeMemory, StrikeRecords};
use strikes::{Ground, Strike};

/// How many bytes a record has.
pub(crate) const RECORD_BYTES: usize = 4;

/// The strike that four bytes say.
pub(crate) fn record_in(four: [u8; 4]) -> Strike
    ensures { result ≡ record_in four }
{
    let [first, second, kind, to] = four;
    Strike {
        first,
        second,
        ground: if kind == 0 {
            Ground::ByLabel
        } else {
            Ground::ByStep(to)
        },
    }
}

/// The four bytes of a strike.
pub(crate) fn record_bytes(strike: Strike) -> [u8; 4]
    ensures { result ≡ record_bytes strike }
{
    let Strike {
        first,
        second,
        ground,
    } = strike;
    match ground {
        Ground::ByLabel => [first, second, 0, 0],
        Ground::ByStep(to) => [first, second, 1, to],
    }
}

/// An area of records of four bytes.
#[derive(Drop)]
pub(crate) struct RecordBytes<'a> {
    pub(crate) bytes: &'a [u8],
}

impl<'a> StrikeRecords for RecordBytes<'a> {
    ghost records = { λ s. records_in s.bytes.now };

    #[tactic(auto, using(crate::proofs::ByFour::length_records))]
    fn room(&self) -> usize
        ensures { result ≡ length (records_in self.now.bytes.now) }
    {
        self.bytes.len() / RECORD_BYTES
    }

    fn record(&self, k: usize) -> Option<Strike>
        ensures { result ≡ slice_get (records_in self.now.bytes.now) k }
    {
        four_at(self.bytes, k).map(record_in)
    }
}

/// The same, lent to be written.
#[derive(Drop)]
pub(crate) struct RecordBytesMut<'a> {
    pub(crate) bytes: &'a mut [u8],
}

impl<'a> StrikeRecords for RecordBytesMut<'a> {
    ghost records = { λ s. records_in s.bytes.now };

    fn room(&self) -> usize
        ensures { result ≡ length (records_in self.now.bytes.now) }
    {
        RecordBytes { bytes: self.bytes }.room()
    }

    fn record(&self, k: usize) -> Option<Strike>
        ensures { result ≡ slice_get (records_in self.now.bytes.now) k }
    {
        RecordBytes { bytes: self.bytes }.record(k)
    }
}

impl<'a> StrikeMemory for RecordBytesMut<'a> {
    ghost filled = { λ i j a b. Recorded i j (a.bytes.ghost_name, a.bytes.now) (b.bytes.ghost_name, b.bytes.now) };

    ghost lasting = { recorded_lasting (λ s. s.bytes.ghost_name) (λ s. s.bytes.now) };

    fn write(&mut self, k: usize, strike: Strike)
        ensures written { records_in self.new.bytes.now ≡ slice_set (records_in self.old.bytes.now) k strike }
        ensures filled { Recorded k (k + 1) (self.old.bytes.ghost_name, self.old.bytes.now) (self.new.bytes.ghost_name, self.new.bytes.now) }
    {
        if k >= self.room() {
            return;
        }
        let at = RECORD_BYTES * k;
        self.bytes[at..at + RECORD_BYTES].copy_from_slice(&record_bytes(strike));
    }
}
