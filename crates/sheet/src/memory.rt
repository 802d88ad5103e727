//! Memory for strike records, lent in whatever form the lender keeps it.
ghost use Rattle.std.specs.Prelude.{◌≡◌, ℕ, ◌+◌, List, length, slice_set};
ghost use Rattle.std.specs.List.{slice_get};
ghost use Rattle.strikes.specs.declared.strike.Strike.{Strike as StrikeRecord};
ghost use Rattle.sheet.specs.Lasting.{Lasting, by_name};

use strikes::Strike;

/// Places for strike records, as they are read.
pub trait StrikeRecords {
    /// What the places hold.
    ghost records: { Self → List StrikeRecord };

    /// How many places there are.
    fn room(&self) -> usize
        ensures { result ≡ length (records self.now) };

    /// The record at place `k`, or nothing where there is no such place.
    fn record(&self, k: usize) -> Option<Strike>
        ensures { result ≡ slice_get (records self.now) k };
}

/// Places for strike records that may be written.
pub trait StrikeMemory: StrikeRecords {
    /// What the lender wants to know of a later state of its memory, where the places from the first number on, to before the
    /// second, were written since, each once and in turn, and no others.
    ghost filled: { ℕ → ℕ → Self → Self → Type 0 };

    /// It holds where nothing was written, and of one stretch of writing after another.
    ghost lasting: { Lasting filled };

    /// Writes place `k`, and nothing where there is no such place.
    fn write(&mut self, k: usize, strike: Strike)
        ensures written { Self.records self.new ≡ slice_set (Self.records self.old) k strike }
        ensures filled { filled k (k + 1) self.old self.new };
}

/// A slice of records that is only read.
impl<'a> StrikeRecords for &'a [Strike] {
    ghost records = { λ s. s.now };

    fn room(&self) -> usize
        ensures { result ≡ length self.now.now }
    {
        self.len()
    }

    fn record(&self, k: usize) -> Option<Strike>
        ensures { result ≡ slice_get self.now.now k }
    {
        self.get(k).copied()
    }
}

/// A lent slice of records.
#[derive(Drop)]
pub struct StrikeSlice<'a> {
    pub items: &'a mut [Strike],
}

impl<'a> StrikeRecords for StrikeSlice<'a> {
    ghost records = { λ s. s.items.now };

    fn room(&self) -> usize
        ensures { result ≡ length self.now.items.now }
    {
        self.items.len()
    }

    fn record(&self, k: usize) -> Option<Strike>
        ensures { result ≡ slice_get self.now.items.now k }
    {
        self.items.get(k).copied()
    }
}

impl<'a> StrikeMemory for StrikeSlice<'a> {
    ghost filled = { λ _ _ a b. b.items.ghost_name ≡ a.items.ghost_name };

    ghost lasting = { by_name (λ a. a.items.ghost_name) };

    fn write(&mut self, k: usize, strike: Strike)
        ensures written { self.new.items.now ≡ slice_set self.old.items.now k strike }
        ensures filled { self.new.items.ghost_name ≡ self.old.items.ghost_name }
    {
        // By index, since no contract says what a place that `get_mut` lent holds once it is written.
        if k < self.items.len() {
            self.items[k] = strike;
        }
    }
}
