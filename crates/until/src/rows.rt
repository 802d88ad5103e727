//! Rows of bytes, one after the other.
ghost use Rattle.std.specs.Prelude.{◌≡◌};
ghost use Rattle.until.specs.Rows.{row_of};
ghost use Rattle.until.specs.Searches.{is_marked};

use crate::search::marked;

/// Rows of bytes, one after the other, a byte for each state.
#[derive(Clone, Copy)]
pub struct Rows<'a> {
    pub bytes: &'a [u8],
    pub width: usize,
}

impl<'a> Rows<'a> {
    /// Row `k`; what there is of it where the memory ends before.
    pub fn row(self, k: usize) -> &'a [u8]
        ensures { result.now ≡ row_of self.entry.width self.entry.bytes.now k }
    {
        let start = k.saturating_mul(self.width);
        let rest = self.bytes.get(start..).unwrap_or_default();
        rest.get(..self.width).unwrap_or(rest)
    }

    /// Whether byte `u` of row `k` is not zero. A number past the row is not marked.
    pub fn is_marked(self, k: usize, u: usize) -> bool
        ensures { result ≡ is_marked (row_of self.entry.width self.entry.bytes.now k) u }
    {
        marked(self.row(k), u)
    }
}
