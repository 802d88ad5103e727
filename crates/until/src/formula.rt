//! Until formulas as numbered lines.
ghost use Rattle.std.specs.Prelude.{◌≡◌};
ghost use Rattle.until.specs.Lines.{names_earlier, all_name_earlier};

/// A line of a formula. Lines are numbered from 0, and name others by their numbers.
#[derive(Clone, Copy, PartialEq, Eq, Debug)]
pub enum Line<L> {
    /// Holds everywhere.
    True,
    /// Holds where the label is at most the state's.
    At(L),
    /// Holds where both do.
    And(usize, usize),
    /// Holds where some walk has the first at every state before its last, and the second at its last.
    Until(usize, usize),
}

/// The line that needs no label and no other line.
impl<L> Default for Line<L> {
    ghost use Rattle.until.specs.declared.formula.Line.TheVariants.{True};

    ghost is_default = { λ line. line ≡ True };

    fn default() -> Self {
        Line::True
    }
}

impl<L> Line<L> {
    /// Whether this line, as line `k`, names lines before it only.
    pub fn names_earlier(&self, k: usize) -> bool
        ensures { result ≡ names_earlier k self.now }
    {
        match self {
            Line::And(f, g) | Line::Until(f, g) => *f < k && *g < k,
            Line::True | Line::At(_) => true,
        }
    }
}

/// Whether every line names lines before it only.
pub fn all_name_earlier<L>(lines: &[Line<L>]) -> bool
    ensures { result ≡ all_name_earlier 0 lines.now }
{
    lines
        .iter()
        .enumerate()
        .all(|(k, line)| line.names_earlier(k))
}
