//! Which bytes are a line.
ghost use Rattle.std.specs.Prelude.{◌≡◌, ◌+◌, ◌<◌, ◌^◌};
ghost use Rattle.text.specs.Lines.{sort_of, is_word, may_precede, depth_after, closes, is_line};
ghost use Rattle.text.specs.FormulaTexts.{deepest};
ghost use Rattle.text.specs.declared.form.Sort.TheVariants.{Letter};

/// The most bytes of a line, without its newline.
const LINE_BOUND: usize = 512;

/// What a byte is for a line.
#[derive(Clone, Copy, PartialEq, Eq, Debug)]
enum Sort {
    Open,
    Close,
    Space,
    Letter,
    /// A digit or a minus.
    Figure,
    /// No byte of a line.
    Foreign,
}

impl Sort {
    fn of(byte: u8) -> Sort
        ensures { result ≡ sort_of byte }
    {
        match byte as char {
            '(' => Sort::Open,
            ')' => Sort::Close,
            ' ' => Sort::Space,
            'a'..='z' => Sort::Letter,
            '-' | '0'..='9' => Sort::Figure,
            _ => Sort::Foreign,
        }
    }

    /// Whether it is a byte of a word.
    fn is_word(self) -> bool
        ensures { result ≡ is_word self }
    {
        matches!(self, Sort::Letter | Sort::Figure)
    }

    /// Whether `next` may stand right after it.
    fn may_precede(self, next: Sort) -> bool
        ensures { result ≡ may_precede self next }
    {
        match self {
            Sort::Open => next.is_word() || next == Sort::Close,
            Sort::Close => matches!(next, Sort::Space | Sort::Close),
            Sort::Space => next.is_word() || next == Sort::Open,
            Sort::Letter | Sort::Figure => next.is_word()
                || matches!(next, Sort::Space | Sort::Close),
            Sort::Foreign => false,
        }
    }

    /// How many brackets are open after it.
    fn depth_after(self, depth: usize) -> usize
        requires { depth + 1 < 2 ^ 64 }
        ensures { result ≡ depth_after self depth }
    {
        match self {
            Sort::Open => depth + 1,
            Sort::Close => depth.saturating_sub(1),
            _ => depth,
        }
    }
}

/// Whether the rest of a form, after a bracket and a letter, ends where the first bracket is closed, and each byte may follow
/// the one before it.
fn closes(rest: &[u8]) -> bool
    ensures { result ≡ closes Letter 1 rest.now }
{
    let mut before = Sort::Letter;
    let mut depth = 1;
    for byte in rest {
        let sort = Sort::of(*byte);
        if depth == 0 || !before.may_precede(sort) {
            return false;
        }
        depth = sort.depth_after(depth);
        before = sort;
    }
    depth == 0
}

/// Whether the bytes are a line, its newline aside: not too many, and one bracketed form from the first to the last.
pub(crate) fn is_line(line: &[u8]) -> bool
    ensures { result ≡ is_line line.now }
{
    line.len() <= LINE_BOUND
        && match line {
            [b'(', b'a'..=b'z', rest @ ..] => closes(rest),
            _ => false,
        }
}

/// The most brackets that are open at once.
pub(crate) fn deepest(line: &[u8]) -> usize
    ensures { result ≡ deepest 0 line.now }
{
    let mut depth = 0;
    let mut deepest = 0;
    for byte in line {
        depth = Sort::of(*byte).depth_after(depth);
        deepest = depth.max(deepest);
    }
    deepest
}
