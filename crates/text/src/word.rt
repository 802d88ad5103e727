//! The words that lines begin with.
ghost use Rattle.std.specs.Prelude.{◌≡◌};
ghost use Rattle.text.specs.Words.{letters_of, word_of};

/// A word that a line of some text begins with.
#[derive(Clone, Copy, PartialEq, Eq, Debug)]
pub(crate) enum Word {
    Flags,
    Band,
    Turned,
    Exact,
    Both,
    Machine,
    Trace,
    Label,
    Step,
}

impl Word {
    const ALL: [Word; 9] = [
        Word::Flags,
        Word::Band,
        Word::Turned,
        Word::Exact,
        Word::Both,
        Word::Machine,
        Word::Trace,
        Word::Label,
        Word::Step,
    ];

    /// How it is written.
    pub(crate) fn letters(self) -> &'static [u8]
        ensures { result.now ≡ letters_of self }
    {
        match self {
            Word::Flags => b"flags",
            Word::Band => b"band",
            Word::Turned => b"turned",
            Word::Exact => b"exact",
            Word::Both => b"both",
            Word::Machine => b"machine",
            Word::Trace => b"trace",
            Word::Label => b"label",
            Word::Step => b"step",
        }
    }

    /// The word that the bytes are, if any.
    pub(crate) fn of(bytes: &[u8]) -> Option<Word>
        ensures { result ≡ word_of bytes.now }
    {
        Word::ALL
            .iter()
            .copied()
            .find(|word| word.letters() == bytes)
    }
}
