//! Why a call says no.
ghost use Rattle.std.specs.Prelude.{◌≡◌, Some};
ghost use Rattle.model.specs.Refusals.{number_of, words_of};

use std::error::Error;
use std::fmt;

/// The cause of a refusal, with the number by which the documents name it.
#[derive(Clone, Copy, PartialEq, Eq, Debug)]
pub enum Refusal {
    /// There are no states.
    NoStates = 5,
    /// Memory that was handed in is too short.
    ShortMemory = 6,
    /// A number is no state.
    NoSuchState = 7,
    /// The sheet's count is 0 or not the machine's, or its strikes and the standing pairs do not add up.
    OtherSheet = 8,
    /// The sheet is not settled.
    NotSettled = 9,
    /// The pair is struck where it should stand, or stands or has no record where it should be struck.
    OtherPair = 10,
    /// There is no such step, or no walk answers it.
    NoSuchStep = 11,
    /// A line of a formula names a line that does not come before it.
    LineNotEarlier = 12,
}

/// The number of a cause.
impl From<Refusal> for u8 {
    ghost from_gives = { λ e r. r ≡ number_of e };

    fn from(refusal: Refusal) -> u8
        ensures { result ≡ number_of refusal }
    {
        refusal as u8
    }
}

/// The cause in a few words.
impl fmt::Display for Refusal {
    ghost output = { λ e. Some (words_of e) };

    fn fmt<W: fmt::Write>(&self, f: &mut fmt::Formatter<W>) -> fmt::Result {
        f.write_str(match self {
            Refusal::NoStates => "no states",
            Refusal::ShortMemory => "memory too short",
            Refusal::NoSuchState => "no such state",
            Refusal::OtherSheet => "not a sheet of this machine",
            Refusal::NotSettled => "sheet not settled",
            Refusal::OtherPair => "pair struck where it should stand, or the other way round",
            Refusal::NoSuchStep => "no such step, or no walk that answers it",
            Refusal::LineNotEarlier => "line names a line that is not earlier",
        })
    }
}

impl Error for Refusal {}
