//! Why setting the two against each other ends early.
use model::Refusal;
use std::alloc::AllocError;
use std::fmt;

/// What is wrong with a sheet, or that memory ran out.
#[derive(Clone, Copy, Drop)]
pub(crate) enum Fault {
    Memory(AllocError),
    /// A call is refused that should answer.
    Refused(Refusal),
    /// The two differ on whether the pair stands.
    Standing(usize, usize),
    /// The two differ on the class of the state.
    Class(usize),
    /// What is shown of the struck pair is not a strike of it whose formula tells it apart.
    Reason(usize, usize),
}

impl From<AllocError> for Fault {
    fn from(error: AllocError) -> Fault {
        Fault::Memory(error)
    }
}

impl From<Refusal> for Fault {
    fn from(refusal: Refusal) -> Fault {
        Fault::Refused(refusal)
    }
}

impl fmt::Display for Fault {
    fn fmt<W: fmt::Write>(&self, f: &mut fmt::Formatter<W>) -> fmt::Result {
        match self {
            Fault::Memory(_) => write!(f, "memory"),
            Fault::Refused(refusal) => write!(f, "refused {}", u8::from(*refusal)),
            Fault::Standing(s, t) => write!(f, "standing {s} {t}"),
            Fault::Class(s) => write!(f, "class {s}"),
            Fault::Reason(s, t) => write!(f, "reason {s} {t}"),
        }
    }
}
