//! An order of a buyer's own: alarms by how grave they are.
ghost use Rattle.std.specs.Prelude.{◌≡◌};
ghost use Rattle.examples.specs.Severity.{grade_of, no_graver, no_graver_lawful};

use model::Order;

/// An alarm, the less grave before the graver.
#[derive(Clone, Copy, PartialEq, Eq, PartialOrd, Ord, Debug)]
pub enum Alarm {
    Quiet,
    Warning,
    Fault,
}

/// How grave an alarm is: 0 for the least.
impl From<Alarm> for u8 {
    ghost from_gives = { λ alarm grade. grade ≡ grade_of alarm };

    fn from(alarm: Alarm) -> u8
        ensures { result ≡ grade_of alarm }
    {
        alarm as u8
    }
}

/// A label is at most those that are at least as grave.
#[derive(Clone, Copy, PartialEq, Eq, Debug)]
pub struct Severity {}

impl Order for Severity {
    type Label = Alarm;

    ghost relation = { λ _. no_graver };

    ghost lawful = { λ _. no_graver_lawful };

    fn at_most(&self, a: &Alarm, b: &Alarm) -> bool {
        a <= b
    }
}
