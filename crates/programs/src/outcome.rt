//! How a run ends that may find its input wrong.
ghost use Rattle.std.specs.Prelude.{◌≡◌, ◌≤◌, ℕ};

use crate::ending::Ending;
use crate::error::RunError;
use std::{fmt, io};

/// What a program may find wrong in its input. It prints what is said of that behind the program's name.
pub trait Fault: fmt::Display + Copy {
    ghost ends_with: { Self → ℕ };

    /// The status that the process ends with.
    fn status(&self) -> u8
        ensures { result ≡ ends_with self.now };

    // No other ending has it.
    ghost own: { (fault : Self) → 4 ≤ ends_with fault };
}

/// How a run ends.
#[derive(Clone, Copy, Debug)]
pub enum Outcome<F> {
    /// As that of any program may.
    Usual(Ending),
    /// This is wrong with its input.
    Wrong(F),
}

impl<F: Fault> Outcome<F> {
    ghost use Rattle.programs.specs.Outcome.{FaultEnds, IsOutcomeOf, outcome_status};

    /// How a run ends that returned this.
    pub fn of(answer: &Result<(), RunError<F>>) -> Outcome<F>
        ensures { IsOutcomeOf answer.now result }
    {
        match answer {
            Ok(()) => Outcome::Usual(Ending::Done),
            Err(RunError::Wrong(fault)) => Outcome::Wrong(*fault),
            Err(RunError::Read(e)) => Outcome::of_fault(e, Ending::ReadFailed),
            Err(RunError::Write(e)) => Outcome::of_fault(e, Ending::WriteFailed),
            Err(RunError::Io(e)) => Outcome::of_fault(e, Ending::Failed),
        }
    }

    /// How a run ends that failed with this error of a stream: so, or for want of memory.
    pub fn of_fault(e: &io::Error, failed: Ending) -> Outcome<F>
        ensures { FaultEnds failed e.now result }
    {
        Outcome::Usual(Ending::of_fault(e, failed))
    }

    /// The status that the process ends with: 0 only where all was done.
    pub fn status(&self) -> u8
        ensures done { result ≡ 0 → self.now ≡ Outcome.Usual Ending.Done }
        ensures status { result ≡ outcome_status F.ends_with self.now }
    {
        match self {
            Outcome::Usual(ending) => ending.status(),
            Outcome::Wrong(fault) => fault.status(),
        }
    }
}
