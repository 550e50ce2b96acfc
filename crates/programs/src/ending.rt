//! How a run ends, and what a program says of it.
ghost use Rattle.std.specs.Prelude.{◌≡◌};
ghost use Rattle.std.specs.Process.{exit_status};

use crate::outcome::Outcome;
use std::io::ErrorKind;
use std::process::ExitCode;
use std::{fmt, io};

/// How a run of any program may end.
#[derive(Clone, Copy, Debug)]
pub enum Ending {
    /// All was done.
    Done,
    /// A read or a write failed.
    Failed,
    /// A read failed.
    ReadFailed,
    /// A write or a flush failed.
    WriteFailed,
    /// The words after the program's name ask for nothing that it knows.
    Usage,
    /// Memory ran out.
    Memory,
}

impl Ending {
    ghost use Rattle.programs.specs.Ending.{EndsAs, FailsSo, status_of};

    /// How a run ends that returned this.
    pub fn of<T>(answer: &io::Result<T>) -> Ending
        ensures { EndsAs answer.now result }
    {
        match answer {
            Ok(_) => Ending::Done,
            Err(e) => Ending::of_fault(e, Ending::Failed),
        }
    }

    /// How a run ends that failed with this error: so, or for want of memory.
    pub(crate) fn of_fault(e: &io::Error, failed: Ending) -> Ending
        ensures { FailsSo failed e.now result }
    {
        if e.kind() == ErrorKind::OutOfMemory {
            Ending::Memory
        } else {
            failed
        }
    }

    /// The status that the process ends with. Those of a program's own endings begin at 4.
    pub fn status(&self) -> u8
        ensures { result ≡ status_of self.now }
    {
        match self {
            Ending::Done => 0,
            Ending::Failed | Ending::ReadFailed | Ending::WriteFailed => 1,
            Ending::Usage => 2,
            Ending::Memory => 3,
        }
    }
}

/// How a run ended, in the words of a program of this name, behind which these words are expected.
#[derive(Clone, Copy, Debug)]
pub struct Report<'a, F> {
    pub program: &'a str,
    pub usage: &'a str,
    pub outcome: Outcome<F>,
}

/// The line for standard error; of a run that is done there is none.
impl<F: fmt::Display> fmt::Display for Report<'_, F> {
    ghost use Rattle.programs.specs.Ending.{line_of};

    ghost output = { λ said. line_of F.output said.program.now said.usage.now said.outcome };

    fn fmt<W: fmt::Write>(&self, f: &mut fmt::Formatter<W>) -> fmt::Result {
        let (program, usage) = (self.program, self.usage);
        match &self.outcome {
            Outcome::Usual(Ending::Done) => Ok(()),
            Outcome::Usual(Ending::Failed) => write!(f, "{program}: read or write failed"),
            Outcome::Usual(Ending::ReadFailed) => write!(f, "{program}: read failed"),
            Outcome::Usual(Ending::WriteFailed) => write!(f, "{program}: write failed"),
            Outcome::Usual(Ending::Usage) => write!(f, "usage: {program} {usage}"),
            Outcome::Usual(Ending::Memory) => write!(f, "{program}: out of memory"),
            Outcome::Wrong(fault) => write!(f, "{program}: {fault}"),
        }
    }
}

/// Ends the process with this status, and with this line on standard error where the status isn't 0.
pub fn end<T: fmt::Display + Drop>(rt: &HostRuntime, status: u8, line: T) -> ExitCode
    ensures { exit_status result ≡ status }
{
    if status != 0 {
        // There is nowhere left to tell of a fault here.
        let _ = rt.eprintln(line);
    }
    ExitCode::from(status)
}
