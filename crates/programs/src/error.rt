//! Why a run failed.
use forward::{Cause, Stopped};
use std::io;
use std::io::ErrorKind;

/// Why a run failed that forwards payloads from one stream to another.
#[derive(Debug, Drop)]
pub enum RunError<F> {
    /// This is wrong with its input.
    Wrong(F),
    /// A read failed.
    Read(io::Error),
    /// A write or a flush failed.
    Write(io::Error),
    /// Memory ran out, or more went over than a run counts.
    Io(io::Error),
}

impl<F> RunError<F> {
    ghost use Rattle.programs.specs.Outcome.{IsErrorOf, Returns};

    /// What a run returns whose payloads went over so.
    // Both are compiled into each run: beside a call the compiler clears what a filter answers, at each ask.
    #[inline(always)]
    pub fn outcome(answer: Result<u64, Stopped<F>>) -> Result<(), RunError<F>>
        ensures { Returns answer result }
    {
        match answer {
            Ok(_) => Ok(()),
            Err(stopped) => Err(RunError::of(stopped.cause)),
        }
    }

    /// Why a run failed whose payloads were stopped so.
    #[inline(always)]
    pub fn of(cause: Cause<F>) -> RunError<F>
        ensures { IsErrorOf cause result }
    {
        match cause {
            Cause::Wrong(fault) => RunError::Wrong(fault),
            Cause::Read(e) => RunError::Read(e),
            Cause::Write(e) => RunError::Write(e),
            Cause::Count => RunError::Io(ErrorKind::Other.into()),
        }
    }
}
