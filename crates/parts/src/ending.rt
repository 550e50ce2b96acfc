//! How a run ends, and what the program says of it.
ghost use Rattle.parts.specs.Ending.{EndsAs, PartEndsAs};

use crate::error::RunError;
use body_reader::BodyError;
use multipart::PartError;
use programs::{Ending, Fault, Outcome};
use std::fmt;

/// What may be wrong with the input, or with what is asked of it.
#[derive(Clone, Copy, Debug)]
pub enum InputFault {
    /// A boundary isn't alone in its line, or stands in a head.
    Boundary,
    /// The head of a part is too long.
    LongHead,
    /// There are too many parts.
    ManyParts,
    /// The input ended within the body.
    Truncated,
    /// No part has the name.
    Missing,
}

impl Fault for InputFault {
    ghost use Rattle.parts.specs.Ending.{status_of, status_own};

    ghost ends_with = { status_of };

    fn status(&self) -> u8 {
        match self {
            InputFault::Boundary | InputFault::LongHead | InputFault::ManyParts => 4,
            InputFault::Truncated => 5,
            InputFault::Missing => 6,
        }
    }

    ghost own = { status_own };
}

impl fmt::Display for InputFault {
    ghost use Rattle.std.specs.Prelude.{Some};
    ghost use Rattle.parts.specs.Ending.{text_of};

    ghost output = { λ fault. Some (text_of fault) };

    fn fmt<W: fmt::Write>(&self, f: &mut fmt::Formatter<W>) -> fmt::Result {
        f.write_str(match self {
            InputFault::Boundary => "a boundary is not alone in its line, or in a head",
            InputFault::LongHead => "the head of a part is too long",
            InputFault::ManyParts => "there are too many parts",
            InputFault::Truncated => "the input ends within the body",
            InputFault::Missing => "no part has this name",
        })
    }
}

/// How a run ends that returned this.
pub fn outcome_of(answer: &Result<(), RunError>) -> Outcome<InputFault>
    ensures { EndsAs answer.now result }
{
    match answer {
        Ok(()) => Outcome::Usual(Ending::Done),
        Err(RunError::Parts(e)) => outcome_of_parts(e),
        Err(RunError::Body(BodyError::Io(e))) => Outcome::of_fault(e, Ending::ReadFailed),
        Err(RunError::Body(_)) => Outcome::Wrong(InputFault::Truncated),
        Err(RunError::Write(e)) => Outcome::of_fault(e, Ending::WriteFailed),
        Err(RunError::Missing) => Outcome::Wrong(InputFault::Missing),
        Err(RunError::Many) => Outcome::Usual(Ending::Failed),
    }
}

fn outcome_of_parts(e: &PartError) -> Outcome<InputFault>
    ensures { PartEndsAs e.now result }
{
    match e {
        PartError::Truncated => Outcome::Wrong(InputFault::Truncated),
        PartError::Io(e) => Outcome::of_fault(e, Ending::ReadFailed),
        PartError::Boundary => Outcome::Wrong(InputFault::Boundary),
        PartError::LongHead => Outcome::Wrong(InputFault::LongHead),
        PartError::ManyParts => Outcome::Wrong(InputFault::ManyParts),
        PartError::Memory => Outcome::Usual(Ending::Memory),
    }
}
