//! Why a run failed.
use body_reader::BodyError;
use multipart::PartError;
use std::io;

/// Why a run failed.
#[derive(Debug, Drop)]
pub enum RunError {
    /// There is no next part.
    Parts(PartError),
    /// The text of a part doesn't end.
    Body(BodyError<()>),
    /// A write or a flush failed.
    Write(io::Error),
    /// No part has the name.
    Missing,
    /// There were more parts, or more pieces of one, than a run counts.
    Many,
}

impl From<PartError> for RunError {
    ghost use Rattle.std.specs.Prelude.{◌≡◌};
    ghost use Rattle.parts.specs.declared.error.RunError.TheVariants.{Parts};

    ghost from_gives = { λ e r. r ≡ Parts e };

    fn from(e: PartError) -> RunError {
        RunError::Parts(e)
    }
}

impl From<BodyError<()>> for RunError {
    ghost use Rattle.std.specs.Prelude.{◌≡◌};
    ghost use Rattle.parts.specs.declared.error.RunError.TheVariants.{Body};

    ghost from_gives = { λ e r. r ≡ Body e };

    fn from(e: BodyError<()>) -> RunError {
        RunError::Body(e)
    }
}

impl From<io::Error> for RunError {
    ghost use Rattle.std.specs.Prelude.{◌≡◌};
    ghost use Rattle.parts.specs.declared.error.RunError.TheVariants.{Write};

    ghost from_gives = { λ e r. r ≡ Write e };

    fn from(e: io::Error) -> RunError {
        RunError::Write(e)
    }
}
