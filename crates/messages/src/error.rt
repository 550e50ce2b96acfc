//! Why there is no payload.
ghost use Rattle.std.specs.Prelude.{◌≡◌};
ghost use Rattle.messages.specs.Messages.{body_answer, body_error};

use body_reader::{BodyError as Unread, Side};
use chunked::{Malformed, Place};
use std::error::Error;
use std::{fmt, io};

/// Why there is no further payload.
#[derive(Debug, Drop)]
pub enum BodyError {
    /// What comes next is wrong, and stays: each further call says the same.
    Wrong(Malformed),
    /// The stream ended within the body: it was asked, and gave nothing. Of a body of a length so many bytes were still due; of
    /// one in chunks that isn't known.
    Truncated(Option<u64>),
    /// The stream failed, and the call can be made again; or, of the kind `Other`, a body has more pieces than a `u64` counts.
    Io(io::Error),
}

impl fmt::Display for BodyError {
    fn fmt<W: fmt::Write>(&self, f: &mut fmt::Formatter<W>) -> fmt::Result {
        match self {
            BodyError::Wrong(why) => fmt::Display::fmt(why, f),
            BodyError::Truncated(Some(due)) => {
                write!(f, "the stream ended {due} bytes before a body did")
            }
            BodyError::Truncated(None) => f.write_str("the stream ended within a body"),
            BodyError::Io(e) => fmt::Display::fmt(e, f),
        }
    }
}

impl Error for BodyError {}

impl From<io::Error> for BodyError {
    ghost use Rattle.std.specs.Prelude.{◌≡◌};
    ghost use Rattle.messages.specs.declared.error.BodyError.TheVariants.{Io};

    ghost from_gives = { λ e r. r ≡ Io e };

    fn from(e: io::Error) -> BodyError {
        BodyError::Io(e)
    }
}

// Why a reader of a body handed none out, where it stands. In a body of a length no byte is wrong.
pub(crate) fn unread(place: Side<u64, Place>, e: Unread<Side<(), Malformed>>) -> BodyError
    ensures { result ≡ body_error place e }
{
    match e {
        Unread::Wrong(Side::Second(why), _) => BodyError::Wrong(why),
        Unread::Wrong(Side::First(()), _) => BodyError::Truncated(None),
        Unread::Truncated(_) => match place {
            Side::First(due) => BodyError::Truncated(Some(due)),
            Side::Second(_) => BodyError::Truncated(None),
        },
        Unread::Io(e) => BodyError::Io(e),
    }
}

// And its answer.
pub(crate) fn answer_of(
    place: Side<u64, Place>,
    answer: Result<usize, Unread<Side<(), Malformed>>>,
) -> Result<usize, BodyError>
    ensures { result ≡ body_answer place answer }
{
    match answer {
        Ok(count) => Ok(count),
        Err(e) => Err(unread(place, e)),
    }
}
