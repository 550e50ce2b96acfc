//! Why a multipart body can't be read.
ghost use Rattle.std.specs.Prelude.{◌≡◌};
ghost use Rattle.multipart.specs.Multipart.{head_error};

use body_reader::{BodyError, CollectError};
use std::error::Error;
use std::io::ErrorKind;
use std::{fmt, io};

/// Why there is no next part. No byte is lost: a further call goes on where this one stopped.
#[derive(Debug, Drop)]
pub enum PartError {
    /// The stream ended within the body.
    Truncated,
    /// The stream failed.
    Io(io::Error),
    /// A boundary goes on neither with two hyphens nor with 998 blanks at most and the end of its line, or stands in a head. Each
    /// further call says so.
    Boundary,
    /// A head has more bytes than the limit. Each further call says so.
    LongHead,
    /// A boundary behind as many parts as the limit isn't the last. Each further call says so.
    ManyParts,
    /// Memory was refused.
    Memory,
}

impl fmt::Display for PartError {
    fn fmt<W: fmt::Write>(&self, f: &mut fmt::Formatter<W>) -> fmt::Result {
        match self {
            PartError::Truncated => f.write_str("the stream ended within the body"),
            PartError::Io(e) => fmt::Display::fmt(e, f),
            PartError::Boundary => f.write_str("a boundary is not alone in its line, or in a head"),
            PartError::LongHead => f.write_str("the head of a part is too long"),
            PartError::ManyParts => f.write_str("there are too many parts"),
            PartError::Memory => f.write_str("memory was refused"),
        }
    }
}

impl Error for PartError {}

impl From<BodyError<()>> for PartError {
    ghost use Rattle.multipart.specs.Multipart.{part_error};

    ghost from_gives = { λ e r. r ≡ part_error e };

    fn from(e: BodyError<()>) -> PartError {
        match e {
            BodyError::Wrong(_, _) => PartError::Boundary,
            BodyError::Truncated(_) => PartError::Truncated,
            BodyError::Io(e) => PartError::Io(e),
        }
    }
}

impl PartError {
    // Why a head can't be collected, of which no byte may be where there may be no further part.
    pub(crate) fn of_head(e: CollectError<()>, full: bool) -> PartError
        ensures { result ≡ head_error full e }
    {
        match e {
            CollectError::Body(e) => PartError::from(e),
            CollectError::TooLong if full => PartError::ManyParts,
            CollectError::TooLong => PartError::LongHead,
            CollectError::Memory => PartError::Memory,
            CollectError::Refused => PartError::Boundary,
        }
    }
}

impl From<PartError> for io::Error {
    ghost use Rattle.multipart.specs.Multipart.{PartBecomesIo};

    ghost from_gives = { PartBecomesIo };

    /// The stream's own error; `UnexpectedEof` where it ended, `OutOfMemory`, and `InvalidData` for what is wrong or too much.
    fn from(e: PartError) -> io::Error {
        match e {
            PartError::Io(e) => e,
            PartError::Truncated => io::Error::from(ErrorKind::UnexpectedEof),
            PartError::Memory => io::Error::from(ErrorKind::OutOfMemory),
            PartError::Boundary | PartError::LongHead | PartError::ManyParts => {
                io::Error::from(ErrorKind::InvalidData)
            }
        }
    }
}

/// Why no reader can be made.
#[derive(Debug, Drop, Clone, Copy, PartialEq, Eq)]
pub enum NewError {
    /// A boundary has 1 to 70 bytes, and none of them is a carriage return or a line feed.
    Boundary,
    /// The buffer has fewer bytes than a boundary and its line take: its own, and four.
    Room,
    /// Memory was refused.
    Memory,
}

impl fmt::Display for NewError {
    fn fmt<W: fmt::Write>(&self, f: &mut fmt::Formatter<W>) -> fmt::Result {
        f.write_str(match self {
            NewError::Boundary => "a boundary has 1 to 70 bytes, and no line end",
            NewError::Room => "the buffer is smaller than a boundary",
            NewError::Memory => "memory was refused",
        })
    }
}

impl Error for NewError {}
