//! Why there is no next line.
use std::error::Error;
use std::{fmt, io};

/// Why there is no next line. What came of it stays buffered, unless it is being skipped, and the next call goes on from there.
///
/// ```
/// let mut reader = LineReader::new(alloc, Told::new(b"too long\nok\n".as_slice()), 4)?;
/// assert!(rt; matches!(reader.next(), Err(LineError::TooLong(4))));
/// assert!(rt; matches!(reader.skip_line(), Ok(9)));
/// assert!(rt; matches!(reader.next(), Ok(Some(b"ok"))));
/// ```
#[derive(Debug, Drop)]
pub enum LineError {
    /// The line has more bytes than this, which is the most that the reader takes.
    TooLong(usize),
    /// The stream failed.
    Io(io::Error),
}

impl fmt::Display for LineError {
    fn fmt<W: fmt::Write>(&self, f: &mut fmt::Formatter<W>) -> fmt::Result {
        match self {
            LineError::TooLong(max) => write!(f, "a line of more than {max} bytes is too long"),
            LineError::Io(e) => fmt::Display::fmt(e, f),
        }
    }
}

impl Error for LineError {}

impl From<io::Error> for LineError {
    ghost use Rattle.std.specs.Prelude.{◌≡◌};
    ghost use Rattle.line_reader.specs.declared.error.LineError.TheVariants.{Io};

    ghost from_gives = { λ e r. r ≡ Io e };

    fn from(e: io::Error) -> LineError {
        LineError::Io(e)
    }
}

/// A line that is too long is `InvalidData`.
impl From<LineError> for io::Error {
    ghost use Rattle.line_reader.specs.LineError.{IsIoError};

    ghost from_gives = { IsIoError };

    fn from(e: LineError) -> io::Error {
        match e {
            LineError::TooLong(_) => io::Error::from(io::ErrorKind::InvalidData),
            LineError::Io(e) => e,
        }
    }
}
