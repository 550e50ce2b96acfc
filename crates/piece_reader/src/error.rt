//! Why there is no next piece.
use std::error::Error;
use std::{fmt, io};

/// Why there is no next piece. What came of it stays buffered, and the next call goes on from there.
///
/// ```
/// let lines = Delimited { end: b'\n', max: 4 };
/// let mut reader = PieceReader::new(alloc, Told::new(b"too long\n".as_slice()), lines)?;
/// assert!(rt; matches!(reader.next(), Err(NextError::Wrong(TooLong(4)))));
/// assert!(rt; reader.rest() == b"too long\n".as_slice());
/// ```
#[derive(Debug, Drop)]
pub enum NextError<W> {
    /// The bytes are no piece.
    Wrong(W),
    /// The stream failed.
    Io(io::Error),
}

impl<W: fmt::Display> fmt::Display for NextError<W> {
    fn fmt<T: fmt::Write>(&self, f: &mut fmt::Formatter<T>) -> fmt::Result {
        match self {
            NextError::Wrong(why) => fmt::Display::fmt(why, f),
            NextError::Io(e) => fmt::Display::fmt(e, f),
        }
    }
}

impl<W: fmt::Debug + fmt::Display + Drop> Error for NextError<W> {}

impl<W> From<io::Error> for NextError<W> {
    ghost use Rattle.std.specs.Prelude.{◌≡◌};
    ghost use Rattle.piece_reader.specs.declared.error.NextError.TheVariants.{Io};

    ghost from_gives = { λ e r. r ≡ Io e };

    fn from(e: io::Error) -> NextError<W> {
        NextError::Io(e)
    }
}

/// Bytes that are no piece are `InvalidData`.
impl<W: Drop> From<NextError<W>> for io::Error {
    ghost use Rattle.std.specs.Prelude.{◌≡◌};
    ghost use Rattle.std.specs.IoError.{error_kind};
    ghost use Rattle.std.specs.declared.io.ErrorKind.TheVariants.{InvalidData};
    ghost use Rattle.piece_reader.specs.declared.error.NextError.TheVariants.{Wrong, Io};

    ghost from_gives = { λ e r. elim e as (λ _. Type 0) [ Wrong why ↦ error_kind r ≡ InvalidData | Io x ↦ r ≡ x ] };

    fn from(e: NextError<W>) -> io::Error {
        match e {
            NextError::Wrong(_) => io::Error::from(io::ErrorKind::InvalidData),
            NextError::Io(e) => e,
        }
    }
}
