//! Why a piece was not taken in.
use std::error::Error;
use std::{fmt, io};

/// Why a piece was not taken in. Nothing of it was, so the call can be made again.
///
/// ```
/// let lines = Delimited { end: b'\n', max: 4 };
/// let mut writer = PieceWriter::new(alloc, Told::new(Vec::new(alloc)), lines)?;
/// let refused = writer.write_piece(b"a\nb");
/// assert!(rt; matches!(refused, Err(WritePieceError::Refused(NotPlain::HasEnd))));
/// ```
#[derive(Debug, Drop)]
pub enum WritePieceError<W> {
    /// The payload is none that is written.
    Refused(W),
    /// The stream failed as what was buffered was sent to make room.
    Io(io::Error),
}

impl<W: fmt::Display> fmt::Display for WritePieceError<W> {
    fn fmt<T: fmt::Write>(&self, f: &mut fmt::Formatter<T>) -> fmt::Result {
        match self {
            WritePieceError::Refused(why) => fmt::Display::fmt(why, f),
            WritePieceError::Io(e) => fmt::Display::fmt(e, f),
        }
    }
}

impl<W: fmt::Debug + fmt::Display + Drop> Error for WritePieceError<W> {}

impl<W> From<io::Error> for WritePieceError<W> {
    ghost use Rattle.std.specs.Prelude.{◌≡◌};
    ghost use Rattle.codec.specs.declared.error.WritePieceError.TheVariants.{Io};

    ghost from_gives = { λ e r. r ≡ Io e };

    fn from(e: io::Error) -> WritePieceError<W> {
        WritePieceError::Io(e)
    }
}

/// A payload that is refused is `InvalidInput`.
impl<W: Drop> From<WritePieceError<W>> for io::Error {
    ghost use Rattle.std.specs.Prelude.{◌≡◌};
    ghost use Rattle.std.specs.IoError.{error_kind};
    ghost use Rattle.std.specs.declared.io.ErrorKind.TheVariants.{InvalidInput};
    ghost use Rattle.codec.specs.declared.error.WritePieceError.TheVariants.{Refused, Io};

    ghost from_gives = { λ e r. elim e as (λ _. Type 0) [ Refused why ↦ error_kind r ≡ InvalidInput | Io x ↦ r ≡ x ] };

    fn from(e: WritePieceError<W>) -> io::Error {
        match e {
            WritePieceError::Refused(_) => io::Error::from(io::ErrorKind::InvalidInput),
            WritePieceError::Io(e) => e,
        }
    }
}
