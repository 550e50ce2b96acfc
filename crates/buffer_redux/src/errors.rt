//! The errors of this crate.
use redux_buffer::GrowError;
use std::error::Error;
use std::{fmt, io};

/// Why a reader or a writer could not be made, with the stream that was to go into it.
///
/// ```
/// let refused = BufReader::with_capacity(alloc, usize::MAX, Told::new(b"abc".as_slice()));
/// let Err(MakeError(stream, why)) = refused else {
///     return Ok(assert!(rt; false));
/// };
/// assert!(rt; matches!(why, GrowError::TooLarge));
/// assert!(rt; stream.into_inner() == b"abc".as_slice());
/// ```
#[derive(Debug, Drop)]
pub struct MakeError<T>(pub T, pub GrowError);

impl<T> fmt::Display for MakeError<T> {
    fn fmt<W: fmt::Write>(&self, f: &mut fmt::Formatter<W>) -> fmt::Result {
        fmt::Display::fmt(&self.1, f)
    }
}

impl<T: fmt::Debug + Drop> Error for MakeError<T> {}

/// Of the kind that the refusal has. The stream is gone.
impl<T: Drop> From<MakeError<T>> for io::Error {
    ghost use Rattle.std.specs.Prelude.{◌≡◌};
    ghost use Rattle.std.specs.IoError.{error_kind};
    ghost use Rattle.redux_buffer.specs.GrowError.{kind_of};

    ghost from_gives = { λ e r. error_kind r ≡ kind_of (e.1) };

    fn from(e: MakeError<T>) -> io::Error {
        io::Error::from(e.1)
    }
}

/// Why a writer could not be unwrapped: the fault that its flush met, with the writer and the bytes that were not sent.
///
/// A writer that is dropped sends once more, also where this is dropped or turned into an `io::Error`.
///
/// ```
/// let full = ScriptWriter::new(alloc, &[Answer::Fail(ErrorKind::StorageFull)])?;
/// let mut writer = BufWriter::new(alloc, Told::new(full))?;
/// writer.write_all(b"abc")?;
/// let Err(failed) = writer.into_inner() else {
///     return Ok(assert!(rt; false));
/// };
/// assert!(rt; failed.error().kind() == ErrorKind::StorageFull);
/// assert!(rt; failed.into_inner().buf_len() == 3);
/// ```
#[derive(Debug, Drop)]
pub struct IntoInnerError<W>(pub W, pub io::Error);

impl<W> IntoInnerError<W> {
    ghost use Rattle.std.specs.Prelude.{◌≡◌};

    /// The fault.
    pub fn error(&self) -> &io::Error
        ensures { result.now ≡ self.now.1 }
    {
        &self.1
    }

    /// The writer, with the bytes that were not sent.
    pub fn into_inner(self) -> W
        ensures { result ≡ self.0 }
    {
        let IntoInnerError(writer, _) = self;
        writer
    }

    /// The fault. The writer is dropped, which sends once more.
    pub fn into_error(self) -> io::Error
    where
        W: Drop,
        ensures { result ≡ self.1 }
    {
        let IntoInnerError(_, fault) = self;
        fault
    }

    /// The fault, and the writer with the bytes that were not sent.
    pub fn into_parts(self) -> (io::Error, W)
        ensures fault { result.0 ≡ self.1 }
        ensures writer { result.1 ≡ self.0 }
    {
        let IntoInnerError(writer, fault) = self;
        (fault, writer)
    }
}

impl<T> fmt::Display for IntoInnerError<T> {
    fn fmt<W: fmt::Write>(&self, f: &mut fmt::Formatter<W>) -> fmt::Result {
        fmt::Display::fmt(&self.1, f)
    }
}

impl<T: fmt::Debug + Drop> Error for IntoInnerError<T> {}

/// The fault. The writer is dropped.
impl<T: Drop> From<IntoInnerError<T>> for io::Error {
    ghost use Rattle.std.specs.Prelude.{◌≡◌};

    ghost from_gives = { λ e r. r ≡ e.1 };

    fn from(e: IntoInnerError<T>) -> io::Error {
        let IntoInnerError(_, fault) = e;
        fault
    }
}
