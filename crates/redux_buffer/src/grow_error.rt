//! Why a buffer could not be made or could not grow.
use std::error::Error;
use std::{fmt, io};

/// Why a buffer could not be made or could not grow. The buffer is as it was.
///
/// ```
/// let mut buffer = Buffer::with_capacity(alloc, 4)?;
/// buffer.set_limit(6)?;
/// assert!(rt; matches!(buffer.reserve(7), Err(GrowError::TooLarge)));
/// assert!(rt; buffer.capacity() == 4);
/// ```
#[derive(Clone, Copy, Debug)]
pub enum GrowError {
    /// The needed capacity passes the limit. No memory was asked for.
    TooLarge,
    /// The memory was refused.
    Memory,
}

impl fmt::Display for GrowError {
    fn fmt<W: fmt::Write>(&self, f: &mut fmt::Formatter<W>) -> fmt::Result {
        match self {
            GrowError::TooLarge => f.write_str("the needed capacity passes the limit"),
            GrowError::Memory => f.write_str("out of memory"),
        }
    }
}

impl Error for GrowError {}

/// Of the kind `InvalidInput` where the limit was passed, and `OutOfMemory` where memory was refused.
impl From<GrowError> for io::Error {
    ghost use Rattle.std.specs.Prelude.{◌≡◌};
    ghost use Rattle.std.specs.IoError.{error_kind};
    ghost use Rattle.redux_buffer.specs.GrowError.{kind_of};

    ghost from_gives = { λ e r. error_kind r ≡ kind_of e };

    fn from(e: GrowError) -> io::Error {
        match e {
            GrowError::TooLarge => io::Error::from(io::ErrorKind::InvalidInput),
            GrowError::Memory => io::Error::from(io::ErrorKind::OutOfMemory),
        }
    }
}
