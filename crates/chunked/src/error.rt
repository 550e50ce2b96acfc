//! Why a body can't be read, or ended.
use std::error::Error;
use std::io::ErrorKind;
use std::{fmt, io};

/// What is wrong with the next byte.
#[derive(Clone, Copy, Debug, PartialEq, Eq)]
pub enum Malformed {
    /// No digit stands where the line of a size begins.
    NoSize,
    /// A byte stands in the line of a size, behind its digits, that can't stand there: what follows them is an extension or the
    /// end of the line.
    BadSize,
    /// A byte stands in a line of the trailers that can't stand there: such a line is a token, a colon, and a value.
    BadField,
    /// The size is 2^62 or more.
    SizeTooLarge,
    /// The line of a size has more bytes than it may.
    LineTooLong,
    /// The trailers have more bytes than they may.
    TrailersTooLong,
    /// No LF stands behind a CR.
    BareReturn,
    /// An LF stands in a line without a CR before it.
    BareFeed,
    /// A chunk goes on behind as many bytes as its size says.
    ChunkTooLong,
}

impl fmt::Display for Malformed {
    ghost use Rattle.std.specs.Prelude.{Some};
    ghost use Rattle.chunked.specs.Error.{malformed_text};

    ghost output = { λ why. Some (malformed_text why) };

    fn fmt<W: fmt::Write>(&self, f: &mut fmt::Formatter<W>) -> fmt::Result {
        f.write_str(match self {
            Malformed::NoSize => "a chunk without a size",
            Malformed::BadSize => "a wrong byte in the line of a size",
            Malformed::BadField => "a wrong byte in a line of the trailers",
            Malformed::SizeTooLarge => "a size of 2^62 or more",
            Malformed::LineTooLong => "the line of a size is too long",
            Malformed::TrailersTooLong => "the trailers are too long",
            Malformed::BareReturn => "a CR without an LF",
            Malformed::BareFeed => "an LF without a CR",
            Malformed::ChunkTooLong => "a chunk is longer than its size",
        })
    }
}

/// Why a body can't be ended with its trailers.
#[derive(Debug, Drop)]
pub enum TrailersError {
    /// The line of this index is none of trailers: it isn't a token, a colon and a value.
    NoField(usize),
    /// The line of this index says where the body ends: its name is `Content-Length` or `Transfer-Encoding`, in any case.
    Framing(usize),
    /// The last chunk and the trailers have more bytes than the buffer.
    TooLong,
    /// So many bytes are still to come of a chunk that was begun.
    Due(usize),
    /// What was buffered had to be sent first, and that failed. The call can be made again.
    Io(io::Error),
}

impl fmt::Display for TrailersError {
    fn fmt<W: fmt::Write>(&self, f: &mut fmt::Formatter<W>) -> fmt::Result {
        match self {
            TrailersError::NoField(index) => {
                write!(
                    f,
                    "line {index} of the trailers isn't a name, a colon and a value"
                )
            }
            TrailersError::Framing(index) => {
                write!(f, "line {index} of the trailers says where the body ends")
            }
            TrailersError::TooLong => f.write_str("the trailers don't fit into the buffer"),
            TrailersError::Due(count) => write!(f, "a chunk lacks {count} bytes"),
            TrailersError::Io(e) => fmt::Display::fmt(e, f),
        }
    }
}

impl Error for TrailersError {}

/// Why a body wasn't ended with its trailers, with its writer.
///
/// ```
/// let inner = BufWriter::new(alloc, Told::new(Vec::new(alloc)))?;
/// let body = ChunkedWriter::new(inner);
/// let refused = body.finish_with_trailers(&[b"Expires: never\n"]);
/// assert!(rt; matches!(refused, Err(FinishError(_, TrailersError::NoField(0)))));
/// ```
#[derive(Debug, Drop)]
pub struct FinishError<B>(pub B, pub TrailersError);

impl<B> fmt::Display for FinishError<B> {
    fn fmt<W: fmt::Write>(&self, f: &mut fmt::Formatter<W>) -> fmt::Result {
        fmt::Display::fmt(&self.1, f)
    }
}

impl<B: fmt::Debug + Drop> Error for FinishError<B> {}

/// The fault, or `InvalidInput` where trailers were refused, or a chunk lacks bytes. The writer is dropped.
impl<B: Drop> From<FinishError<B>> for io::Error {
    ghost use Rattle.std.specs.Prelude.{◌≡◌, ◌≢◌, ◌⊎◌};
    ghost use Rattle.std.specs.IoError.{error_kind};
    ghost use Rattle.std.specs.declared.io.Error.{Error};
    ghost use Rattle.std.specs.declared.io.ErrorKind.TheVariants.{InvalidInput};
    ghost use Rattle.chunked.specs.declared.error.TrailersError.TheVariants.{Io};

    ghost from_gives = { λ e r. (e.1 ≡ Io r)
        ⊎ (((fault : Error) → e.1 ≢ Io fault) × (error_kind r ≡ InvalidInput)) };

    fn from(e: FinishError<B>) -> io::Error {
        match e.1 {
            TrailersError::Io(fault) => fault,
            _ => io::Error::from(ErrorKind::InvalidInput),
        }
    }
}
