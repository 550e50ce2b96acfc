//! Why bytes are no piece that has a header.
use std::error::Error;
use std::fmt;

/// Why bytes are no piece that has a header.
#[derive(Clone, Copy, Debug, PartialEq, Eq, Drop)]
pub enum HeaderError {
    /// The bytes begin with no header.
    NoHeader,
    /// The payload has this length, which is more than is read.
    TooLong(usize),
    /// Something else stands where the tail should, behind the payload.
    NoTail,
    /// The stream ended after so many bytes of the piece.
    Truncated(usize),
}

impl fmt::Display for HeaderError {
    fn fmt<W: fmt::Write>(&self, f: &mut fmt::Formatter<W>) -> fmt::Result {
        match self {
            HeaderError::NoHeader => f.write_str("no piece begins so"),
            HeaderError::TooLong(len) => write!(f, "a payload of {len} bytes is too long"),
            HeaderError::NoTail => f.write_str("a payload is not followed by its tail"),
            HeaderError::Truncated(have) => write!(
                f,
                "the stream ended after {have} bytes of a piece"
            ),
        }
    }
}

impl Error for HeaderError {}
