//! Why there is no next frame, and why a frame was not taken in.
use std::error::Error;
use std::{fmt, io};

/// Why there is no next frame. What came of it stays buffered, and the next call goes on from there.
///
/// ```
/// let mut reader = FrameReader::new(alloc, Told::new(b"\x00\x02h".as_slice()), 100)?;
/// assert!(rt; matches!(reader.next(), Err(FrameError::Truncated(3))));
/// assert!(rt; reader.rest() == b"\x00\x02h".as_slice());
/// ```
#[derive(Debug, Drop)]
pub enum FrameError {
    /// The stream ended after so many bytes of the frame, those of its length among them.
    Truncated(usize),
    /// The frame's payload has this length, which is more than the reader takes.
    TooLong(u16),
    /// The stream failed.
    Io(io::Error),
}

impl fmt::Display for FrameError {
    fn fmt<W: fmt::Write>(&self, f: &mut fmt::Formatter<W>) -> fmt::Result {
        match self {
            FrameError::Truncated(have) => write!(
                f,
                "the stream ended after {have} bytes of a frame"
            ),
            FrameError::TooLong(len) => write!(f, "a frame of {len} bytes is too long"),
            FrameError::Io(e) => fmt::Display::fmt(e, f),
        }
    }
}

impl Error for FrameError {}

impl From<io::Error> for FrameError {
    ghost use Rattle.std.specs.Prelude.{◌≡◌};
    ghost use Rattle.frame_reader.specs.declared.error.FrameError.TheVariants.{Io};

    ghost from_gives = { λ e r. r ≡ Io e };

    fn from(e: io::Error) -> FrameError {
        FrameError::Io(e)
    }
}

/// Why a frame was not taken in. Nothing of it was, so the call can be made again.
///
/// ```
/// let mut writer = FrameWriter::new(alloc, Told::new(Vec::new(alloc)), 4)?;
/// let refused = writer.write_frame(b"hello");
/// assert!(rt; matches!(refused, Err(WriteFrameError::TooLong(5))));
/// ```
#[derive(Debug, Drop)]
pub enum WriteFrameError {
    /// The payload has this length, which is more than the writer takes.
    TooLong(usize),
    /// The stream failed as what was buffered was sent to make room.
    Io(io::Error),
}

impl fmt::Display for WriteFrameError {
    fn fmt<W: fmt::Write>(&self, f: &mut fmt::Formatter<W>) -> fmt::Result {
        match self {
            WriteFrameError::TooLong(len) => { write!(f, "a payload of {len} bytes is too long") }
            WriteFrameError::Io(e) => fmt::Display::fmt(e, f),
        }
    }
}

impl Error for WriteFrameError {}

impl From<io::Error> for WriteFrameError {
    ghost use Rattle.std.specs.Prelude.{◌≡◌};
    ghost use Rattle.frame_reader.specs.declared.error.WriteFrameError.TheVariants.{Io};

    ghost from_gives = { λ e r. r ≡ Io e };

    fn from(e: io::Error) -> WriteFrameError {
        WriteFrameError::Io(e)
    }
}
