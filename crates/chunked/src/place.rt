//! Where in a body a reader stands.
use crate::extension::Within;

/// Where in a body a reader stands: what the bytes that were taken of it lead to.
#[derive(Clone, Copy, Debug)]
pub enum Place {
    /// Before the line of a size.
    Line,
    /// Behind digits of a size: the number that they write, and how many more bytes the line may have.
    Size(u64, usize),
    /// Behind a byte of an extension: where in it, the size, and how many more bytes the line may have.
    Extension(Within, u64, usize),
    /// Behind the CR of the line of a size.
    SizeFeed(u64),
    /// In a chunk, of whose payload so many bytes are left.
    Data(u64),
    /// Behind the CR that stands behind a payload.
    DataFeed,
    /// Before a line of the trailers, which may have so many more bytes.
    Fields(usize),
    /// In the name of a line of the trailers.
    FieldName(usize),
    /// In a line of the trailers, behind its colon.
    FieldValue(usize),
    /// Behind the CR of a line of the trailers.
    FieldFeed(usize),
    /// Behind the CR of the empty line.
    LastFeed,
    /// Behind the body.
    Done,
}
