//! How much of a body isn't payload.

/// The most bytes that a line of a size and the trailers may have, the ends of lines not counted.
#[derive(Clone, Copy, Debug, PartialEq, Eq)]
pub struct Limits {
    /// The most bytes of a line that says the size of a chunk, which may have one digit in any case.
    pub line: usize,
    /// The most bytes of all lines of the trailers together.
    pub trailers: usize,
}
