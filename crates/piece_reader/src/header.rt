//! What a header says.

/// What stands at the front of some bytes where a header is looked for.
#[derive(Clone, Copy, Debug, PartialEq, Eq, Drop)]
pub enum Header {
    /// Nothing yet.
    Short,
    /// A header: so long is the payload, and so many bytes the header.
    Sized(usize, usize),
    /// The beginning of none.
    Bad,
}
