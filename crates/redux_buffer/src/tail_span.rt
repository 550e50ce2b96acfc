//! Where the tail of a block stands.

/// The tail is `end..stop` of so much storage, where that reaches as far.
#[derive(Clone, Copy, Drop)]
pub struct TailSpan {
    pub end: usize,
    pub stop: usize,
    pub storage: usize,
}
