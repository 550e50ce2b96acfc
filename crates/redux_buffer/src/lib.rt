//! Buffers of bytes, plain and ring; the streams that fill and drain them, which tell, in their contracts alone, what they
//! were asked and what they answered; and copying from one stream to another.
//!
//! The crate `buffer_redux` hands on every name of this one but [`laws`].
#![tactic(auto)]

pub use buf_impl::BufImpl;
pub use buffer::Buffer;
pub use copy::{add_total, copy_buf, copy_turn};
pub use count::Count;
pub use grow_error::GrowError;
pub use raw_buf::RawBuf;
pub use retry::{Attempt, retried, retried_behind};
pub use slice_deque_buf::SliceDequeBuf;
pub use std_buf::StdBuf;

mod buf_impl;
mod buffer;
mod copy;
mod count;
mod grow_error;
pub mod laws;
mod raw_buf;
mod retry;
mod short_copy;
mod slice_deque_buf;
mod std_buf;
mod tail_span;
pub mod tell;

/// The capacity in bytes of a buffer that is made without one.
pub const DEFAULT_BUF_SIZE: usize = 8192;

/// The capacity of a ring is a multiple of this many bytes.
pub const RING_UNIT: usize = 4096;

/// The greatest capacity of a plain buffer, in bytes.
pub const MAX_CAPACITY: usize = 1 << 62;

/// The greatest capacity of a ring, in bytes.
pub const MAX_RING: usize = 1 << 61;

/// How many turns in a row that end as `Interrupted` are made again by a call that goes on until all is done. A turn is the
/// call's own: a write of one that sends, a turn of a copy, a read of a `read_exact`, a fill of one that reads up to a byte, also
/// where bytes came of it, or a whole write of a `write_all`, which may have sent so often itself.
pub const INTERRUPT_LIMIT: u32 = 64;
