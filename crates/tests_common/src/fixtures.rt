//! Buffers and bytes to begin with.
use crate::empty;
use redux_buffer::{Buffer, GrowError};
use std::alloc::Global;

/// A buffer of this kind that holds the first of these bytes, as many as fit.
pub fn holding_in(
    alloc: Global,
    is_ring: bool,
    capacity: usize,
    bytes: &[u8],
) -> Result<Buffer, GrowError> {
    let mut buf = empty(alloc, is_ring, capacity)?;
    let _ = buf.copy_from_slice(bytes);
    Ok(buf)
}

/// The first `count` of the bytes, or all.
pub fn first(bytes: &[u8], count: usize) -> &[u8] {
    bytes.get(..count).unwrap_or(bytes)
}
