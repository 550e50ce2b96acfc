//! What the tests of several crates share.
#![tactic(auto)]

ghost use Rattle.std.specs.Prelude.{◌≡◌, take, IfOk};

mod calls;
pub mod claims;
pub mod constant;
mod fixtures;
mod log;
mod looks;
mod makers;
pub mod policies;
mod positions;
pub mod sweep;
mod texts;

pub use crate::calls::{consume, fill_buf, flush, kind, read, read_to_end, seek, write, write_all};
pub use crate::fixtures::{first, holding_in};
pub use crate::log::Log;
pub use crate::looks::{asked, flushes, offered, taken, taken_lines};
pub use crate::makers::{
    Source, Target, line_writer, reader, reader_under, source, target, writer, writer_under,
};
pub use crate::positions::Positions;
pub use crate::texts::{debug, display, shown};
use redux_buffer::{Buffer, GrowError};
use std::alloc::Global;

/// A plain buffer of this capacity that holds the first of these bytes, as many as fit.
pub fn holding(alloc: Global, capacity: usize, bytes: &[u8]) -> Result<Buffer, GrowError>
    ensures { IfOk result (λ b. b.bytes ≡ take capacity bytes.now) }
{
    let mut buf = Buffer::with_capacity(alloc, capacity)?;
    let _ = buf.copy_from_slice(bytes);
    Ok(buf)
}

/// An empty buffer of either kind, which promises nothing.
pub fn empty(alloc: Global, ring: bool, capacity: usize) -> Result<Buffer, GrowError> {
    if ring {
        Buffer::with_capacity_ringbuf(alloc, capacity)
    } else {
        Buffer::with_capacity(alloc, capacity)
    }
}
