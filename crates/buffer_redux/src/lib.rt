//! Buffered readers and writers with policies, proved to lose no byte.
//!
//! [`BufReader`] and [`BufWriter`] have the names of their namesakes in std, and under [`StdPolicy`](policy::StdPolicy) their
//! behaviour; `docs/STD.md` says where it differs. A policy of the module
//! [`policy`] says when bytes move. The streams inside tell what they are asked (module [`tell`]), and any stream of std
//! goes in as a [`Told`](tell::Told).
#![tactic(auto)]

mod all_bytes;
mod buf_reader;
mod buf_writer;
mod errors;
mod line_writer;
pub mod policy;
mod unbuffer;

pub use buf_reader::{BufReader, Lines, SeekPlan, Split, seek_plan};
pub use buf_writer::BufWriter;
pub use errors::{IntoInnerError, MakeError};
pub use line_writer::{LineSender, LineWriter};
pub use redux_buffer::{
    Attempt, BufImpl, Buffer, Count, DEFAULT_BUF_SIZE, GrowError, INTERRUPT_LIMIT, MAX_CAPACITY,
    MAX_RING, RING_UNIT, RawBuf, SliceDequeBuf, StdBuf, add_total, copy_buf, copy_turn, retried,
    retried_behind, tell,
};
pub use unbuffer::Unbuffer;
