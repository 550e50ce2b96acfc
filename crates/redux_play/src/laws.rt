//! Laws, each as the contract of a function over the calls. Those of the buffer come from `redux_buffer`.
mod ahead;
mod known;
mod rebuilding;
mod sparing;
mod unsent;
mod writes;

pub use ahead::look_ahead;
pub use known::{copy_known, flush_known};
pub use rebuilding::{rebuild_reader_under, rebuild_writer_under};
pub use redux_buffer::laws::{block_law, copy_through, potential, ring_law};
pub use sparing::{play_sparing, spare_between};
pub use unsent::{drop_unsent, drop_unsent_lines, keep_unsent, keep_unsent_lines};
pub use writes::{
    flush_at_least_law, flush_exact_law, flush_on_law, flush_on_newline_law, line_law, write_law,
};
