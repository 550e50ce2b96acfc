//! Lines of a stream, lent out of the buffer that they were read into.
//!
//! A line ends at a line feed. What stands behind the last line feed is a line too, where it is something. A stream may come
//! in whatever pieces: the lines that are handed out, each with the end that it has, then what is left, are the stream.
//!
//! The crate stands on what `piece_reader` and `buffer_redux` promise, and on nothing else of them.
#![tactic(auto)]

mod error;
mod line;
mod payloads;
mod reader;

pub use error::LineError;
pub use line::trimmed;
pub use reader::LineReader;
