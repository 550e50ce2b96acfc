//! Frames both ways: [`FrameReader`] lends the frames of a stream out of the buffer that they were read into, and
//! [`FrameWriter`] takes frames in, each of them whole or not at all.
//!
//! A frame is a length of two bytes, the higher first, and then so many bytes, its payload. A stream of bytes may come in
//! whatever pieces: the frames that are handed out, then what is left, are the stream.
//!
//! The crate stands on what `codec` promises of pieces: it shows how a protocol gets names, errors and promises of its own.
#![tactic(auto)]

mod error;
mod frame;
pub mod laws;
mod reader;
mod writer;

pub use error::{FrameError, WriteFrameError};
pub use reader::FrameReader;
pub use writer::FrameWriter;
