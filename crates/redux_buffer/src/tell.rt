//! Streams that tell, in their contracts alone, what they were asked and what they answered.
//!
//! A contract can name what went through a stream only if the stream's own contract says so, which those of std's
//! traits do not. These traits have the arguments and answers of std's calls, and an exact log of them. Any stream of
//! std goes in as a [`Told`].

mod log;
mod memory;
mod streams;
mod told;

pub use log::{Call, CallLog};
pub use memory::{MemoryReader, MemoryWriter};
pub use streams::{Tell, TellBufRead, TellRead, TellSeek, TellWrite};
pub use told::Told;
