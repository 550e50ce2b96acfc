//! What programs share that copy from one stream to another: the words that they are asked by, their buffers, and how a run ends.
//!
//! The crate stands on what `buffer_redux` promises, and on nothing else of it.
#![tactic(auto)]

mod buffers;
mod ending;
mod error;
mod outcome;
mod words;

pub use buffers::{GREATEST_CAPACITY, buffered, buffered_writer, put_all};
pub use ending::{Ending, Report, end};
pub use error::RunError;
pub use outcome::{Fault, Outcome};
pub use words::{args, number, only_word};
