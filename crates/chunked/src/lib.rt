//! Bodies of HTTP/1.1 in the chunked coding (RFC 9112, section 7.1), read out of a buffered reader and written into a buffered
//! writer.
//!
//! A [`ChunkedReader`] hands out the payload of one body, and leaves what follows the body in the buffered reader. A
//! [`ChunkedWriter`] takes payload in, chunk by chunk, and hands the buffered writer back once the body is finished.
#![tactic(auto)]

mod chunk;
mod coding;
mod error;
mod extension;
mod frame;
pub mod laws;
mod limits;
mod place;
mod step;
mod trailers;
mod writer;

pub use coding::{Chunked, ChunkedError, ChunkedReader};
pub use error::{FinishError, Malformed, TrailersError};
pub use extension::Within;
pub use limits::Limits;
pub use place::Place;
pub use writer::ChunkedWriter;
