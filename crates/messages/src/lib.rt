//! Requests of HTTP/1.1 in a stream (RFC 9112): a head, its body, the next head.
//!
//! [`Requests`] stands before a head, and `next` or `next_buffered` goes on into the body; a [`Body`] stands in one, and its
//! `finish` goes on to the next head. No other call goes from one to the other, so no byte of a body is taken for a head, also
//! after an `Err`.
#![tactic(auto)]

mod bad_head;
mod body;
mod error;
mod expect;
mod faults;
mod head;
pub mod laws;
mod limits;
mod lines;
mod requests;
mod target;
mod version;

pub use bad_head::BadHead;
pub use body::Body;
pub use chunked::Malformed;
pub use error::BodyError;
pub use head::{Extent, Heads, MAX_FIELDS, MAX_HEAD, ParsedHead, read_head, read_head_within};
pub use limits::Limits;
pub use requests::{Requests, Stop};
pub use version::blank_len;
