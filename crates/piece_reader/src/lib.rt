//! Pieces of a stream, lent out of the buffer that they were read into. A protocol is a decoder.
//!
//! A stream may come in whatever pieces: those that are handed out, each with all that it takes, then what is left, are the
//! stream.
//!
//! The crate `codec` hands on every name of this one.
#![tactic(auto)]

mod buffer;
mod by_header;
mod decoder;
mod delimited;
mod delimited_reader;
mod error;
mod header;
mod header_error;
mod items;
mod length_prefixed;
mod length_prefixed_reader;
mod payloads;
mod reader;
mod terminated;
mod terminated_reader;
mod trimmed;
mod trimmed_reader;

pub use buffer::{fit_buffer, piece_buffer};
pub use by_header::ByHeader;
pub use decoder::{Decoder, End, Found, Span};
pub use delimited::{Delimited, TooLong, find_end};
pub use error::NextError;
pub use header::Header;
pub use header_error::HeaderError;
pub use items::Items;
pub use length_prefixed::LengthPrefixed;
pub use payloads::{KnownReader, PayloadReader};
pub use reader::PieceReader;
pub use terminated::Terminated;
pub use trimmed::Trimmed;
