//! Pieces of a stream, read and written: a protocol is a decoder, an encoder, or both. The reader of pieces, and what it asks of
//! a decoder, come from the crate `piece_reader`, of which this one hands on every name.
#![tactic(auto)]

mod answering;
mod both;
mod by_first;
mod delimited_writer;
mod encoder;
mod ended;
mod error;
mod fetching;
mod header_bytes;
mod items_writer;
pub mod laws;
mod length_prefixed_writer;
mod number;
mod scan;
mod scan_writer;
mod serving;
mod text_header;
mod text_header_writer;
mod writer;

pub use answering::{AnswerError, write_answer};
pub use both::{Codec, written_text};
pub use by_first::{ByFirst, EitherWrong};
pub use delimited_writer::NotPlain;
pub use encoder::Encoder;
pub use ended::{Ended, Unended};
pub use error::WritePieceError;
pub use fetching::{fetch, fetch_item};
pub use header_bytes::HeaderBytes;
pub use items_writer::{ItemsOut, write_item};
pub use length_prefixed_writer::LengthPrefixedOut;
pub use number::Number;
pub use piece_reader::{
    ByHeader, Decoder, Delimited, End, Found, Header, HeaderError, Items, KnownReader,
    LengthPrefixed, NextError, PayloadReader, PieceReader, Span, Terminated, TooLong, Trimmed,
    find_end, fit_buffer, piece_buffer,
};
pub use scan::{ByScan, Scan, ScanNote, ScanStep};
pub use scan_writer::ScanOut;
pub use serving::{ServeError, Served, Service, serve, serve_all};
pub use text_header::{ByTextHeader, TextHeader, TextHeaderState};
pub use text_header_writer::TextHeaderOut;
pub use writer::PieceWriter;
