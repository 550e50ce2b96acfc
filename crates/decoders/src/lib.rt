//! Decoders that are ready, and encoders: pieces whose payload has its length in front, in bytes or in text, and those of RESP.
//!
//! A length above the greatest is refused before the payload is waited for, and before anything is added to the length.
#![tactic(auto)]

mod bulk_strings;
mod kind_varints;
pub mod laws;
mod lengths;
mod lengths_writer;
mod netstrings;
mod nullable;
mod resp;
mod varints;

pub use bulk_strings::BulkStrings;
pub use kind_varints::KindVarints;
pub use lengths::{Lengths, Order, Width};
pub use netstrings::Netstrings;
pub use nullable::{NullableStrings, StringState};
pub use resp::{Resp, RespItem};
pub use varints::{VarintPlace, Varints};
