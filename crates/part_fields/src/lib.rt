//! Fields in the head of a part of a multipart body (RFC 7578), and the parameters in their values.
#![tactic(auto)]

mod fields;

pub use fields::{field, parameter};
