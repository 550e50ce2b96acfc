//! Filters over a reader of pieces, which `forward` runs: what becomes of each payload is written, and nothing is held back.
#![tactic(auto)]

mod answering;
mod put;

pub use answering::{Answer, Answering};
pub use put::put_both;
