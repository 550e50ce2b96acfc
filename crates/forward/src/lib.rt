//! Payloads forwarded from one stream to another, none held back: where the one is asked, all that is due of what it gave before
//! was received and flushed by the other.
#![tactic(auto)]

mod error;
mod filter;
mod history;
mod link;
mod pump;

pub use error::{AskError, Cause, Stopped};
pub use filter::Filter;
pub use link::Link;
pub use pump::forward;
