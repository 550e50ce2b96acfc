//! A server of RESP, the protocol of Redis: each request gets its reply, in order.
#![tactic(auto)]

mod client;
mod command;
mod number;
mod reply;
mod request;
mod session;
mod store;

pub use client::{Client, Ending, MAX_PART};
pub use command::{Command, Name, command_of};
pub use number::parse_number;
pub use request::{Fed, MAX_PARTS, Refusal, Request};
pub use session::PROTOCOL_ERROR;
pub use store::{Full, Store};
