//! Why an ask found no payload, and why forwarding stopped.
ghost use Rattle.std.specs.Prelude.{◌≡◌, if◌then◌else◌};

use std::error::Error;
use std::{fmt, io};

/// Why an ask found no payload.
#[derive(Debug, Drop)]
pub enum AskError<W> {
    /// What comes next is none, and begins none.
    Wrong(W),
    /// The stream failed, and gave nothing before.
    Io(io::Error),
    /// The stream gave bytes, and then it failed.
    IoBehind(io::Error),
}

impl<W> AskError<W> {
    /// Why an ask found none in which the stream failed, behind bytes that it gave in that or none.
    #[inline(always)]
    pub fn of_fault(e: io::Error, came: bool) -> AskError<W>
        ensures { result ≡ (if came then AskError.IoBehind e else AskError.Io e) }
    {
        if came {
            AskError::IoBehind(e)
        } else {
            AskError::Io(e)
        }
    }
}

/// Which side stopped, and why.
#[derive(Debug, Drop)]
pub enum Cause<W> {
    /// What the stream gave next is no payload, and begins none.
    Wrong(W),
    /// The stream that is read from failed.
    Read(io::Error),
    /// The stream that is written to failed, or a filter had no room for a payload.
    Write(io::Error),
    /// As many payloads were passed on or dropped as a `u64` counts.
    Count,
}

/// Why payloads are forwarded no further, and how many were passed on or dropped before.
#[derive(Debug, Drop)]
pub struct Stopped<W> {
    pub count: u64,
    pub cause: Cause<W>,
}
