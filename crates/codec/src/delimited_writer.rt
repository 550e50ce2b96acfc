//! Pieces that a byte ends, as they are written.
ghost use Rattle.std.specs.Prelude.{◌↔◌, IsTrue};
ghost use Rattle.piece_reader.specs.Plain.{IsPlain};

use crate::both::Codec;
use crate::encoder::Encoder;
use crate::header_bytes::HeaderBytes;
use memchr::memchr;
use piece_reader::Delimited;
use std::error::Error;
use std::{fmt, slice};

/// Why a payload is not written.
#[derive(Clone, Copy, Debug, PartialEq, Eq, Drop)]
pub enum NotPlain {
    /// The payload has so many bytes, which are more than are written.
    TooLong(usize),
    /// One of its bytes is the end.
    HasEnd,
}

impl fmt::Display for NotPlain {
    fn fmt<W: fmt::Write>(&self, f: &mut fmt::Formatter<W>) -> fmt::Result {
        match self {
            NotPlain::TooLong(len) => write!(f, "a payload of {len} bytes is too long"),
            NotPlain::HasEnd => f.write_str("a payload has the byte that ends it"),
        }
    }
}

impl Error for NotPlain {}

impl Encoder for Delimited {
    ghost use Rattle.codec.specs.DelimitedOut.{delimited_out};
    ghost use Rattle.codec.specs.DelimitedOutLaws.{delimited_writable};

    type Refusal = NotPlain;

    ghost encoding = { λ d. delimited_out d.end d.max };

    fn most_written(&self) -> usize {
        1 + self.max
    }

    #[inline(always)]
    fn header(&self, payload: &[u8]) -> Result<HeaderBytes, NotPlain> {
        if payload.len() > self.max {
            return Err(NotPlain::TooLong(payload.len()));
        }
        if !is_plain(self.end, payload) {
            return Err(NotPlain::HasEnd);
        }
        Ok(HeaderBytes {
            bytes: [0; 40],
            len: 0,
        })
    }

    #[inline(always)]
    fn tail(&self) -> &[u8] {
        slice::from_ref(&self.end)
    }

    ghost writable = { λ d. delimited_writable d.end d.max };
}

impl Codec for Delimited {
    ghost use Rattle.codec.specs.DelimitedOutLaws.{delimited_back};

    ghost reads_back = { λ d. delimited_back d.end d.max };
}

// Whether none of the bytes is the end.
fn is_plain(end: u8, bytes: &[u8]) -> bool
    ensures { IsTrue result ↔ IsPlain end bytes.now }
{
    memchr(end, bytes).is_none()
}
