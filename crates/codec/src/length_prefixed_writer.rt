//! Pieces that have a header, as they are written.
ghost use Rattle.std.specs.Prelude.{◌≡◌, ◌≤◌, take};
ghost use Rattle.codec.specs.HeadersOut.{HeadersOut, IsReadBack};

use crate::both::Codec;
use crate::encoder::Encoder;
use crate::header_bytes::HeaderBytes;
use piece_reader::{ByHeader, HeaderError, LengthPrefixed};

/// A protocol whose headers are written too: [`ByHeader`] over it is an [`Encoder`], and what is written is read again.
pub trait LengthPrefixedOut: LengthPrefixed {
    // What stands before a payload of so many bytes, and how many are written at most.
    ghost headers_out: { Self → HeadersOut };

    /// What stands before a payload of so many bytes.
    fn header_of(&self, len: usize) -> HeaderBytes
        requires { len ≤ (headers_out self.now).max }
        ensures { take result.len result.bytes ≡ (headers_out self.now).header len };

    /// No longer payload is written.
    fn max_written(&self) -> usize
        ensures { result ≡ (headers_out self.now).max };

    // No more is written than is read, and each header says what it was written for.
    ghost read_back: { (h : Self) → IsReadBack (Self.header_format h) (headers_out h) };
}

/// A payload that is longer than is written is refused as [`TooLong`](HeaderError::TooLong).
impl<H: LengthPrefixedOut> Encoder for ByHeader<H> {
    ghost use Rattle.codec.specs.HeadersOut.{length_prefixed_out};
    ghost use Rattle.codec.specs.HeadersOutLaws.{length_prefixed_writable};

    type Refusal = HeaderError;

    ghost encoding = { λ d. length_prefixed_out (H.header_format d.0) (H.headers_out d.0) };

    fn most_written(&self) -> usize {
        self.0.most_header() + self.0.max() + self.0.tail().len()
    }

    #[inline(always)]
    fn header(&self, payload: &[u8]) -> Result<HeaderBytes, HeaderError> {
        if payload.len() > self.0.max_written() {
            return Err(HeaderError::TooLong(payload.len()));
        }
        Ok(self.0.header_of(payload.len()))
    }

    #[inline(always)]
    fn tail(&self) -> &[u8] {
        self.0.tail()
    }

    ghost writable = { λ d. length_prefixed_writable (H.header_format d.0) (H.headers_out d.0) (H.headers d.0)
        (H.read_back d.0) };
}

impl<H: LengthPrefixedOut> Codec for ByHeader<H> {
    ghost use Rattle.codec.specs.HeadersOutLaws.{length_prefixed_back};

    ghost reads_back = { λ d. length_prefixed_back (H.header_format d.0) (H.headers_out d.0) (H.headers d.0) (H.read_back d.0) };
}
