//! Headers that are read byte by byte, as they are written.
ghost use Rattle.std.specs.Prelude.{◌≡◌, ◌≤◌, take};
ghost use Rattle.codec.specs.HeadersOut.{HeadersOut, IsReadBack};
ghost use Rattle.codec.specs.Scanning.{scanned};

use crate::header_bytes::HeaderBytes;
use crate::length_prefixed_writer::LengthPrefixedOut;
use crate::scan::{ByScan, Scan};

/// A protocol whose headers are read byte by byte and written too: so [`ByScan`] over it is a [`LengthPrefixedOut`].
pub trait ScanOut: Scan {
    // What stands before a payload of so many bytes, and how many are written at most.
    ghost headers_out: { Self → HeadersOut };

    /// What stands before a payload of so many bytes.
    fn header_of(&self, len: usize) -> HeaderBytes
        requires { len ≤ (headers_out self.now).max }
        ensures { take result.len result.bytes ≡ (headers_out self.now).header len };

    /// No longer payload is written.
    fn max_written(&self) -> usize
        ensures { result ≡ (headers_out self.now).max };

    // No more is written than is read, and each header says what it was written for.
    ghost read_back: { (s : Self) → IsReadBack (scanned (Self.scanning s)) (headers_out s) };
}

impl<S: ScanOut> LengthPrefixedOut for ByScan<S> {
    ghost headers_out = { λ s. S.headers_out s.0 };

    fn header_of(&self, len: usize) -> HeaderBytes {
        self.0.header_of(len)
    }

    fn max_written(&self) -> usize {
        self.0.max_written()
    }

    ghost read_back = { λ s. S.read_back s.0 };
}
