//! Headers that are text, as they are written.
ghost use Rattle.std.specs.Prelude.{◌≡◌, ◌++◌, min};
ghost use Rattle.std.specs.Fmt.{decimal};
ghost use Rattle.codec.specs.TextHeadersOut.{IsWritten};

use crate::header_bytes::HeaderBytes;
use crate::scan_writer::ScanOut;
use crate::text_header::{ByTextHeader, TextHeader};

// The greatest number of 18 digits.
const MOST: usize = 999_999_999_999_999_999;

/// A protocol whose headers are text and are written too: what stands around a length is that of [`TextHeader`].
pub trait TextHeaderOut: TextHeader {
    // A header has room for it, and what stands behind a length is no digit of it.
    ghost written: { (t : Self) → IsWritten (Self.words t) };
}

impl<T: TextHeaderOut> ScanOut for ByTextHeader<T> {
    ghost use Rattle.codec.specs.TextHeadersOutLaws.{text_read_back};

    // The length in decimal, which has at most 18 digits.
    ghost headers_out = { λ t. record {
      header = λ len. (T.words t.0).before ++ (decimal len ++ (T.words t.0).after);
      max = min (T.words t.0).max 999999999999999999;
    } };

    fn header_of(&self, len: usize) -> HeaderBytes {
        let mut header = HeaderBytes::new(self.0.before());
        header.push_number(len);
        header.push(self.0.after());
        header
    }

    #[inline(always)]
    fn max_written(&self) -> usize {
        self.0.max().min(MOST)
    }

    ghost read_back = { λ t. text_read_back (T.words t.0) (T.sound t.0) (T.written t.0) };
}
