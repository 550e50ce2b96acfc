//! Bulk strings of RESP.
ghost use Rattle.std.specs.Prelude.{◌<◌, ◌^◌};

use codec::{TextHeader, TextHeaderOut};

/// Bulk strings of RESP of at most `max` bytes: a dollar sign, a length in decimal, CR and LF, so many bytes, and CR and LF. The
/// null string of RESP 2, whose length is -1, is none.
///
/// ```
/// let strings = ByHeader(ByScan(ByTextHeader(BulkStrings { max: 100 })));
/// let stream = Told::new(b"$2\r\nhi\r\n".as_slice());
/// let mut reader = PieceReader::new(alloc, stream, strings)?;
/// assert!(rt; matches!(reader.next(), Ok(Some(b"hi"))));
/// assert!(rt; matches!(reader.next(), Ok(None)));
/// ```
#[derive(Clone, Copy, Debug, Drop)]
pub struct BulkStrings {
    pub max: usize,
    pub ghost fits: { max < 2 ^ 62 },
}

impl TextHeader for BulkStrings {
    ghost use Rattle.decoders.specs.TextWords.{bulk_strings};
    ghost use Rattle.decoders.specs.TextWordsLaws.{bulk_strings_sound};

    ghost words = { λ d. bulk_strings d.max };

    #[inline(always)]
    fn before(&self) -> &[u8] {
        b"$"
    }

    #[inline(always)]
    fn after(&self) -> &[u8] {
        b"\r\n"
    }

    #[inline(always)]
    fn tail(&self) -> &[u8] {
        b"\r\n"
    }

    #[inline(always)]
    fn max(&self) -> usize {
        self.max
    }

    ghost sound = { λ d. bulk_strings_sound d.max d.fits };
}

impl TextHeaderOut for BulkStrings {
    ghost use Rattle.decoders.specs.TextWordsLaws.{bulk_strings_written};

    ghost written = { λ d. bulk_strings_written d.max };
}
