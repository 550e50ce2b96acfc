//! Netstrings.
ghost use Rattle.std.specs.Prelude.{◌<◌, ◌^◌};

use codec::{TextHeader, TextHeaderOut};

/// Netstrings of at most `max` bytes: a length in decimal, a colon, so many bytes, and a comma.
///
/// ```
/// let netstrings = ByHeader(ByScan(ByTextHeader(Netstrings { max: 100 })));
/// let stream = Told::new(b"2:hi,0:,".as_slice());
/// let mut reader = PieceReader::new(alloc, stream, netstrings)?;
/// assert!(rt; matches!(reader.next(), Ok(Some(b"hi"))));
/// assert!(rt; matches!(reader.next(), Ok(Some(b""))));
/// assert!(rt; matches!(reader.next(), Ok(None)));
/// ```
#[derive(Clone, Copy, Debug, Drop)]
pub struct Netstrings {
    pub max: usize,
    pub ghost fits: { max < 2 ^ 62 },
}

impl TextHeader for Netstrings {
    ghost use Rattle.decoders.specs.TextWords.{netstrings};
    ghost use Rattle.decoders.specs.TextWordsLaws.{netstrings_sound};

    ghost words = { λ d. netstrings d.max };

    #[inline(always)]
    fn before(&self) -> &[u8] {
        b""
    }

    #[inline(always)]
    fn after(&self) -> &[u8] {
        b":"
    }

    #[inline(always)]
    fn tail(&self) -> &[u8] {
        b","
    }

    #[inline(always)]
    fn max(&self) -> usize {
        self.max
    }

    ghost sound = { λ d. netstrings_sound d.max d.fits };
}

impl TextHeaderOut for Netstrings {
    ghost use Rattle.decoders.specs.TextWordsLaws.{netstrings_written};

    ghost written = { λ d. netstrings_written d.max };
}
