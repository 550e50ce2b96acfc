//! Pieces whose header says how long the payload is, and which a tail ends.
ghost use Rattle.std.specs.Prelude.{◌≡◌, ℕ, ◌+◌, ◌<◌, ◌≤◌, ◌^◌, List, [], ◌++◌, length, take};
ghost use Rattle.piece_reader.specs.HeaderFormat.{HeaderFormat, IsHeaderFormat, UnlessBad};

use crate::header::Header;

/// A protocol whose pieces are a header, a payload and a tail. [`ByHeader`](crate::ByHeader) is its decoder.
///
/// A look at a header may leave a note for the next one, so that no byte of it is looked at twice. Who needs none takes `()`.
pub trait LengthPrefixed: Drop {
    /// What a look at a header leaves for the next one.
    type Note: Copy;

    // What a header says, and how many bytes each part has.
    ghost header_format: { Self → HeaderFormat };

    // What a look over these bytes leaves.
    ghost notes: { Self → List ℕ → Self.Note → Type 0 } = { λ _ _ _. Unit {0} };

    /// The note before the first byte.
    fn no_note(&self) -> Self::Note
        ensures { notes self.now [] result };

    /// What the header says at the front of some bytes, of which the first `seen` were looked at before, and left this note.
    fn header(&self, bytes: &[u8], seen: usize, note: &mut Self::Note) -> Header
        requires within { seen ≤ length bytes.now }
        requires noted { notes self.now (take seen bytes.now) note.old }
        ensures says { result ≡ (header_format self.now).header bytes.now }
        ensures leaves { UnlessBad result (notes self.now bytes.now note.new) };

    /// No header takes more bytes.
    fn most_header(&self) -> usize
        ensures { result ≡ (header_format self.now).most_header };

    /// No payload has more bytes.
    fn max(&self) -> usize
        ensures { result ≡ (header_format self.now).max };

    /// What stands behind a payload.
    fn tail(&self) -> &[u8]
        ensures { result.now ≡ (header_format self.now).tail };

    // What a header says stays so, whatever comes behind; and the parts of a piece are small.
    ghost headers: { (h : Self) → IsHeaderFormat (header_format h) };
}
