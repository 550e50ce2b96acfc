//! Headers that are read byte by byte.
ghost use Rattle.std.specs.Prelude.{◌≡◌, ℕ, ◌+◌, ◌<◌, ◌≤◌, ◌^◌, List, [], length, take};
ghost use Rattle.codec.specs.Scanning.{Scanning, IsSmall, scan_notes, scanned};
ghost use Rattle.piece_reader.specs.HeaderFormat.{UnlessBad};

use piece_reader::{Header, LengthPrefixed};

/// What a header is after one more byte.
#[derive(Clone, Copy, Debug, PartialEq, Eq, Drop)]
pub enum ScanStep<S> {
    /// Still none, and this is where it stands.
    More(S),
    /// Whole, and this is the length of the payload.
    Sized(usize),
    /// The beginning of none.
    Bad,
}

/// What a look at a header leaves for the next one, so that no byte of it is read twice.
#[derive(Clone, Copy, Debug, Drop)]
pub enum ScanNote<S> {
    /// It isn't whole, and this is where it stands.
    Within(S),
    /// It is: so long is the payload, and so many bytes the header.
    Whole(usize, usize),
}

/// A protocol whose header is read byte by byte, as text is: so what its header says stays so, and nothing of that is left to
/// prove. [`ByScan`] has such a header.
pub trait Scan: Drop {
    /// Where a header stands.
    type State: Copy;

    // How a header goes on, and how many bytes each part has.
    ghost scanning: { Self → Scanning Self.State };

    /// Where a header stands before its first byte.
    fn start(&self) -> Self::State
        ensures { result ≡ (scanning self.now).start };

    /// What it is after one more byte.
    fn turn(&self, state: Self::State, byte: u8) -> ScanStep<Self::State>
        ensures { result ≡ (scanning self.now).turn state byte };

    /// No header takes more bytes; what isn't whole then is none.
    fn most_header(&self) -> usize
        ensures { result ≡ (scanning self.now).most_header };

    /// No payload has more bytes.
    fn max(&self) -> usize
        ensures { result ≡ (scanning self.now).max };

    /// What stands behind a payload.
    fn tail(&self) -> &[u8]
        ensures { result.now ≡ (scanning self.now).tail };

    // The parts of a piece are small.
    ghost small: { (s : Self) → IsSmall (scanning s) };
}

/// The header that is read byte by byte, each byte once, in however many reads it comes.
#[derive(Clone, Copy, Debug, Drop)]
pub struct ByScan<S: Scan>(pub S);

impl<S: Scan> LengthPrefixed for ByScan<S> {
    ghost use Rattle.codec.specs.Scanning.{scan_notes, scanned};
    ghost use Rattle.codec.specs.ScanningLaws.{scanned_headers};

    type Note = ScanNote<S::State>;

    ghost header_format = { λ s. scanned (S.scanning s.0) };

    ghost notes = { λ s. scan_notes (S.scanning s.0) };

    #[inline(always)]
    fn no_note(&self) -> ScanNote<S::State> {
        ScanNote::Within(self.0.start())
    }

    #[inline(always)]
    fn header(&self, bytes: &[u8], seen: usize, note: &mut ScanNote<S::State>) -> Header {
        scan_header(&self.0, bytes, seen, note)
    }

    fn most_header(&self) -> usize {
        self.0.most_header()
    }

    #[inline(always)]
    fn max(&self) -> usize {
        self.0.max()
    }

    #[inline(always)]
    fn tail(&self) -> &[u8] {
        self.0.tail()
    }

    ghost headers = { λ s. scanned_headers (S.scanning s.0) (S.small s.0) };
}

// What the header says at the front of these bytes, of which the first `seen` were read before, and led to this note.
fn scan_header<S: Scan>(
    protocol: &S,
    bytes: &[u8],
    seen: usize,
    note: &mut ScanNote<S::State>,
) -> Header
    requires within { seen ≤ length bytes.now }
    requires noted { scan_notes (S.scanning protocol.now) (take seen bytes.now) note.old }
    ensures says { result ≡ (scanned (S.scanning protocol.now)).header bytes.now }
    ensures leaves { UnlessBad result (scan_notes (S.scanning protocol.now) bytes.now note.new) }
{
    let mut state = match *note {
        ScanNote::Within(state) => state,
        ScanNote::Whole(len, used) => return Header::Sized(len, used),
    };
    let most = protocol.most_header();
    let mut used = seen;
    for byte in &bytes[seen..] {
        if used == most {
            return Header::Bad;
        }
        used += 1;
        match protocol.turn(state, *byte) {
            ScanStep::More(next) => {
                state = next;
            }
            ScanStep::Sized(len) => {
                *note = ScanNote::Whole(len, used);
                return Header::Sized(len, used);
            }
            ScanStep::Bad => return Header::Bad,
        }
    }
    if used == most {
        return Header::Bad;
    }
    *note = ScanNote::Within(state);
    Header::Short
}
