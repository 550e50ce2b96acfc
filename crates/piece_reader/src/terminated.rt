//! Pieces that several bytes end, as an empty line behind a head.
ghost use Rattle.std.specs.Prelude.{◌≡◌, ℕ, ◌+◌, ◌<◌, ◌≤◌, ◌^◌, length, IsTrue, false};
ghost use Rattle.memchr.specs.Find.{FindsNeedle, OccursAt};
ghost use Rattle.piece_reader.specs.Terminated.{NeverEnds};

use crate::decoder::{Decoder, End, Found, Span};
use crate::delimited::TooLong;
use crate::items::Items;
use memchr::memmem;

/// Pieces of at most `max` bytes, each ended by the bytes `end`, which aren't counted: a piece goes up to where these stand
/// first. Behind `max` bytes the first one with which none can be there is too many. What stands behind the last end is a piece
/// too, where it is something; `Ended` of `codec` refuses that. If it is more than `max` bytes, it is [`TooLong`] too, though it
/// may go on to the end, so the next call asks again. One byte is a [`Delimited`](crate::Delimited). `end` has a byte or more,
/// and with it `max` is below 2^63.
///
/// ```
/// let end = Vec::from_slice(alloc, b"\r\n\r\n")?;
/// let heads = Terminated { end, max: 100 };
/// let stream = Told::new(b"a\r\nb\r\n\r\nc".as_slice());
/// let mut reader = PieceReader::new(alloc, stream, heads)?;
/// assert!(rt; matches!(reader.next(), Ok(Some(b"a\r\nb"))));
/// assert!(rt; matches!(reader.next(), Ok(Some(b"c"))));
/// assert!(rt; matches!(reader.next(), Ok(None)));
/// ```
#[derive(Debug, Drop)]
pub struct Terminated {
    pub end: Vec<u8>,
    pub max: usize,
    pub ghost some: { 0 < length end.items },
    pub ghost fits: { max + length end.items < 2 ^ 63 },
}

impl Decoder for Terminated {
    ghost use Rattle.piece_reader.specs.Terminated.{IsSearched, terminated};
    ghost use Rattle.piece_reader.specs.TerminatedLaws.{terminated_lawful};

    type Wrong = TooLong;

    type Note = ();

    ghost grammar = { λ d. terminated d.end.items d.max };

    ghost notes = { λ d bytes _. IsSearched d.end.items d.max bytes };

    fn most(&self) -> usize {
        self.max + self.end.len()
    }

    fn no_note(&self) {}

    fn decode(&self, bytes: &[u8], seen: usize, _note: &mut ()) -> Found<TooLong> {
        let end = self.end.as_slice();
        let to = bytes.len().min(self.max + end.len());
        match first_end(end, &bytes[..to], seen) {
            Some(len) => Found::Piece(Span { from: 0, len }, len + end.len()),
            None => {
                if may_end(end, bytes, self.max) {
                    Found::More(1 + bytes.len())
                } else {
                    Found::Wrong(TooLong(self.max))
                }
            }
        }
    }

    fn at_end(&self, bytes: &[u8]) -> End<TooLong> {
        if bytes.len() > self.max {
            return End::Wrong(TooLong(self.max));
        }
        End::Last(Span {
            from: 0,
            len: bytes.len(),
        })
    }

    ghost lawful = { λ d. terminated_lawful d.end.items d.max d.some };
}

impl Items for Terminated {
    type Item = ();

    ghost item_of = { λ _ _. tt };

    fn item(&self, _piece: &[u8]) {}
}

// Where the end stands first, which is not within the first `seen` bytes.
fn first_end(end: &[u8], bytes: &[u8], seen: usize) -> Option<usize>
    requires some { 0 < length end.now }
    requires within { seen ≤ length bytes.now }
    requires searched { (k : ℕ) → k + length end.now ≤ seen → ¬ OccursAt bytes.now end.now k }
    ensures { FindsNeedle bytes.now end.now 0 result }
{
    let from = seen.saturating_sub(end.len() - 1);
    match memmem::find(&bytes[from..], end) {
        Some(at) => Some(from + at),
        None => None,
    }
}

// Whether the end may come at a place up to `max`, at none of which it stands yet.
fn may_end(end: &[u8], bytes: &[u8], max: usize) -> bool
    requires some { 0 < length end.now }
    requires fits { max + length end.now < 2 ^ 63 }
    requires none { (k : ℕ) → k ≤ max → ¬ OccursAt bytes.now end.now k }
    ensures may { IsTrue result → ¬ (NeverEnds end.now (max + 1) bytes.now) }
    ensures never { result ≡ false → NeverEnds end.now (max + 1) bytes.now }
    ensures few { IsTrue result → length bytes.now < max + length end.now }
{
    if bytes.len() <= max {
        return true;
    }
    for at in bytes.len().saturating_sub(end.len() - 1)..max + 1 {
        if end.starts_with(&bytes[at..]) {
            return true;
        }
    }
    false
}
