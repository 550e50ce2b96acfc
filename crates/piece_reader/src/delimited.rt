//! Pieces that a byte ends, as a line feed or a NUL.
ghost use Rattle.std.specs.Prelude.{◌+◌, ◌<◌, ◌≤◌, ◌^◌, length, take, IfSome, IfNone};
ghost use Rattle.piece_reader.specs.Plain.{EndsAt, IsPlain};

use crate::decoder::{Decoder, End, Found, Span};
use crate::items::Items;
use memchr::memchr;
use std::error::Error;
use std::fmt;

/// The bytes before the end are more than this, which is the most that a payload has.
#[derive(Clone, Copy, Debug, PartialEq, Eq, Drop)]
pub struct TooLong(pub usize);

impl fmt::Display for TooLong {
    fn fmt<W: fmt::Write>(&self, f: &mut fmt::Formatter<W>) -> fmt::Result {
        write!(f, "a payload of more than {} bytes is too long", self.0)
    }
}

impl Error for TooLong {}

/// Pieces of at most `max` bytes, each ended by the byte `end`, which isn't counted. What stands behind the last end is a piece
/// too, where it is something. `max` is below 2^63.
///
/// ```
/// let lines = Delimited { end: b'\n', max: 9 };
/// let mut reader = PieceReader::new(alloc, Told::new(b"one\n\nlast".as_slice()), lines)?;
/// assert!(rt; matches!(reader.next(), Ok(Some(b"one"))));
/// assert!(rt; reader.has_piece());
/// assert!(rt; matches!(reader.next(), Ok(Some(b""))));
/// assert!(rt; !reader.has_piece());
/// assert!(rt; matches!(reader.next(), Ok(Some(b"last"))));
/// assert!(rt; matches!(reader.next(), Ok(None)));
/// ```
#[derive(Clone, Copy, Debug, Drop)]
pub struct Delimited {
    pub end: u8,
    pub max: usize,
    pub ghost fits: { max < 2 ^ 63 },
}

impl Decoder for Delimited {
    ghost use Rattle.piece_reader.specs.Delimited.{delimited};
    ghost use Rattle.piece_reader.specs.DelimitedLaws.{delimited_lawful};

    type Wrong = TooLong;

    type Note = ();

    ghost grammar = { λ d. delimited d.end d.max };

    fn most(&self) -> usize {
        1 + self.max
    }

    fn no_note(&self) {}

    #[inline(always)]
    fn decode(&self, bytes: &[u8], seen: usize, _note: &mut ()) -> Found<TooLong> {
        let to = bytes.len().min(1 + self.max);
        match find_end(self.end, bytes, seen, to) {
            Some(len) => Found::Piece(Span { from: 0, len }, 1 + len),
            None => {
                if bytes.len() > self.max {
                    Found::Wrong(TooLong(self.max))
                } else {
                    Found::More(1 + bytes.len())
                }
            }
        }
    }

    fn at_end(&self, bytes: &[u8]) -> End<TooLong> {
        End::Last(Span {
            from: 0,
            len: bytes.len(),
        })
    }

    ghost lawful = { λ d. delimited_lawful d.end d.max };
}

impl Items for Delimited {
    type Item = ();

    ghost item_of = { λ _ _. tt };

    fn item(&self, _piece: &[u8]) {}
}

/// Where the first end is, which is none of the first `from` bytes, if that is before `to`.
#[inline(always)]
pub fn find_end(end: u8, bytes: &[u8], from: usize, to: usize) -> Option<usize>
    requires within { to ≤ length bytes.now }
    requires order { from ≤ to }
    requires plain { IsPlain end (take from bytes.now) }
    ensures found { IfSome result (λ at. (at < to) × EndsAt end at bytes.now) }
    ensures none { IfNone result (IsPlain end (take to bytes.now)) }
{
    match first_end(end, &bytes[from..to]) {
        Some(at) => Some(from + at),
        None => None,
    }
}

// Where the first end is.
#[inline(always)]
fn first_end(end: u8, bytes: &[u8]) -> Option<usize>
    ensures found { IfSome result (λ at. (at < length bytes.now) × EndsAt end at bytes.now) }
    ensures none { IfNone result (IsPlain end bytes.now) }
{
    match memchr(end, bytes) {
        Some(at) => Some(at),
        None => None,
    }
}
