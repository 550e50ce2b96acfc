//! Headers that are text: some bytes, a number, and some bytes.
ghost use Rattle.std.specs.Prelude.{◌≡◌, ◌+◌, IsTrue, ◌↔◌};
ghost use Rattle.codec.specs.Number.{with_byte};
ghost use Rattle.codec.specs.TextHeaders.{Words, IsSound, counts, ends, enters, stands};

use crate::number::Number;
use crate::scan::{Scan, ScanStep};

/// A protocol whose pieces are some bytes, the payload's length in decimal, some bytes, the payload, and some bytes. Its
/// decoder is [`ByHeader`](crate::ByHeader) over [`ByScan`](crate::ByScan) over [`ByTextHeader`].
///
/// A length has a digit, none behind a zero in front, and at most 18.
pub trait TextHeader: Drop {
    // Which bytes these are, and how long a payload may be.
    ghost words: { Self → Words };

    /// What stands before the length.
    fn before(&self) -> &[u8]
        ensures { result.now ≡ (words self.now).before };

    /// What stands between the length and the payload.
    fn after(&self) -> &[u8]
        ensures { result.now ≡ (words self.now).after };

    /// What stands behind the payload.
    fn tail(&self) -> &[u8]
        ensures { result.now ≡ (words self.now).tail };

    /// No payload has more bytes.
    fn max(&self) -> usize
        ensures { result ≡ (words self.now).max };

    // Something stands between, and all is small.
    ghost sound: { (t : Self) → IsSound (words t) };
}

/// Where such a header stands.
#[derive(Clone, Copy, Debug, PartialEq, Eq, Drop)]
pub enum TextHeaderState {
    /// Within the bytes before the length: how many of them were there.
    Before(usize),
    /// Within the length: as much of it as was there.
    Length(Number),
    /// Within the bytes behind the length: how many of them were there, and the length.
    After(usize, usize),
}

/// The header that is text, read byte by byte.
#[derive(Clone, Copy, Debug, Drop)]
pub struct ByTextHeader<T: TextHeader>(pub T);

impl<T: TextHeader> ByTextHeader<T> {
    // Where a header stands behind so many of its first bytes.
    #[inline(always)]
    fn entered(&self, at: usize) -> TextHeaderState
        ensures { result ≡ enters (T.words self.now.0) at }
    {
        if at == self.0.before().len() {
            TextHeaderState::Length(Number::Empty)
        } else {
            TextHeaderState::Before(at)
        }
    }

    // What it is behind a length, and so many of the bytes behind that.
    #[inline(always)]
    fn ended(&self, at: usize, len: usize) -> ScanStep<TextHeaderState>
        ensures { result ≡ ends (T.words self.now.0) at len }
    {
        if at == self.0.after().len() {
            ScanStep::Sized(len)
        } else {
            ScanStep::More(TextHeaderState::After(at, len))
        }
    }

    // What it is in a length, or behind it.
    #[inline(always)]
    fn counted(&self, number: Number, byte: u8) -> ScanStep<TextHeaderState>
        ensures { result ≡ counts (T.words self.now.0) (with_byte number byte) number byte }
    {
        if let Some(more) = number.with(byte) {
            return ScanStep::More(TextHeaderState::Length(more));
        }
        match number {
            Number::Is(len) => {
                if is_there(self.0.after(), 0, byte) {
                    self.ended(1, len)
                } else {
                    ScanStep::Bad
                }
            }
            Number::Empty => ScanStep::Bad,
        }
    }
}

impl<T: TextHeader> Scan for ByTextHeader<T> {
    ghost use Rattle.codec.specs.TextHeaders.{text_scanning};
    ghost use Rattle.codec.specs.TextHeadersLaws.{text_small};

    type State = TextHeaderState;

    ghost scanning = { λ t. text_scanning (T.words t.0) };

    fn start(&self) -> TextHeaderState {
        self.entered(0)
    }

    #[inline(always)]
    fn turn(&self, state: TextHeaderState, byte: u8) -> ScanStep<TextHeaderState> {
        match state {
            TextHeaderState::Before(at) => {
                if is_there(self.0.before(), at, byte) {
                    ScanStep::More(self.entered(at + 1))
                } else {
                    ScanStep::Bad
                }
            }
            TextHeaderState::Length(number) => self.counted(number, byte),
            TextHeaderState::After(at, len) => {
                if is_there(self.0.after(), at, byte) {
                    self.ended(at + 1, len)
                } else {
                    ScanStep::Bad
                }
            }
        }
    }

    #[inline(always)]
    fn most_header(&self) -> usize {
        18 + self.0.before().len() + self.0.after().len()
    }

    #[inline(always)]
    fn max(&self) -> usize {
        self.0.max()
    }

    #[inline(always)]
    fn tail(&self) -> &[u8] {
        self.0.tail()
    }

    ghost small = { λ t. text_small (T.words t.0) (T.sound t.0) };
}

// Whether this byte stands at this place.
#[inline(always)]
fn is_there(bytes: &[u8], at: usize, byte: u8) -> bool
    ensures { result ≡ stands bytes.now at byte }
{
    at < bytes.len() && bytes[at] == byte
}
