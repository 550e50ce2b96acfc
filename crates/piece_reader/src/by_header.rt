//! The decoder of pieces that have a header.
ghost use Rattle.std.specs.Prelude.{◌≡◌, ◌↔◌, ◌+◌, ◌<◌, ◌≤◌, IsTrue, false, length, take};
ghost use Rattle.piece_reader.specs.HeaderFormat.{NeverFollows};

use crate::decoder::{Decoder, End, Found, Span};
use crate::header::Header;
use crate::header_error::HeaderError;
use crate::items::Items;
use crate::length_prefixed::LengthPrefixed;

/// The decoder of pieces that have a header. A length above the greatest is refused before anything is added to it. Once the
/// header is there, it asks for the payload and the first byte of the tail, and then for one more at a time, and refuses the
/// first that stands in no tail.
#[derive(Clone, Copy, Debug, Drop)]
pub struct ByHeader<H: LengthPrefixed>(pub H);

impl<H: LengthPrefixed> Decoder for ByHeader<H> {
    ghost use Rattle.piece_reader.specs.Decoding.{Decodes, OnMore};
    ghost use Rattle.piece_reader.specs.HeaderFormat.{AsksPayload, length_prefixed};
    ghost use Rattle.piece_reader.specs.HeaderFormatLaws.{length_prefixed_lawful};

    type Wrong = HeaderError;

    type Note = H::Note;

    ghost grammar = { λ d. length_prefixed (H.header_format d.0) };

    ghost notes = { λ d. H.notes d.0 };

    ghost looks = { λ d bytes _ found. OnMore found (AsksPayload (H.header_format d.0) bytes) };

    fn most(&self) -> usize {
        self.0.most_header() + self.0.max() + self.0.tail().len()
    }

    #[inline(always)]
    fn no_note(&self) -> H::Note {
        self.0.no_note()
    }

    #[inline(always)]
    fn decode(&self, bytes: &[u8], seen: usize, note: &mut H::Note) -> Found<HeaderError>
        requires within { seen ≤ length bytes.now }
        requires noted { H.notes self.now.0 (take seen bytes.now) note.old }
        ensures looks { OnMore result (AsksPayload (H.header_format self.now.0) bytes.now) }
        ensures leaves { OnMore result (λ _. H.notes self.now.0 bytes.now note.new) }
        ensures finds { Decodes (length_prefixed (H.header_format self.now.0)) bytes.now result }
    {
        match self.0.header(bytes, seen, note) {
            Header::Short => Found::More(1 + bytes.len()),
            Header::Bad => Found::Wrong(HeaderError::NoHeader),
            Header::Sized(len, used) => {
                if len > self.0.max() {
                    return Found::Wrong(HeaderError::TooLong(len));
                }
                let tail = self.0.tail();
                let whole = used + len + tail.len();
                if bytes.len() < whole {
                    if !may_follow(bytes, used + len, tail) {
                        return Found::Wrong(HeaderError::NoTail);
                    }
                    return Found::More((1 + bytes.len()).max(used + len + tail.len().min(1)));
                }
                let found = &bytes[used + len..whole];
                if !is_tail(found, tail) {
                    return Found::Wrong(HeaderError::NoTail);
                }
                Found::Piece(Span { from: used, len }, whole)
            }
        }
    }

    fn at_end(&self, bytes: &[u8]) -> End<HeaderError> {
        End::Wrong(HeaderError::Truncated(bytes.len()))
    }

    ghost lawful = { λ d. length_prefixed_lawful (H.header_format d.0) (H.headers d.0) };
}

impl<H: LengthPrefixed> Items for ByHeader<H> {
    type Item = ();

    ghost item_of = { λ _ _. tt };

    fn item(&self, _piece: &[u8]) {}
}

// Whether the tail may come behind so many bytes, where not all of it is there.
fn may_follow(bytes: &[u8], at: usize, tail: &[u8]) -> bool
    requires part { length bytes.now < at + length tail.now }
    ensures may { IsTrue result → ¬ (NeverFollows tail.now at bytes.now) }
    ensures never { result ≡ false → NeverFollows tail.now at bytes.now }
{
    bytes.len() <= at || tail.starts_with(&bytes[at..])
}

// Whether these are the bytes that stand behind a payload.
#[inline(always)]
fn is_tail(found: &[u8], tail: &[u8]) -> bool
    ensures { IsTrue result ↔ (found.now ≡ tail.now) }
{
    found == tail
}
