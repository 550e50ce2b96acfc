//! Pieces whose payloads are shown without a carriage return.
ghost use Rattle.std.specs.Prelude.{◌+◌, ◌≤◌, length};
ghost use Rattle.piece_reader.specs.Decoding.{bytes_at};
ghost use Rattle.piece_reader.specs.Trimming.{IsTrimmed};

use crate::decoder::{Decoder, End, Found, Span};
use crate::items::Items;

/// The pieces of another decoder, each without the carriage return that its payload may end with, as std's `lines` has them: a
/// last one, behind which no end stands, is shown whole. A carriage return is a byte of the payload for the other decoder, so
/// it counts where that has a greatest length.
///
/// ```
/// let lines = Trimmed(Delimited { end: b'\n', max: 9 });
/// let mut reader = PieceReader::new(alloc, Told::new(b"one\r\ntwo\n\r".as_slice()), lines)?;
/// assert!(rt; matches!(reader.next(), Ok(Some(b"one"))));
/// assert!(rt; matches!(reader.next(), Ok(Some(b"two"))));
/// assert!(rt; matches!(reader.next(), Ok(Some(b"\r"))));
/// assert!(rt; matches!(reader.next(), Ok(None)));
/// ```
#[derive(Clone, Copy, Debug, Drop)]
pub struct Trimmed<D: Decoder>(pub D);

impl<D: Decoder> Decoder for Trimmed<D> {
    ghost use Rattle.std.specs.Prelude.{◌≡◌};
    ghost use Rattle.piece_reader.specs.declared.decoder.Found.{Found};
    ghost use Rattle.piece_reader.specs.declared.decoder.Found.TheVariants.{More};
    ghost use Rattle.piece_reader.specs.Decoding.{OnMore};
    ghost use Rattle.piece_reader.specs.Trimming.{trimming};
    ghost use Rattle.piece_reader.specs.TrimmingLaws.{trimming_lawful};

    type Wrong = D::Wrong;

    type Note = D::Note;

    ghost grammar = { λ d. trimming (D.grammar d.0) };

    ghost notes = { λ d. D.notes d.0 };

    ghost looks = { λ d bytes seen found. (whole : Found D.Wrong) × D.looks d.0 bytes seen whole
        × OnMore found (λ n. whole ≡ More n) };

    fn most(&self) -> usize {
        self.0.most()
    }

    #[inline(always)]
    fn no_note(&self) -> D::Note {
        self.0.no_note()
    }

    #[inline(always)]
    fn decode(&self, bytes: &[u8], seen: usize, note: &mut D::Note) -> Found<D::Wrong> {
        match self.0.decode(bytes, seen, note) {
            Found::Piece(span, used) => Found::Piece(without_cr(bytes, span), used),
            Found::More(need) => Found::More(need),
            Found::Wrong(e) => Found::Wrong(e),
        }
    }

    fn at_end(&self, bytes: &[u8]) -> End<D::Wrong> {
        self.0.at_end(bytes)
    }

    ghost lawful = { λ d. trimming_lawful (D.grammar d.0) (D.lawful d.0) };
}

impl<D: Items> Items for Trimmed<D> {
    type Item = D::Item;

    ghost item_of = { λ d. D.item_of d.0 };

    #[inline(always)]
    fn item(&self, piece: &[u8]) -> D::Item {
        self.0.item(piece)
    }
}

// Where the bytes are without the carriage return that they may end with.
#[inline(always)]
fn without_cr(bytes: &[u8], span: Span) -> Span
    requires { span.from + span.len ≤ length bytes.now }
    ensures within { result.from + result.len ≤ span.from + span.len }
    ensures trimmed { IsTrimmed (bytes_at span bytes.now) (bytes_at result bytes.now) }
{
    match &bytes[span.from..span.from + span.len] {
        [front @ .., b'\r'] => Span {
            from: span.from,
            len: front.len(),
        },
        _ => span,
    }
}
