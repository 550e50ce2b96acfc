//! Pieces that have their own end.
ghost use Rattle.std.specs.Prelude.{◌≡◌};
ghost use Rattle.codec.specs.FirstByte.{found_as};
ghost use Rattle.codec.specs.declared.ended.Unended.TheVariants as unended;

use piece_reader::{Decoder, End, Found, Items};
use std::error::Error;
use std::fmt;

/// Why bytes are no piece with its own end.
#[derive(Clone, Copy, Debug, PartialEq, Eq, Drop)]
pub enum Unended<W> {
    /// The bytes are no piece.
    Wrong(W),
    /// The stream ended after so many bytes of one.
    Cut(usize),
}

impl<W: fmt::Display> fmt::Display for Unended<W> {
    fn fmt<T: fmt::Write>(&self, f: &mut fmt::Formatter<T>) -> fmt::Result {
        match self {
            Unended::Wrong(why) => fmt::Display::fmt(why, f),
            Unended::Cut(have) => write!(f, "the stream ended after {} bytes of a piece", have),
        }
    }
}

impl<W: fmt::Debug + fmt::Display + Drop> Error for Unended<W> {}

/// The pieces of another decoder, but none that is one only since the stream ended: of a protocol of commands, a line that was
/// cut off is no command.
#[derive(Clone, Copy, Debug, Drop)]
pub struct Ended<D: Decoder>(pub D);

impl<D: Decoder> Decoder for Ended<D> {
    ghost use Rattle.codec.specs.Ended.{ended};
    ghost use Rattle.codec.specs.FirstByte.{SaidAs};
    ghost use Rattle.codec.specs.EndedLaws.{ended_lawful};

    type Wrong = Unended<D::Wrong>;

    type Note = D::Note;

    ghost grammar = { λ d. ended (D.grammar d.0) };

    ghost notes = { λ d. D.notes d.0 };

    ghost looks = { λ d bytes seen. SaidAs (λ e. unended.Wrong e) (D.looks d.0 bytes seen) };

    fn most(&self) -> usize {
        self.0.most()
    }

    #[inline(always)]
    fn no_note(&self) -> D::Note {
        self.0.no_note()
    }

    #[inline(always)]
    fn decode(&self, bytes: &[u8], seen: usize, note: &mut D::Note) -> Found<Unended<D::Wrong>> {
        as_ended(self.0.decode(bytes, seen, note))
    }

    fn at_end(&self, bytes: &[u8]) -> End<Unended<D::Wrong>> {
        End::Wrong(Unended::Cut(bytes.len()))
    }

    ghost lawful = { λ d. ended_lawful (D.grammar d.0) (D.lawful d.0) };
}

impl<D: Items> Items for Ended<D> {
    type Item = D::Item;

    ghost item_of = { λ d. D.item_of d.0 };

    #[inline(always)]
    fn item(&self, piece: &[u8]) -> D::Item {
        self.0.item(piece)
    }
}

// The answer of the other decoder.
#[inline(always)]
fn as_ended<W>(found: Found<W>) -> Found<Unended<W>>
    ensures { result ≡ found_as (λ e. unended.Wrong e) found }
{
    match found {
        Found::Piece(span, used) => Found::Piece(span, used),
        Found::More(need) => Found::More(need),
        Found::Wrong(e) => Found::Wrong(Unended::Wrong(e)),
    }
}
