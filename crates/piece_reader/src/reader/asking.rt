//! Whether the stream is asked next, and one ask of it.
ghost use Rattle.std.specs.Prelude.{◌≡◌, ◌<◌, ◌↔◌, [], length, Ok, IsTrue, true, false};
ghost use Rattle.piece_reader.specs.Grammar.{Begins};
ghost use Rattle.piece_reader.specs.Looking.{LookSays, LooksAtRest};
ghost use Rattle.piece_reader.specs.NextPiece.{Refills};
ghost use Rattle.piece_reader.specs.PieceReader.{IsSettled, rest};

use crate::decoder::{Decoder, Found};
use crate::reader::PieceReader;
use buffer_redux::tell::{Tell, TellRead};
use std::io;

impl<R: Tell, D: Decoder> PieceReader<R, D> {
    /// Whether a whole piece is buffered: then the next [`step`](PieceReader::step) hands it out, and reads nothing. It
    /// changes nothing, so what it looks at is looked at again.
    pub fn has_piece(&self) -> bool
        ensures none { rest self.now ≡ [] → result ≡ false }
        ensures looked { LooksAtRest (LookSays D.grammar D.looks) self.now }
        ensures buffered { IsTrue result ↔ Begins (D.grammar self.now.decoder) (rest self.now) }
    {
        let mut note = self.note;
        matches!(
            self.decoder.decode(self.rest(), self.seen, &mut note),
            Found::Piece(_, _)
        )
    }

    /// Whether the next [`step`](PieceReader::step) answers without the stream: a whole piece is buffered, or the beginning of
    /// none, or the stream ended, which no call has told yet. It changes nothing, so what it looks at is looked at again.
    pub fn is_settled(&self) -> bool
        ensures none { rest self.now ≡ [] → result ≡ self.now.ended }
        ensures looked { self.now.ended ≡ false → LooksAtRest (LookSays D.grammar D.looks) self.now }
        ensures settled { IsTrue result ↔ IsSettled (D.grammar self.now.decoder) self.now }
    {
        if self.ended {
            return true;
        }
        let mut note = self.note;
        match self.decoder.decode(self.rest(), self.seen, &mut note) {
            Found::Piece(_, _) => true,
            Found::More(_) => false,
            Found::Wrong(_) => true,
        }
    }
}

impl<R: TellRead, D: Decoder> PieceReader<R, D> {
    /// Asks the stream once, unless an end is untold, and returns whether something is left then: it isn't where the stream
    /// ended, which the next [`step`](PieceReader::step) tells. An `Err` leaves nothing, too.
    pub fn refill(&mut self) -> io::Result<bool>
        requires none { rest self.old ≡ [] }
        ensures came { result ≡ Ok true ↔ (0 < length (rest self.new)) }
        ensures refills { Refills R.remaining (D.grammar self.old.decoder) self.old result self.new }
    {
        self.drop_handed();
        let came = self.read_to(1)?;
        self.ended = !came;
        Ok(came)
    }
}
