//! The reader of pieces that several bytes end.
ghost use Rattle.std.specs.Prelude.{◌≡◌, ◌≤◌, length, take, IfOk, IfSome};
ghost use Rattle.std.specs.Borrow.{sem, unit};
ghost use Rattle.std.specs.Io.BufRead.{Rests};
ghost use Rattle.piece_reader.specs.contracts.delimited.TooLong.{the_row as too_long_row};
ghost use Rattle.piece_reader.specs.contracts.reader.PieceReader.{the_row};
ghost use Rattle.piece_reader.specs.contracts.terminated.Terminated.{the_row as terminated_row};
ghost use Rattle.piece_reader.specs.NextPiece.{NextPiece, answer_of};
ghost use Rattle.piece_reader.specs.PieceReader.{rest};
ghost use Rattle.piece_reader.specs.Terminated.{terminated};

use crate::decoder::Decoder;
use crate::delimited::TooLong;
use crate::error::NextError;
use crate::reader::PieceReader;
use crate::terminated::Terminated;
use buffer_redux::tell::TellRead;

impl<R: TellRead> PieceReader<R, Terminated> {
    /// [`step`](PieceReader::step) and [`lent`](PieceReader::lent) in one.
    #[inline(always)]
    pub fn next(&mut self) -> Result<Option<&[u8]>, NextError<TooLong>>
        ensures begins { IfOk result (λ found. IfSome found (λ payload.
            take (length payload.now) (rest self.old) ≡ take (length (rest self.old)) payload.now)) }
        ensures fits { IfOk result (λ found. IfSome found (λ payload. length payload.now ≤ self.old.decoder.max)) }
        ensures* after_borrow { sem 𝓛 (Rests
            (the_row R.row terminated_row too_long_row unit R.Tell ⟦<Terminated as Decoder>⟧) self.entry
            (NextPiece R.remaining (terminated self.entry.now.decoder.end.items self.entry.now.decoder.max) self.entry.now
            (answer_of result))) }
    {
        match self.step()? {
            Some(span) => Ok(Some(self.lent(span))),
            None => Ok(None),
        }
    }
}
