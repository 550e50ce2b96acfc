//! The reader of pieces that have a header.
ghost use Rattle.std.specs.Prelude.{◌≤◌, length, IfOk, IfSome};
ghost use Rattle.std.specs.Borrow.{sem};
ghost use Rattle.std.specs.Io.BufRead.{Rests};
ghost use Rattle.piece_reader.specs.contracts.by_header.ByHeader.{the_row as by_header_row};
ghost use Rattle.piece_reader.specs.contracts.header_error.HeaderError.{the_row as error_row};
ghost use Rattle.piece_reader.specs.contracts.reader.PieceReader.{the_row};
ghost use Rattle.piece_reader.specs.NextPayload.{NextPayload};
ghost use Rattle.piece_reader.specs.NextPiece.{answer_of};

use crate::by_header::ByHeader;
use crate::decoder::Decoder;
use crate::error::NextError;
use crate::header_error::HeaderError;
use crate::length_prefixed::LengthPrefixed;
use crate::reader::PieceReader;
use buffer_redux::tell::TellRead;

impl<R: TellRead, H: LengthPrefixed> PieceReader<R, ByHeader<H>> {
    /// Lends the payload of the next piece, as [`step`](PieceReader::step) and [`lent`](PieceReader::lent) do in two calls. The
    /// last read has room for all of the payload, once the header is there.
    #[inline(always)]
    pub fn next(&mut self) -> Result<Option<&[u8]>, NextError<HeaderError>>
        ensures fits { IfOk result (λ found. IfSome found (λ payload.
            length payload.now ≤ (H.header_format self.old.decoder.0).max)) }
        ensures* after_borrow { sem 𝓛 (Rests
            (the_row R.row (by_header_row H.row H.Note.row) error_row H.Note.row R.Tell ⟦<ByHeader<H> as Decoder>⟧) self.entry
            (NextPayload R.remaining (H.header_format self.entry.now.decoder.0) self.entry.now (answer_of result))) }
    {
        match self.step()? {
            Some(span) => Ok(Some(self.lent(span))),
            None => Ok(None),
        }
    }
}
