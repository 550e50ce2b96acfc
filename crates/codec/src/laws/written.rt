//! Pieces are payloads that are written in runs.
ghost use Rattle.codec.specs.WritePiece.{WritesPiece};
ghost use Rattle.codec.specs.WriteRuns.{IsFault, WritePlays};
ghost use Rattle.codec.specs.WriteRunsLaws.{WritePlays-more, WritePlays-none, WritesPiece-fails, WritesPiece-takes};

use crate::encoder::Encoder;
use crate::error::WritePieceError;
use crate::laws::runs::PayloadWriter;
use crate::writer::PieceWriter;
use buffer_redux::tell::TellWrite;

/// A call is one of `write_piece`.
impl<W: TellWrite, E: Encoder> PayloadWriter for PieceWriter<W, E> {
    type Error = WritePieceError<E::Refusal>;

    ghost goes = { λ s. WritesPiece W.trace (E.encoding s.encoder) s };

    ghost plays = { λ s. WritePlays W.trace (E.encoding s.encoder) s };

    ghost takes = { λ s. (E.encoding s.encoder).takes };

    ghost fault = { IsFault };

    fn write_payload(&mut self, payload: &[u8]) -> Result<(), WritePieceError<E::Refusal>> {
        self.write_piece(payload)
    }

    ghost plays_none = { λ s. WritePlays-none W.trace W.trace_none (E.encoding s.encoder) s };

    ghost plays_more = { WritePlays-more W.trace W.trace_none W.trace_joins E.encoding };

    ghost still_takes = { WritesPiece-takes W.trace E.encoding };

    ghost fails_by_fault = { WritesPiece-fails W.trace E.encoding E.writable };
}
