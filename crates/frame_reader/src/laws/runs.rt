//! Frames are payloads that are read and written in runs.
ghost use Rattle.std.specs.Prelude.{map};
ghost use Rattle.codec.specs.KnownPieces.{HasLeft};
ghost use Rattle.codec.specs.Runs.{AnswerPlays, all_handed};
ghost use Rattle.codec.specs.RunsLaws.{AnswerPlays-more, AnswerPlays-none};
ghost use Rattle.codec.specs.WriteRuns.{IsFault, WritePlays};
ghost use Rattle.codec.specs.WriteRunsLaws.{WritePlays-none, WritesPiece-fails, WritesPiece-takes};
ghost use Rattle.frame_reader.specs.declared.error.FrameError.TheVariants.{Io};
ghost use Rattle.frame_reader.specs.declared.frame.Frames.{Frames};
ghost use Rattle.frame_reader.specs.Framed.{framed, framed_out};
ghost use Rattle.frame_reader.specs.FramedLaws.{framed_writable};
ghost use Rattle.frame_reader.specs.Frames.{Fits};
ghost use Rattle.frame_reader.specs.Next.{FramesWent, Next};
ghost use Rattle.frame_reader.specs.NextLaws.{Next-answers, NextRuns-went};
ghost use Rattle.frame_reader.specs.WriteFrame.{WritesFrame, piece_refused, piece_written};
ghost use Rattle.frame_reader.specs.WriteFrameLaws.{WritesFrame-more};

use crate::error::{FrameError, WriteFrameError};
use crate::reader::FrameReader;
use crate::writer::FrameWriter;
use buffer_redux::tell::{TellRead, TellWrite};
use codec::laws::{KnownReader, PayloadReader, PayloadWriter};
use std::alloc::{AllocError, Global};
use std::io;

/// A call is one of `next`.
impl<R: TellRead> PayloadReader for FrameReader<R> {
    type Error = FrameError;

    ghost goes = { Next R.remaining };

    ghost plays = { AnswerPlays (Next R.remaining) (λ s answers t. FramesWent R.remaining s (all_handed answers) t) };

    fn next_copied(
        &mut self,
        alloc: Global,
    ) -> Result<Result<Option<Vec<u8>>, FrameError>, AllocError> {
        match self.next() {
            Ok(Some(payload)) => Ok(Ok(Some(Vec::from_slice(alloc, payload)?))),
            Ok(None) => Ok(Ok(None)),
            Err(e) => Ok(Err(e)),
        }
    }

    ghost plays_none = { AnswerPlays-none (Next R.remaining)
        (λ s answers t. FramesWent R.remaining s (all_handed answers) t) (NextRuns-went R.remaining) };

    ghost plays_more = { AnswerPlays-more (Next R.remaining)
        (λ s answers t. FramesWent R.remaining s (all_handed answers) t) (NextRuns-went R.remaining) };
}

impl<R: TellRead> KnownReader for FrameReader<R> {
    ghost has_left = { λ s. HasLeft R.remaining (framed s.decoder.max) s };

    ghost faults = { λ s. s.reader.log.reads.faults };

    ghost stream_error = { Io };

    fn into_io(error: FrameError) -> io::Error {
        match error {
            FrameError::Io(e) => e,
            FrameError::Truncated(_) | FrameError::TooLong(_) => unreachable!(),
        }
    }

    ghost answers_known = { Next-answers R.remaining };
}

/// A call is one of `write_frame`.
impl<W: TellWrite> PayloadWriter for FrameWriter<W> {
    type Error = WriteFrameError;

    ghost goes = { WritesFrame W.trace };

    ghost plays = { λ s payloads answers.
        WritePlays W.trace (framed_out s.encoder.max) s payloads (map piece_written answers) };

    ghost takes = { λ s. Fits s.encoder.max };

    ghost fault = { λ e. IsFault (piece_refused e) };

    fn write_payload(&mut self, payload: &[u8]) -> Result<(), WriteFrameError> {
        self.write_frame(payload)
    }

    ghost plays_none = { λ s. WritePlays-none W.trace W.trace_none (framed_out s.encoder.max) s };

    ghost plays_more = { WritesFrame-more W.trace W.trace_none W.trace_joins };

    ghost still_takes = { λ s payload answer.
        WritesPiece-takes W.trace (λ (d : Frames). framed_out d.max) s payload (piece_written answer) };

    ghost fails_by_fault = { λ s payload why. WritesPiece-fails W.trace (λ (d : Frames). framed_out d.max)
        (λ d. framed_writable d.max) s payload (piece_refused why) };
}
