//! Lines are payloads that are read in runs.
ghost use Rattle.std.specs.Prelude.{◌≡◌, false};
ghost use Rattle.piece_reader.specs.KnownPieces.{HasLeft};
ghost use Rattle.piece_reader.specs.Runs.{AnswerPlays};
ghost use Rattle.piece_reader.specs.RunsLaws.{AnswerPlays-more, AnswerPlays-none};
ghost use Rattle.line_reader.specs.declared.error.LineError.TheVariants.{Io};
ghost use Rattle.line_reader.specs.KnownLinesLaws.{NextLine-answers};
ghost use Rattle.line_reader.specs.LineReader.{lined};
ghost use Rattle.line_reader.specs.Runs.{LineRunWent};
ghost use Rattle.line_reader.specs.RunsLaws.{LineRuns-went};
ghost use Rattle.line_reader.specs.NextLine.{NextLine};

use crate::error::LineError;
use crate::reader::LineReader;
use buffer_redux::tell::TellRead;
use piece_reader::{KnownReader, PayloadReader};
use std::alloc::{AllocError, Global};
use std::io;

/// A call is one of `next`.
impl<R: TellRead> PayloadReader for LineReader<R> {
    type Error = LineError;

    ghost goes = { NextLine R.remaining };

    ghost plays = { AnswerPlays (NextLine R.remaining) (LineRunWent R.remaining) };

    fn next_copied(
        &mut self,
        alloc: Global,
    ) -> Result<Result<Option<Vec<u8>>, LineError>, AllocError> {
        match self.next() {
            Ok(Some(line)) => Ok(Ok(Some(Vec::from_slice(alloc, line)?))),
            Ok(None) => Ok(Ok(None)),
            Err(e) => Ok(Err(e)),
        }
    }

    ghost plays_none = { AnswerPlays-none (NextLine R.remaining) (LineRunWent R.remaining) (LineRuns-went R.remaining) };

    ghost plays_more = { AnswerPlays-more (NextLine R.remaining) (LineRunWent R.remaining) (LineRuns-went R.remaining) };
}

impl<R: TellRead> KnownReader for LineReader<R> {
    ghost has_left = { λ f lines.
        HasLeft R.remaining (lined f.pieces.decoder.max) f.pieces lines × (f.skipping ≡ false) };

    ghost faults = { λ s. s.pieces.reader.log.reads.faults };

    ghost stream_error = { Io };

    fn into_io(error: LineError) -> io::Error {
        match error {
            LineError::Io(e) => e,
            LineError::TooLong(_) => unreachable!(),
        }
    }

    ghost answers_known = { NextLine-answers R.remaining };
}
