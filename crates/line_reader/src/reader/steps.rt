//! The steps of a reader of lines: what is buffered is handed out or dropped, and the stream is asked.
ghost use Rattle.std.specs.Prelude.{◌≡◌, length, IfOk, IfSome, true, false};
ghost use Rattle.std.specs.Bool.{OnFalse, OnTrue};
ghost use Rattle.piece_reader.specs.Decoding.{IsLent, bytes_at};
ghost use Rattle.piece_reader.specs.Grammar.{Begins, IsOpen};
ghost use Rattle.piece_reader.specs.NextPiece.{buffered_answer, load_answer};
ghost use Rattle.piece_reader.specs.PieceReader.{rest};
ghost use Rattle.piece_reader.specs.Trimming.{IsTrimmed};
ghost use Rattle.line_reader.specs.LineReader.{IsLineReader, lined};
ghost use Rattle.line_reader.specs.NextLine.{NextBufferedLine, NextLine};
ghost use Rattle.line_reader.specs.SkipLine.{DropsLine, DropsThrough};

use crate::error::LineError;
use crate::line::trimmed;
use crate::reader::LineReader;
use buffer_redux::tell::{Tell, TellRead};
use piece_reader::{NextError, Span, TooLong, find_end};
use std::io;
use std::io::ErrorKind;

// One call skips at most so many bytes, and as many more as are buffered.
const MOST_SKIPPED: u64 = 1 << 63;

impl<R: Tell> LineReader<R> {
    // The line that the last step handed out, without the carriage return before its end; the last one has none.
    #[inline(always)]
    pub(super) fn shown(&self, span: Span) -> &[u8]
        requires { IsLent (lined self.now.pieces.decoder.max) self.now.pieces.handed self.now.pieces.reader.block.bytes span }
        ensures last { OnTrue self.now.pieces.ended (result.now ≡ bytes_at span self.now.pieces.reader.block.bytes) }
        ensures trimmed { OnFalse self.now.pieces.ended
            (IsTrimmed (bytes_at span self.now.pieces.reader.block.bytes) result.now) }
    {
        let line = self.lent(span);
        if self.pieces.has_ended() {
            line
        } else {
            trimmed(line)
        }
    }

    // Drops the bytes through the next end of a line, or all that are buffered; how many they are, and whether the end was
    // there.
    pub(super) fn drop_line(&mut self) -> (usize, bool)
        ensures drops { DropsLine self.old.pieces result.0 result.1 self.new.pieces }
        ensures skipping { self.new.skipping ≡ self.old.skipping }
    {
        let left = self.pieces.rest();
        let (count, found) = match find_end(b'\n', left, self.pieces.looked(), left.len()) {
            Some(len) => (1 + len, true),
            None => (left.len(), false),
        };
        self.pieces.skip(count);
        (count, found)
    }
}

impl<R: TellRead> LineReader<R> {
    // Hands the next line out where it is buffered whole, and says where it is. What was searched before isn't searched again.
    #[inline(always)]
    pub(super) fn step_buffered(&mut self) -> Option<Span>
        ensures before { IsLineReader self.old }
        ensures next { NextBufferedLine R.remaining self.old (buffered_answer result self.new.pieces) self.new }
        ensures lends { IfSome result
            (IsLent (lined self.new.pieces.decoder.max) self.new.pieces.handed self.new.pieces.reader.block.bytes) }
        ensures going { IfSome result (λ _. self.new.pieces.ended ≡ false) }
    {
        self.pieces.step_buffered()
    }

    // Has the next line stand whole in the buffer, hands it out, and says where it is. It is inlined, so that `load_line` is
    // called where its answer is looked at; as a part of one step with `step_buffered` it would have an error cleared for it.
    #[inline(always)]
    pub(super) fn load(&mut self) -> Result<Option<Span>, LineError>
        requires none { ¬ (Begins (lined self.old.pieces.decoder.max) (rest self.old.pieces)) }
        requires looked { IsOpen (lined self.old.pieces.decoder.max) (rest self.old.pieces)
            → self.old.pieces.seen ≡ length (rest self.old.pieces) }
        ensures next { NextLine R.remaining self.old (load_answer result self.new.pieces) self.new }
        ensures lends { IfOk result (λ found. IfSome found
            (IsLent (lined self.new.pieces.decoder.max) self.new.pieces.handed self.new.pieces.reader.block.bytes)) }
    {
        if self.skipping {
            self.load_apart()
        } else {
            self.load_line()
        }
    }

    // Goes on in `load_behind`. The kit's compiler clears the answer of a call where the function that makes the call begins; of
    // a call made in here, which is inlined, that is behind the test of `load`.
    #[inline(always)]
    fn load_apart(&mut self) -> Result<Option<Span>, LineError>
        requires skipping { self.old.skipping ≡ true }
        ensures next { NextLine R.remaining self.old (load_answer result self.new.pieces) self.new }
        ensures lends { IfOk result (λ found. IfSome found
            (IsLent (lined self.new.pieces.decoder.max) self.new.pieces.handed self.new.pieces.reader.block.bytes)) }
    {
        self.load_behind()
    }

    // Skips a line that is being skipped first, and then does as `load_line`.
    #[inline(never)]
    fn load_behind(&mut self) -> Result<Option<Span>, LineError>
        requires skipping { self.old.skipping ≡ true }
        ensures next { NextLine R.remaining self.old (load_answer result self.new.pieces) self.new }
        ensures lends { IfOk result (λ found. IfSome found
            (IsLent (lined self.new.pieces.decoder.max) self.new.pieces.handed self.new.pieces.reader.block.bytes)) }
    {
        self.skip_line()?;
        match self.step_buffered() {
            Some(span) => Ok(Some(span)),
            None => self.load_line(),
        }
    }

    // Has the next line stand whole in the buffer, hands it out, and says where it is, where no line is being skipped.
    #[inline(never)]
    fn load_line(&mut self) -> Result<Option<Span>, LineError>
        requires open { self.old.skipping ≡ false }
        requires none { ¬ (Begins (lined self.old.pieces.decoder.max) (rest self.old.pieces)) }
        requires looked { IsOpen (lined self.old.pieces.decoder.max) (rest self.old.pieces)
            → self.old.pieces.seen ≡ length (rest self.old.pieces) }
        ensures next { NextLine R.remaining self.old (load_answer result self.new.pieces) self.new }
        ensures lends { IfOk result (λ found. IfSome found
            (IsLent (lined self.new.pieces.decoder.max) self.new.pieces.handed self.new.pieces.reader.block.bytes)) }
    {
        let have = self.pieces.rest().len();
        let max = self.pieces.decoder().max;
        if have > max {
            return Err(LineError::TooLong(max));
        }
        match self.pieces.step_on(1 + have) {
            Ok(found) => Ok(found),
            Err(NextError::Wrong(TooLong(max))) => Err(LineError::TooLong(max)),
            Err(NextError::Io(e)) => Err(LineError::Io(e)),
        }
    }

    // Drops the bytes through the next end of a line, or all before that of the stream, and returns how many they are.
    pub(super) fn drop_through(&mut self) -> io::Result<u64>
        requires open { self.old.skipping ≡ false }
        ensures { DropsThrough R.remaining self.old.pieces result self.new.pieces }
    {
        let mut dropped = 0u64;
        'turns: loop {
            let (count, found) = self.drop_line();
            dropped += count as u64;
            if found {
                return Ok(dropped);
            }
            if dropped > MOST_SKIPPED {
                return Err(io::Error::from(ErrorKind::Other));
            }
            if !self.pieces.refill()? {
                return Ok(dropped);
            }
        }
    }
}
