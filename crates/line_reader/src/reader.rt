//! The reader of lines.
ghost use Rattle.std.specs.Prelude.{◌≡◌, ℕ, ◌+◌, ◌*◌, ◌<◌, ◌≤◌, ◌^◌, ◌↔◌, List, [], ◌∷◌, ◌++◌, drop, length, take, Ok, Err, Some, None, IfOk, IfErr, IfSome, IsOk, IsTrue, true, false, option_copied};
ghost use Rattle.std.specs.Borrow.{Lends, sem};
ghost use Rattle.std.specs.Io.BufRead.{Rests};
ghost use Rattle.buffer_redux.specs.Block.{Plain};
ghost use Rattle.buffer_redux.specs.Buffered.{with_inner};
ghost use Rattle.buffer_redux.specs.GrowError.{FitsWithin};
ghost use Rattle.buffer_redux.specs.MakeError.{growth};
ghost use Rattle.line_reader.specs.contracts.reader.LineReader.{the_row};
ghost use Rattle.line_reader.specs.Lines.{BeginsTooLong, IsLine, newline};
ghost use Rattle.piece_reader.specs.Decoding.{IsLent, bytes_at};
ghost use Rattle.piece_reader.specs.NextPiece.{answer_of, load_answer};
ghost use Rattle.piece_reader.specs.PieceReader.{IsFresh, IsOver, TakenApart, rest, room_for};
ghost use Rattle.line_reader.specs.LineReader.{HasLine, IsLineReader, lined};
ghost use Rattle.line_reader.specs.NextLine.{NextBufferedLine, NextLine, NextTrimmed};
ghost use Rattle.line_reader.specs.SkipLine.{SkipsLine};

mod steps;

use crate::error::LineError;
use crate::line::{Lines, trimmed};
use buffer_redux::tell::{Tell, TellRead};
use buffer_redux::{Buffer, DEFAULT_BUF_SIZE, GrowError, MAX_CAPACITY, MakeError};
use piece_reader::{PieceReader, Span};
use std::alloc::Global;
use std::io;
use std::marker::Model;

/// A reader of lines that have at most so many bytes, their ends not counted.
///
/// It lends each line out of a plain buffer, in which three lines fit with their ends. The makers take its memory, and no
/// other call takes any. In a buffer of its own it moves no more bytes than it reads.
///
/// ```
/// let mut reader = LineReader::new(alloc, Told::new(b"one\n\nlast".as_slice()), 100)?;
/// assert!(rt; matches!(reader.next(), Ok(Some(b"one"))));
/// assert!(rt; matches!(reader.next(), Ok(Some(b""))));
/// assert!(rt; matches!(reader.next(), Ok(Some(b"last"))));
/// assert!(rt; matches!(reader.next(), Ok(None)));
/// ```
#[derive(Drop)]
pub struct LineReader<R: Tell> {
    pieces: PieceReader<R, Lines>,
    // Whether a line is being skipped, of which the end hasn't come. Then nothing is left, so only `load` looks at this.
    skipping: bool,
}

impl<R: Tell> Model for LineReader<R> {
    ghost use Rattle.line_reader.specs.LineReader.{IsLineReader, LineState};

    ghost Value = { LineState R };

    ghost view = { λ f. record { pieces = f.pieces; skipping = f.skipping } };

    ghost invariant = { λ f. IsLineReader (record { pieces = f.pieces; skipping = f.skipping }) };
}

impl<R: Tell> LineReader<R> {
    /// A reader of lines of at most `max` bytes, over a buffer of [`DEFAULT_BUF_SIZE`] bytes, or of what three lines take
    /// where that is more. A refusal hands `inner` back.
    pub fn new(alloc: Global, inner: R, max: usize) -> Result<Self, MakeError<R>>
        ensures over { IfOk result (λ f. (f.pieces.reader.inner ≡ inner) × (f.pieces.reader.block.bytes ≡ [])) }
        ensures made { IfOk result (λ f. IsFresh R.log 8192 (1 + max) inner f.pieces.decoder f.pieces) }
        ensures max { IfOk result (λ f. f.pieces.decoder.max ≡ max) }
        ensures going { IfOk result (λ f. f.skipping ≡ false) }
        ensures whole { IfOk result IsLineReader }
        ensures handed_back { IfErr result (λ e. e.0 ≡ inner) }
        ensures within { FitsWithin (growth result) (room_for 8192 (1 + max)) (2 ^ 62) }
    {
        LineReader::with_capacity(alloc, DEFAULT_BUF_SIZE, inner, max)
    }

    /// The same over a buffer of `capacity` bytes, or of what three lines take where that is more.
    pub fn with_capacity(
        alloc: Global,
        capacity: usize,
        inner: R,
        max: usize,
    ) -> Result<Self, MakeError<R>>
        ensures over { IfOk result (λ f. (f.pieces.reader.inner ≡ inner) × (f.pieces.reader.block.bytes ≡ [])) }
        ensures made { IfOk result (λ f. IsFresh R.log capacity (1 + max) inner f.pieces.decoder f.pieces) }
        ensures max { IfOk result (λ f. f.pieces.decoder.max ≡ max) }
        ensures going { IfOk result (λ f. f.skipping ≡ false) }
        ensures whole { IfOk result IsLineReader }
        ensures handed_back { IfErr result (λ e. e.0 ≡ inner) }
        ensures within { FitsWithin (growth result) (room_for capacity (1 + max)) (2 ^ 62) }
    {
        if max >= MAX_CAPACITY {
            return Err(MakeError(inner, GrowError::TooLarge));
        }
        match PieceReader::with_capacity(alloc, capacity, inner, Lines { max }) {
            Ok(pieces) => Ok(LineReader {
                pieces,
                skipping: false,
            }),
            Err(MakeError(back, e)) => Err(MakeError(back.0, e)),
        }
    }

    /// The same over a buffer of yours, as [`PieceReader::with_buffer`]: the bytes that `buffer` holds are read first, as the
    /// beginning of a line. A refusal hands both back.
    pub fn with_buffer(
        alloc: Global,
        buffer: Buffer,
        inner: R,
        max: usize,
    ) -> Result<Self, MakeError<(Buffer, R)>>
        ensures over { IfOk result (λ f. (f.pieces.reader.inner ≡ inner) × (rest f.pieces ≡ buffer.bytes)) }
        ensures made { IfOk result (λ f. IsOver R.log (1 + max) buffer inner f.pieces.decoder f.pieces) }
        ensures max { IfOk result (λ f. f.pieces.decoder.max ≡ max) }
        ensures going { IfOk result (λ f. f.skipping ≡ false) }
        ensures whole { IfOk result IsLineReader }
        ensures handed_back { IfErr result (λ e. (e.0.0 ≡ buffer) × (e.0.1 ≡ inner)) }
        ensures within { FitsWithin (growth result) (room_for buffer.capacity (1 + max)) (2 ^ 62) }
        ensures kept { buffer.kind ≡ Plain → 3 * (1 + max) ≤ buffer.capacity → max < 2 ^ 62 → IsOk result }
    {
        if max >= MAX_CAPACITY {
            return Err(MakeError((buffer, inner), GrowError::TooLarge));
        }
        match PieceReader::with_buffer(alloc, buffer, inner, Lines { max }) {
            Ok(pieces) => Ok(LineReader {
                pieces,
                skipping: false,
            }),
            Err(MakeError(back, e)) => Err(MakeError((back.0, back.1), e)),
        }
    }

    /// The inner reader.
    pub fn get_ref(&self) -> &R
        ensures inner { result.now ≡ self.now.pieces.reader.inner }
        ensures log { R.log result.now ≡ self.now.pieces.reader.log }
        ensures whole { IsLineReader self.now }
    {
        self.pieces.get_ref()
    }

    /// The inner reader, for changes. What is read through this is not in the lines. A new stream that is put here is read where
    /// the old one was: behind what is buffered of that, which may be the beginning of a line. Its first line is dropped where
    /// [`is_skipping`](LineReader::is_skipping), as the end of the one that is being skipped. And an end of the old one that no
    /// call has told yet, behind a last line that had none, is told first. So put it into a new reader, unless the last call
    /// answered `None`.
    pub fn get_mut(&mut self) -> &mut R
        ensures* writes_back { sem 𝓛 (Lends (the_row R.row R.Tell) R.row
            self.entry result (λ stream. record self.old {
              pieces =
                  record self.old.pieces { reader = with_inner R.log self.old.pieces.reader stream };
            })) }
        ensures inner { result.now ≡ self.old.pieces.reader.inner }
        ensures log { R.log result.now ≡ self.old.pieces.reader.log }
    {
        self.pieces.get_mut()
    }

    /// The inner reader. What is buffered is gone, and so is an end that no call has told; [`rest`](LineReader::rest) and
    /// [`has_ended`](LineReader::has_ended) show them before. Where a line [`is_skipping`](LineReader::is_skipping) the stream
    /// goes on in the middle of it.
    pub fn into_inner(self) -> R
        ensures inner { result ≡ self.pieces.reader.inner }
        ensures log { R.log result ≡ self.pieces.reader.log }
    {
        let LineReader {
            pieces,
            skipping: _,
        } = self;
        pieces.into_inner()
    }

    /// The inner reader, and the buffer with the bytes that weren't handed out. Its limit is its capacity, so it doesn't grow
    /// until [`set_limit`](Buffer::set_limit) raises that.
    ///
    /// The last part is whether the stream ended, which no call has told yet ([`has_ended`](LineReader::has_ended)): a reader
    /// that is made of the others doesn't know that, and would ask the stream again.
    ///
    /// Where a line [`is_skipping`](LineReader::is_skipping) the reader is handed back as it was, since the stream goes on in
    /// the middle of that line: a [`skip_line`](LineReader::skip_line) that is Ok goes through its end.
    pub fn into_inner_with_buffer(self) -> Result<(R, Buffer, bool), Self>
        ensures left { IfOk result (λ parts. (parts.0 ≡ self.pieces.reader.inner) × (parts.1.bytes ≡ rest self.pieces)) }
        ensures ended { IfOk result (λ parts. parts.2 ≡ self.pieces.ended) }
        ensures between { IsOk result ↔ (self.skipping ≡ false) }
        ensures handed_back { IfErr result (λ back. back ≡ self) }
        ensures apart { IfOk result (λ parts. TakenApart R.log self.pieces parts.0 parts.1) }
    {
        if self.skipping {
            return Err(self);
        }
        let LineReader {
            pieces,
            skipping: _,
        } = self;
        Ok(pieces.into_inner_with_buffer())
    }

    /// The greatest length of a line, in bytes, its end not counted.
    pub fn max(&self) -> usize
        ensures { result ≡ self.now.pieces.decoder.max }
    {
        self.pieces.decoder().max
    }

    /// Whether a line is being skipped, in which [`skip_line`](LineReader::skip_line) failed: what comes of it through its end
    /// is dropped by the next call that asks the stream.
    pub fn is_skipping(&self) -> bool
        ensures value { result ≡ self.now.skipping }
        ensures whole { IsLineReader self.now }
    {
        self.skipping
    }

    /// Whether the stream ended behind what was handed out or skipped last, which no call has told yet. Behind a
    /// [`next`](LineReader::next) or [`step`](LineReader::step) that handed a line out this says that the line lacked its end.
    /// It may be a part of a longer one, so who acts on lines asks this between `step` and [`lent`](LineReader::lent).
    pub fn has_ended(&self) -> bool
        ensures value { result ≡ self.now.pieces.ended }
        ensures whole { IsLineReader self.now }
    {
        self.pieces.has_ended()
    }

    /// The line that the last [`step`](LineReader::step) went on to, without its end. [`trimmed`](crate::trimmed) takes a
    /// carriage return off it. A place that an earlier step said is refused where it shows something else.
    #[inline(always)]
    pub fn lent(&self, span: Span) -> &[u8]
        requires { IsLent (lined self.now.pieces.decoder.max) self.now.pieces.handed self.now.pieces.reader.block.bytes span }
        ensures { result.now ≡ bytes_at span self.now.pieces.reader.block.bytes }
    {
        self.pieces.lent(span)
    }

    /// The buffered bytes that weren't handed out.
    pub fn rest(&self) -> &[u8]
        ensures value { result.now ≡ rest self.now.pieces }
        ensures whole { IsLineReader self.now }
    {
        self.pieces.rest()
    }
}

impl<R: TellRead> LineReader<R> {
    /// Whether the next call of [`next`](LineReader::next) answers without asking the stream: a whole line is buffered, or
    /// the beginning of one that is too long, or the stream ended, which no call has told yet. It changes nothing, so what it
    /// searches that call searches again.
    pub fn has_line(&self) -> bool
        ensures none { rest self.now.pieces ≡ [] → result ≡ self.now.pieces.ended }
        ensures settled { IsTrue result ↔ HasLine self.now }
    {
        self.pieces.is_settled()
    }

    /// Lends the next line, without its end, out of the buffer; the next call drops it. A carriage return before the end is
    /// a byte of the line. `None` where the stream ended behind the last line, which may lack its end.
    ///
    /// The stream is read only where no whole line is buffered, and each end of it is told once: by the call after the one
    /// that lent a last line without an end, which reads nothing then. A call after a `None` asks the stream again.
    ///
    /// An `Err` says why there is no line, and leaves what came of it: the next call goes on from there. So a `TooLong` is
    /// returned each time, until [`skip_line`](LineReader::skip_line) drops the line; and after an interrupted read, which is an
    /// `Io` too, this is called again.
    ///
    /// A line that `skip_line` failed in is dropped first, through its end, however often the stream fails in it: so what is
    /// lent begins where a line begins.
    #[inline(always)]
    pub fn next(&mut self) -> Result<Option<&[u8]>, LineError>
        ensures begins { IfOk result (λ found. IfSome found (λ line.
            take (length line.now) (rest self.old.pieces) ≡ take (length (rest self.old.pieces)) line.now)) }
        ensures fits { IfOk result (λ found. IfSome found (λ line. length line.now ≤ self.old.pieces.decoder.max)) }
        ensures ready { (line more : List ℕ) → IsLine line → length line ≤ self.old.pieces.decoder.max
            → rest self.old.pieces ≡ line ++ newline ∷ more → answer_of result ≡ Ok (Some line) }
        ensures too_long { BeginsTooLong self.old.pieces.decoder.max (rest self.old.pieces)
            → answer_of result ≡ Err (LineError.TooLong self.old.pieces.decoder.max) }
        ensures ended { self.old.pieces.ended ≡ true → answer_of result ≡ Ok None }
        ensures* after_borrow { sem 𝓛 (Rests (the_row R.row R.Tell) self.entry
            (NextLine R.remaining self.entry.now (answer_of result))) }
    {
        if let Some(span) = self.step_buffered() {
            return Ok(Some(self.lent(span)));
        }
        match self.load()? {
            Some(span) => Ok(Some(self.lent(span))),
            None => Ok(None),
        }
    }

    /// Goes on to the next line as [`next`](LineReader::next) does, and returns where it is: [`lent`](LineReader::lent) shows it
    /// until the next call. What is asked in between, as [`has_ended`](LineReader::has_ended), is asked while no line is lent.
    #[inline(always)]
    pub fn step(&mut self) -> Result<Option<Span>, LineError>
        ensures lends { IfOk result (λ found. IfSome found
            (IsLent (lined self.new.pieces.decoder.max) self.new.pieces.handed self.new.pieces.reader.block.bytes)) }
        ensures next { NextLine R.remaining self.old (load_answer result self.new.pieces) self.new }
    {
        match self.step_buffered() {
            Some(span) => Ok(Some(span)),
            None => self.load(),
        }
    }

    /// Lends the next line as [`next`](LineReader::next) does where it stands whole in the buffer, and asks the stream for
    /// nothing. `None` where it doesn't; what was searched then isn't searched again, unless a line is too long.
    #[inline(always)]
    pub fn next_buffered(&mut self) -> Option<&[u8]>
        ensures front { IfSome result (λ line. (more : List ℕ) × (rest self.old.pieces ≡ line.now ++ 10 ∷ more)) }
        ensures* after_borrow { sem 𝓛 (Rests (the_row R.row R.Tell) self.entry
            (NextBufferedLine R.remaining self.entry.now (option_copied result))) }
    {
        match self.step_buffered() {
            Some(span) => Some(self.lent(span)),
            None => None,
        }
    }

    /// The same as `next`, without the carriage return that may stand before the end, as std's `lines` has it. It is a byte of
    /// the line where the length counts. That of a last line without an end stays.
    #[inline(always)]
    pub fn next_trimmed(&mut self) -> Result<Option<&[u8]>, LineError>
        ensures begins { IfOk result (λ found. IfSome found (λ line.
            take (length line.now) (rest self.old.pieces) ≡ take (length (rest self.old.pieces)) line.now)) }
        ensures* after_borrow { sem 𝓛 (Rests (the_row R.row R.Tell) self.entry
            (NextTrimmed R.remaining self.entry.now (answer_of result))) }
    {
        if let Some(span) = self.step_buffered() {
            return Ok(Some(trimmed(self.lent(span))));
        }
        match self.load()? {
            Some(span) => Ok(Some(self.shown(span))),
            None => Ok(None),
        }
    }

    /// Drops the bytes through the next end of a line, or all of them where the stream ends without one, and returns how
    /// many this call dropped; so `Ok(0)` says that the stream ended. The line may have any length, and takes no memory.
    ///
    /// A fault leaves the line half skipped, and the reader goes on with that line, however often the stream fails: the next
    /// call of this drops what comes of it, through its end, and so does one of `next` before it looks for its line. A line
    /// of more than `2^63` bytes may end the call too, by `Other`.
    pub fn skip_line(&mut self) -> io::Result<u64>
        ensures left { IfOk result (λ n. (got : List ℕ)
            × (self.new.pieces.reader.log.reads.given ≡ self.old.pieces.reader.log.reads.given ++ got)
            × (rest self.new.pieces ≡ drop n (rest self.old.pieces ++ got))) }
        ensures skips { SkipsLine R.remaining self.old result self.new }
    {
        self.skipping = false;
        let dropped = self.drop_through();
        self.skipping = dropped.is_err();
        dropped
    }
}
