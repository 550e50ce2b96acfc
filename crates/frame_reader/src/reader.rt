//! The reader of frames.
ghost use Rattle.std.specs.Prelude.{◌≡◌, ℕ, ◌+◌, ◌*◌, ◌^◌, ◌<◌, ◌≤◌, ◌↔◌, List, [], ◌++◌, length, take, Ok, Err, Some, IfOk, IfErr, IfSome, IsOk, IsTrue, false, option_copied};
ghost use Rattle.std.specs.Borrow.{sem};
ghost use Rattle.std.specs.Io.BufRead.{Rests};
ghost use Rattle.buffer_redux.specs.Block.{Plain};
ghost use Rattle.buffer_redux.specs.GrowError.{FitsWithin};
ghost use Rattle.buffer_redux.specs.MakeError.{growth};
ghost use Rattle.codec.specs.Decoding.{IsLent, bytes_at};
ghost use Rattle.codec.specs.NextPiece.{NextBuffered, answer_of, buffered_answer, load_answer};
ghost use Rattle.codec.specs.PieceReader.{IsFresh, IsOver, IsSettled, TakenApart, rest, room_for};
ghost use Rattle.frame_reader.specs.contracts.reader.FrameReader.{the_row};
ghost use Rattle.frame_reader.specs.Framed.{framed};
ghost use Rattle.frame_reader.specs.Frames.{AreBytes, BeginsWith, frame};
ghost use Rattle.frame_reader.specs.Next.{Next, ReadsFrames, piece_error};

use crate::error::FrameError;
use crate::frame::{FrameFault, Frames, are_bytes};
use buffer_redux::tell::{Tell, TellRead};
use buffer_redux::{Buffer, DEFAULT_BUF_SIZE, GrowError, MakeError};
use codec::{NextError, PieceReader, Span};
use std::alloc::Global;
use std::marker::Model;

/// A reader of frames whose payload has at most so many bytes.
///
/// It lends each payload out of a plain buffer, which holds any three frames. The makers take it, and no other call takes
/// memory. In a buffer of its own it moves no more bytes than it reads.
///
/// ```
/// let stream = Told::new(b"\x00\x02hi\x00\x00".as_slice());
/// let mut reader = FrameReader::new(alloc, stream, 100)?;
/// assert!(rt; matches!(reader.next(), Ok(Some(b"hi"))));
/// assert!(rt; matches!(reader.next(), Ok(Some(b""))));
/// assert!(rt; matches!(reader.next(), Ok(None)));
/// ```
#[derive(Drop)]
pub struct FrameReader<R: Tell> {
    pieces: PieceReader<R, Frames>,
}

impl<R: Tell> Model for FrameReader<R> {
    ghost use Rattle.codec.specs.PieceReader.{ReaderState};
    ghost use Rattle.frame_reader.specs.declared.frame.Frames.{Frames};
    ghost use Rattle.frame_reader.specs.Next.{ReadsFrames};

    ghost Value = { ReaderState R Frames };

    ghost view = { λ f. f.pieces };

    ghost invariant = { λ f. ReadsFrames f.pieces };
}

impl<R: Tell> FrameReader<R> {
    /// A reader of frames whose payload has at most `max` bytes, over a buffer of [`DEFAULT_BUF_SIZE`] bytes, or of
    /// `3 * (2 + max)` where that is more. A refusal hands `inner` back.
    pub fn new(alloc: Global, inner: R, max: u16) -> Result<Self, MakeError<R>>
        ensures over { IfOk result (λ f. (f.reader.inner ≡ inner) × (f.reader.block.bytes ≡ [])) }
        ensures made { IfOk result (λ f. IsFresh R.log 8192 (2 + max) inner f.decoder f) }
        ensures takes { IfOk result (λ f. f.decoder.max ≡ max) }
        ensures whole { IfOk result ReadsFrames }
        ensures handed_back { IfErr result (λ e. e.0 ≡ inner) }
        ensures refused { IfErr result (λ e. e.1 ≡ GrowError.Memory) }
    {
        FrameReader::with_capacity(alloc, DEFAULT_BUF_SIZE, inner, max)
    }

    /// A reader of frames whose payload has at most `max` bytes, over a buffer of `capacity` bytes, or of `3 * (2 + max)`
    /// where that is more. A refusal hands `inner` back: `TooLarge` past [`MAX_CAPACITY`](buffer_redux::MAX_CAPACITY), and
    /// else `Memory`.
    pub fn with_capacity(
        alloc: Global,
        capacity: usize,
        inner: R,
        max: u16,
    ) -> Result<Self, MakeError<R>>
        ensures over { IfOk result (λ f. (f.reader.inner ≡ inner) × (f.reader.block.bytes ≡ [])) }
        ensures made { IfOk result (λ f. IsFresh R.log capacity (2 + max) inner f.decoder f) }
        ensures takes { IfOk result (λ f. f.decoder.max ≡ max) }
        ensures whole { IfOk result ReadsFrames }
        ensures handed_back { IfErr result (λ e. e.0 ≡ inner) }
        ensures within { FitsWithin (growth result) (room_for capacity (2 + max)) (2 ^ 62) }
    {
        match PieceReader::with_capacity(alloc, capacity, inner, Frames { max }) {
            Ok(pieces) => Ok(FrameReader { pieces }),
            Err(MakeError(back, e)) => Err(MakeError(back.0, e)),
        }
    }

    /// The same over a buffer of yours, as [`PieceReader::with_buffer`]: the bytes that `buffer` holds are read first, as the
    /// beginning of a frame. A refusal hands both back.
    pub fn with_buffer(
        alloc: Global,
        buffer: Buffer,
        inner: R,
        max: u16,
    ) -> Result<Self, MakeError<(Buffer, R)>>
        ensures over { IfOk result (λ f. (f.reader.inner ≡ inner) × (rest f ≡ buffer.bytes)) }
        ensures made { IfOk result (λ f. IsOver R.log (2 + max) buffer inner f.decoder f) }
        ensures takes { IfOk result (λ f. f.decoder.max ≡ max) }
        ensures whole { IfOk result ReadsFrames }
        ensures handed_back { IfErr result (λ e. (e.0.0 ≡ buffer) × (e.0.1 ≡ inner)) }
        ensures within { FitsWithin (growth result) (room_for buffer.capacity (2 + max)) (2 ^ 62) }
        ensures kept { buffer.kind ≡ Plain → 3 * (2 + max) ≤ buffer.capacity → IsOk result }
    {
        match PieceReader::with_buffer(alloc, buffer, inner, Frames { max }) {
            Ok(pieces) => Ok(FrameReader { pieces }),
            Err(MakeError(back, e)) => Err(MakeError((back.0, back.1), e)),
        }
    }

    /// The inner reader.
    pub fn get_ref(&self) -> &R
        ensures inner { result.now ≡ self.now.reader.inner }
        ensures log { R.log result.now ≡ self.now.reader.log }
        ensures whole { ReadsFrames self.now }
    {
        self.pieces.get_ref()
    }

    /// The inner reader. What is buffered is gone; [`rest`](FrameReader::rest) shows it before.
    pub fn into_inner(self) -> R
        ensures inner { result ≡ self.reader.inner }
        ensures log { R.log result ≡ self.reader.log }
    {
        let FrameReader { pieces } = self;
        pieces.into_inner()
    }

    /// The inner reader, and the buffer with the bytes behind the frame that was lent last, of which
    /// [`with_buffer`](FrameReader::with_buffer) makes a reader again, of this layer or another.
    pub fn into_inner_with_buffer(self) -> (R, Buffer)
        ensures left { (result.0 ≡ self.reader.inner) × (result.1.bytes ≡ rest self) }
        ensures apart { TakenApart R.log self result.0 result.1 }
    {
        let FrameReader { pieces } = self;
        // No frame is one only since the stream ends, so no end is left to tell.
        let (inner, buffer, _ended) = pieces.into_inner_with_buffer();
        (inner, buffer)
    }

    /// The buffered bytes behind the frame that was lent last.
    #[inline(always)]
    pub fn rest(&self) -> &[u8]
        ensures value { result.now ≡ rest self.now }
        ensures whole { ReadsFrames self.now }
    {
        self.pieces.rest()
    }

    /// Whether a whole frame is buffered behind the one that was lent last, or the length of one that is too long: then
    /// [`next`](FrameReader::next) doesn't read the stream.
    #[inline(always)]
    pub fn has_frame(&self) -> bool
        ensures none { rest self.now ≡ [] → result ≡ false }
        ensures settled { IsTrue result ↔ IsSettled (framed self.now.decoder.max) self.now }
        ensures whole { ReadsFrames self.now }
    {
        self.pieces.is_settled()
    }

    // Why there is no frame. What is left is bytes, so it is a length and what stands behind it, or shorter than one.
    #[cold]
    fn no_frame(&self, e: NextError<FrameFault>) -> FrameError
        ensures error { piece_error result ≡ e }
        ensures bytes { AreBytes (rest self.now) }
    {
        are_bytes(self.rest());
        match e {
            NextError::Wrong(FrameFault::Truncated(have)) => FrameError::Truncated(have),
            NextError::Wrong(FrameFault::TooLong(len)) => FrameError::TooLong(len),
            NextError::Io(e) => FrameError::Io(e),
        }
    }

    /// The payload that the last [`step`](FrameReader::step) went on to. A place that an earlier step said is refused where
    /// it shows something else.
    #[inline(always)]
    pub fn lent(&self, span: Span) -> &[u8]
        requires { IsLent (framed self.now.decoder.max) self.now.handed self.now.reader.block.bytes span }
        ensures { result.now ≡ bytes_at span self.now.reader.block.bytes }
    {
        self.pieces.lent(span)
    }
}

impl<R: TellRead> FrameReader<R> {
    /// Lends the payload of the next frame out of the buffer; the next call drops it. `None` where the stream ended behind
    /// the last frame. The stream is read only where no whole frame is buffered, the last time with room for all of it, once its
    /// length is there.
    ///
    /// An `Err` says why there is no frame, and leaves what came of it: the next call goes on from there. So a `TooLong` is
    /// returned each time, and after an interrupted read, which is an `Io` too, this is called again.
    #[inline(always)]
    pub fn next(&mut self) -> Result<Option<&[u8]>, FrameError>
        ensures fits { IfOk result (λ found. IfSome found (λ payload. length payload.now ≤ self.old.decoder.max)) }
        ensures begins { IfOk result (λ found. IfSome found (λ payload.
            take (length (frame payload.now)) (rest self.old) ≡ take (length (rest self.old)) (frame payload.now))) }
        ensures ready { (payload more : List ℕ) → length payload ≤ self.old.decoder.max
            → rest self.old ≡ frame payload ++ more → answer_of result ≡ Ok (Some payload) }
        ensures too_long { (len : ℕ) → self.old.decoder.max < len → BeginsWith len (rest self.old)
            → answer_of result ≡ Err (FrameError.TooLong len) }
        ensures* after_borrow { sem 𝓛 (Rests (the_row R.row R.Tell) self.entry
            (Next R.remaining self.entry.now (answer_of result))) }
    {
        match self.step()? {
            Some(span) => Ok(Some(self.lent(span))),
            None => Ok(None),
        }
    }

    /// Lends the payload of the next frame as [`next`](FrameReader::next) does where that stands whole in the buffer, and asks
    /// the stream for nothing. `None` where it doesn't.
    #[inline(always)]
    pub fn next_buffered(&mut self) -> Option<&[u8]>
        ensures fits { IfSome result (λ payload. length payload.now ≤ self.old.decoder.max) }
        ensures front { IfSome result (λ payload. (more : List ℕ) × (rest self.old ≡ frame payload.now ++ more)) }
        ensures* after_borrow { sem 𝓛 (Rests (the_row R.row R.Tell) self.entry
            (NextBuffered R.remaining (framed self.entry.now.decoder.max) self.entry.now (option_copied result))) }
    {
        match self.step_buffered() {
            Some(span) => Some(self.lent(span)),
            None => None,
        }
    }

    /// Goes on to the next frame as [`next`](FrameReader::next) does, and returns where its payload is:
    /// [`lent`](FrameReader::lent) shows it until the next call.
    #[inline(always)]
    pub fn step(&mut self) -> Result<Option<Span>, FrameError>
        ensures fits { IfOk result (λ found. IfSome found (λ span. span.len ≤ self.old.decoder.max)) }
        ensures next { Next R.remaining self.old (load_answer result self.new) self.new }
        ensures lends { IfOk result (λ found. IfSome found
            (IsLent (framed self.new.decoder.max) self.new.handed self.new.reader.block.bytes)) }
    {
        match self.pieces.step() {
            Ok(found) => Ok(found),
            Err(e) => Err(self.no_frame(e)),
        }
    }

    // The same where it stands whole in the buffer.
    #[inline(always)]
    fn step_buffered(&mut self) -> Option<Span>
        ensures next { NextBuffered R.remaining (framed self.old.decoder.max) self.old
            (buffered_answer result self.new) self.new }
        ensures lends { IfSome result
            (IsLent (framed self.new.decoder.max) self.new.handed self.new.reader.block.bytes) }
    {
        self.pieces.step_buffered()
    }
}
