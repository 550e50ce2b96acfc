//! The writer of frames.
ghost use Rattle.std.specs.Prelude.{◌≡◌, ◌+◌, ◌*◌, ◌<◌, ◌≤◌, ◌^◌, ◌++◌, [], length, false, Ok, Err, IfOk, IfErr, IsOk, OnOk, OnErr, MatchResult};
ghost use Rattle.buffer_redux.specs.Block.{Plain};
ghost use Rattle.buffer_redux.specs.BufWriter.{WasFlushed, WasSent, WritesInOrder};
ghost use Rattle.buffer_redux.specs.Unwrapping.{InnerOfFlushed};
ghost use Rattle.buffer_redux.specs.GrowError.{FitsWithin};
ghost use Rattle.buffer_redux.specs.MakeError.{growth};
ghost use Rattle.codec.specs.PieceWriter.{IsPieceWriter, IsMadeOver, IsUnused};
ghost use Rattle.codec.specs.PieceReader.{room_for};
ghost use Rattle.codec.specs.WritePiece.{PiecesTaken, WritesBuffered};
ghost use Rattle.frame_reader.specs.Framed.{framed_out};
ghost use Rattle.frame_reader.specs.Frames.{frame};
ghost use Rattle.frame_reader.specs.WriteFrame.{WritesFrame};

use crate::error::WriteFrameError;
use crate::frame::Frames;
use buffer_redux::tell::TellWrite;
use buffer_redux::{Buffer, DEFAULT_BUF_SIZE, GrowError, IntoInnerError, MakeError};
use codec::PieceWriter;
use std::alloc::Global;
use std::io;
use std::marker::Model;

/// A writer of frames whose payload has at most so many bytes. A frame is taken in whole, or not at all.
///
/// It keeps them in a plain buffer, which holds any three frames. The makers take it, and no other call takes memory. A writer
/// that is dropped sends what is buffered, without a flush of the inner writer, and forgets a fault.
///
/// ```
/// let mut writer = FrameWriter::new(alloc, Told::new(Vec::new(alloc)), 4)?;
/// assert!(rt; writer.write_frame(b"hi").is_ok());
/// writer.flush()?;
/// assert!(rt; writer.get_ref().get_ref().as_slice() == b"\x00\x02hi".as_slice());
/// ```
#[derive(Drop)]
pub struct FrameWriter<W: TellWrite> {
    pieces: PieceWriter<W, Frames>,
}

impl<W: TellWrite> Model for FrameWriter<W> {
    ghost use Rattle.std.specs.Prelude.{◌+◌};
    ghost use Rattle.codec.specs.PieceWriter.{WriterState, IsPieceWriter};
    ghost use Rattle.frame_reader.specs.declared.frame.Frames.{Frames};

    ghost Value = { WriterState W Frames };

    ghost view = { λ f. f.pieces };

    ghost invariant = { λ f. IsPieceWriter (2 + f.pieces.encoder.max) f.pieces };
}

impl<W: TellWrite> FrameWriter<W> {
    /// A writer of frames whose payload has at most `max` bytes, over a buffer of [`DEFAULT_BUF_SIZE`] bytes, or of
    /// `3 * (2 + max)` where that is more. A refusal hands `inner` back.
    pub fn new(alloc: Global, inner: W, max: u16) -> Result<Self, MakeError<W>>
        ensures over { IfOk result (λ f. (f.writer.inner ≡ inner) × (f.writer.block.bytes ≡ [])) }
        ensures made { IfOk result (λ f. IsUnused W.log 8192 (2 + max) inner f.encoder f) }
        ensures takes { IfOk result (λ f. f.encoder.max ≡ max) }
        ensures whole { IfOk result (IsPieceWriter (2 + max)) }
        ensures handed_back { IfErr result (λ e. e.0 ≡ inner) }
        ensures refused { IfErr result (λ e. e.1 ≡ GrowError.Memory) }
    {
        FrameWriter::with_capacity(alloc, DEFAULT_BUF_SIZE, inner, max)
    }

    /// A writer of frames whose payload has at most `max` bytes, over a buffer of `capacity` bytes, or of `3 * (2 + max)`
    /// where that is more. A refusal hands `inner` back: `TooLarge` past [`MAX_CAPACITY`](buffer_redux::MAX_CAPACITY), and
    /// else `Memory`.
    pub fn with_capacity(
        alloc: Global,
        capacity: usize,
        inner: W,
        max: u16,
    ) -> Result<Self, MakeError<W>>
        ensures over { IfOk result (λ f. (f.writer.inner ≡ inner) × (f.writer.block.bytes ≡ [])) }
        ensures made { IfOk result (λ f. IsUnused W.log capacity (2 + max) inner f.encoder f) }
        ensures takes { IfOk result (λ f. f.encoder.max ≡ max) }
        ensures whole { IfOk result (IsPieceWriter (2 + max)) }
        ensures handed_back { IfErr result (λ e. e.0 ≡ inner) }
        ensures within { FitsWithin (growth result) (room_for capacity (2 + max)) (2 ^ 62) }
    {
        match PieceWriter::with_capacity(alloc, capacity, inner, Frames { max }) {
            Ok(pieces) => Ok(FrameWriter { pieces }),
            Err(MakeError(back, e)) => Err(MakeError(back.0, e)),
        }
    }

    /// The same over a buffer of yours, as [`PieceWriter::with_buffer`]: the bytes that `buffer` holds are sent first. A refusal
    /// hands both back.
    pub fn with_buffer(
        alloc: Global,
        buffer: Buffer,
        inner: W,
        max: u16,
    ) -> Result<Self, MakeError<(Buffer, W)>>
        ensures over { IfOk result (λ f. (f.writer.inner ≡ inner) × (f.writer.block.bytes ≡ buffer.bytes)) }
        ensures made { IfOk result (λ f. IsMadeOver W.log (2 + max) buffer inner f.encoder f) }
        ensures takes { IfOk result (λ f. f.encoder.max ≡ max) }
        ensures whole { IfOk result (IsPieceWriter (2 + max)) }
        ensures handed_back { IfErr result (λ e. (e.0.0 ≡ buffer) × (e.0.1 ≡ inner)) }
        ensures within { FitsWithin (growth result) (room_for buffer.capacity (2 + max)) (2 ^ 62) }
        ensures kept { buffer.kind ≡ Plain → 3 * (2 + max) ≤ buffer.capacity → IsOk result }
    {
        match PieceWriter::with_buffer(alloc, buffer, inner, Frames { max }) {
            Ok(pieces) => Ok(FrameWriter { pieces }),
            Err(MakeError(back, e)) => Err(MakeError((back.0, back.1), e)),
        }
    }

    /// The inner writer.
    pub fn get_ref(&self) -> &W
        ensures inner { result.now ≡ self.now.writer.inner }
        ensures log { W.log result.now ≡ self.now.writer.log }
        ensures whole { IsPieceWriter (2 + self.now.encoder.max) self.now }
    {
        self.pieces.get_ref()
    }

    /// Takes the payload's frame in. It is sent where a later frame finds no room, by [`send`](FrameWriter::send) and
    /// [`flush`](FrameWriter::flush), by `into_inner`, and where the writer is dropped.
    ///
    /// At an `Err` nothing of the frame was taken in, so the call can be made again. A `TooLong` changes nothing at all; an
    /// `Io` comes only where the frame found no room, and then just what the inner writer took is gone from the buffer.
    #[inline(always)]
    pub fn write_frame(&mut self, payload: &[u8]) -> Result<(), WriteFrameError>
        ensures taken { OnOk result (self.new.writer.log.writes.received ++ self.new.writer.block.bytes
            ≡ (self.old.writer.log.writes.received ++ self.old.writer.block.bytes) ++ frame payload.now) }
        ensures none { OnErr result (WritesInOrder self.old.writer [] self.new.writer) }
        ensures writes { WritesFrame W.trace self.old payload.now result self.new }
    {
        match self.pieces.write_buffered(payload) {
            Ok(true) => Ok(()),
            Ok(false) => self.write_apart(payload),
            Err(len) => Err(WriteFrameError::TooLong(len)),
        }
    }

    /// Sends all frames, without a flush of the inner writer. Where that fails, just what the inner writer took is no longer
    /// buffered.
    pub fn send(&mut self) -> io::Result<()>
        ensures all { OnOk result ((self.new.writer.block.bytes ≡ [])
            × (self.new.writer.log.writes.received ≡ self.old.writer.log.writes.received ++ self.old.writer.block.bytes)) }
        ensures sent { WasSent W.log W.trace self.old.writer result self.new.writer }
        ensures went { PiecesTaken W.trace (framed_out self.old.encoder.max) self.old [] self.new }
        ensures whole { IsPieceWriter (2 + self.old.encoder.max) self.new }
    {
        self.pieces.send()
    }

    /// Sends all frames, and flushes the inner writer.
    pub fn flush(&mut self) -> io::Result<()>
        ensures all { OnOk result ((self.new.writer.block.bytes ≡ [])
            × (self.new.writer.log.writes.received ≡ self.old.writer.log.writes.received ++ self.old.writer.block.bytes)
            × (self.new.writer.log.writes.flushed ≡ self.new.writer.log.writes.received)) }
        ensures flushed { WasFlushed W.log W.trace self.old.writer result self.new.writer }
        ensures went { PiecesTaken W.trace (framed_out self.old.encoder.max) self.old [] self.new }
        ensures whole { IsPieceWriter (2 + self.old.encoder.max) self.new }
    {
        self.pieces.flush()
    }

    /// Flushes, and hands the inner writer back; where that fails, the writer with the bytes that were not sent, and the
    /// fault.
    pub fn into_inner(self) -> Result<W, IntoInnerError<Self>>
        ensures all { IfOk result (λ inner. (W.log inner).writes.received
            ≡ self.writer.log.writes.received ++ self.writer.block.bytes) }
        ensures flushed { MatchResult result (InnerOfFlushed W.log W.trace self.writer (Ok tt))
            (λ e. WasFlushed W.log W.trace self.writer (Err e.1) e.0.writer
            × PiecesTaken W.trace (framed_out self.encoder.max) self [] e.0) }
    {
        let FrameWriter { pieces } = self;
        match pieces.into_inner() {
            Ok(inner) => Ok(inner),
            Err(IntoInnerError(pieces, e)) => Err(IntoInnerError(FrameWriter { pieces }, e)),
        }
    }

    /// The inner writer, and the buffer with the bytes of frames that were not sent. Nothing is sent.
    pub fn into_inner_with_buffer(self) -> (W, Buffer)
        ensures inner { result.0 ≡ self.writer.inner }
        ensures log { W.log result.0 ≡ self.writer.log }
        ensures block { result.1 ≡ self.writer.block }
    {
        let FrameWriter { pieces } = self;
        pieces.into_inner_with_buffer()
    }

    // Goes on in `write_slowly`. The kit's compiler clears the answer of a call where the function that makes the call begins; of
    // a call made in here, which is inlined, that is behind the look at the room.
    #[inline(always)]
    fn write_apart(&mut self, payload: &[u8]) -> Result<(), WriteFrameError>
        requires full { WritesBuffered W.trace (framed_out self.old.encoder.max) self.old payload.now (Ok false) self.old }
        ensures { WritesFrame W.trace self.old payload.now result self.new }
    {
        self.write_slowly(payload)
    }

    // Sends all that is buffered, and then takes the frame in. It stands apart, so that a frame for which there is room is short
    // in its caller.
    #[cold]
    #[inline(never)]
    fn write_slowly(&mut self, payload: &[u8]) -> Result<(), WriteFrameError>
        requires full { WritesBuffered W.trace (framed_out self.old.encoder.max) self.old payload.now (Ok false) self.old }
        ensures { WritesFrame W.trace self.old payload.now result self.new }
    {
        self.send()?;
        if let Err(len) = self.pieces.write_buffered(payload) {
            return Err(WriteFrameError::TooLong(len));
        }
        Ok(())
    }
}
