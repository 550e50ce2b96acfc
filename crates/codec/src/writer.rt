//! The writer of pieces.
ghost use Rattle.std.specs.Prelude.{◌≡◌, ◌≢◌, ◌↔◌, IsTrue, ◌-◌, ◌*◌, ◌<◌, ◌≤◌, ◌^◌, ◌++◌, [], length, take, Ok, Err, IfOk, IfErr, IsOk, OnOk, OnErr, MatchResult, true};
ghost use Rattle.std.specs.Borrow.{Lends, sem};
ghost use Rattle.buffer_redux.specs.Block.{Plain, usable};
ghost use Rattle.buffer_redux.specs.BufWriter.{WasFlushed, WasSent, WritesInOrder};
ghost use Rattle.buffer_redux.specs.WriteParts.{PutsIn, room};
ghost use Rattle.buffer_redux.specs.Unwrapping.{InnerOfFlushed};
ghost use Rattle.buffer_redux.specs.GrowError.{FitsWithin};
ghost use Rattle.buffer_redux.specs.MakeError.{growth};
ghost use Rattle.codec.specs.contracts.writer.PieceWriter.{the_row};
ghost use Rattle.codec.specs.Encoding.{IsHeaderBytes, coded};
ghost use Rattle.codec.specs.PieceWriter.{IsPieceWriter, IsMadeOver, IsUnused, with_stream};
ghost use Rattle.piece_reader.specs.PieceReader.{room_for};
ghost use Rattle.codec.specs.WritePiece.{PiecesTaken, WritesBuffered, WritesPiece};

use crate::encoder::Encoder;
use crate::error::WritePieceError;
use crate::header_bytes::HeaderBytes;
use buffer_redux::tell::TellWrite;
use buffer_redux::{BufWriter, Buffer, DEFAULT_BUF_SIZE, IntoInnerError, MakeError};
use piece_reader::{fit_buffer, piece_buffer};
use std::alloc::Global;
use std::io;
use std::io::Write;
use std::marker::Model;

/// A writer of the pieces that an encoder says. A piece is taken in whole, or not at all.
///
/// It keeps them in a plain buffer, in which three pieces fit. The makers take its memory, and no other call takes any. A
/// writer that is dropped sends what is buffered, without a flush of the inner writer, and forgets a fault.
///
/// ```
/// let lines = Delimited { end: b'\n', max: 9 };
/// let mut writer = PieceWriter::new(alloc, Told::new(Vec::new(alloc)), lines)?;
/// assert!(rt; writer.write_piece(b"hi").is_ok());
/// writer.flush()?;
/// assert!(rt; writer.get_ref().get_ref().as_slice() == b"hi\n".as_slice());
/// ```
#[derive(Drop)]
pub struct PieceWriter<W: TellWrite, E: Encoder> {
    writer: BufWriter<W>,
    encoder: E,
}

impl<W: TellWrite, E: Encoder> Model for PieceWriter<W, E> {
    ghost use Rattle.codec.specs.PieceWriter.{WriterState, IsPieceWriter};

    ghost Value = { WriterState W E };

    ghost view = { λ f. record { writer = f.writer; encoder = f.encoder } };

    ghost invariant = { λ f. IsPieceWriter (E.encoding f.encoder).most (record { writer = f.writer; encoder = f.encoder }) };
}

impl<W: TellWrite, E: Encoder> PieceWriter<W, E> {
    /// A writer of the pieces that `encoder` says, over a buffer of [`DEFAULT_BUF_SIZE`] bytes, or of what three pieces take
    /// where that is more. A refusal hands `inner` and `encoder` back.
    pub fn new(alloc: Global, inner: W, encoder: E) -> Result<Self, MakeError<(W, E)>>
        ensures over { IfOk result (λ f. (f.writer.inner ≡ inner) × (f.writer.block.bytes ≡ []) × (f.encoder ≡ encoder)) }
        ensures made { IfOk result (IsUnused W.log 8192 (E.encoding encoder).most inner encoder) }
        ensures whole { IfOk result (IsPieceWriter (E.encoding encoder).most) }
        ensures handed_back { IfErr result (λ e. (e.0.0 ≡ inner) × (e.0.1 ≡ encoder)) }
        ensures within { FitsWithin (growth result) (room_for 8192 (E.encoding encoder).most) (2 ^ 62) }
    {
        PieceWriter::with_capacity(alloc, DEFAULT_BUF_SIZE, inner, encoder)
    }

    /// The same over a buffer of `capacity` bytes, or of what three pieces take where that is more. A refusal is `TooLarge`
    /// past [`MAX_CAPACITY`](buffer_redux::MAX_CAPACITY), and else `Memory`.
    pub fn with_capacity(
        alloc: Global,
        capacity: usize,
        inner: W,
        encoder: E,
    ) -> Result<Self, MakeError<(W, E)>>
        ensures over { IfOk result (λ f. (f.writer.inner ≡ inner) × (f.writer.block.bytes ≡ []) × (f.encoder ≡ encoder)) }
        ensures made { IfOk result (IsUnused W.log capacity (E.encoding encoder).most inner encoder) }
        ensures whole { IfOk result (IsPieceWriter (E.encoding encoder).most) }
        ensures handed_back { IfErr result (λ e. (e.0.0 ≡ inner) × (e.0.1 ≡ encoder)) }
        ensures within { FitsWithin (growth result) (room_for capacity (E.encoding encoder).most) (2 ^ 62) }
    {
        match piece_buffer(alloc, capacity, encoder.most_written()) {
            Ok(buffer) => Ok(PieceWriter {
                writer: BufWriter::with_buffer(buffer, inner),
                encoder,
            }),
            Err(e) => Err(MakeError((inner, encoder), e)),
        }
    }

    /// The same over a buffer of yours, of which the bytes are sent first. So a writer that another was taken apart into is
    /// written on, behind what that took in.
    ///
    /// A plain buffer in which three pieces fit is kept, and then this takes no memory. For any other there is a new one, of as
    /// many bytes or of what three pieces take where that is more. A refusal hands all three back.
    pub fn with_buffer(
        alloc: Global,
        buffer: Buffer,
        inner: W,
        encoder: E,
    ) -> Result<Self, MakeError<(Buffer, W, E)>>
        ensures over { IfOk result (λ f. (f.writer.inner ≡ inner) × (f.writer.block.bytes ≡ buffer.bytes)
            × (f.encoder ≡ encoder)) }
        ensures made { IfOk result (IsMadeOver W.log (E.encoding encoder).most buffer inner encoder) }
        ensures whole { IfOk result (IsPieceWriter (E.encoding encoder).most) }
        ensures handed_back { IfErr result (λ e. (e.0.0 ≡ buffer) × (e.0.1 ≡ inner) × (e.0.2 ≡ encoder)) }
        ensures within { FitsWithin (growth result) (room_for buffer.capacity (E.encoding encoder).most) (2 ^ 62) }
        ensures kept { buffer.kind ≡ Plain → 3 * (E.encoding encoder).most ≤ buffer.capacity → IsOk result }
    {
        match fit_buffer(alloc, buffer, encoder.most_written()) {
            Ok(buffer) => Ok(PieceWriter {
                writer: BufWriter::with_buffer(buffer, inner),
                encoder,
            }),
            Err(MakeError(buffer, e)) => Err(MakeError((buffer, inner, encoder), e)),
        }
    }

    /// The inner writer.
    pub fn get_ref(&self) -> &W
        ensures inner { result.now ≡ self.now.writer.inner }
        ensures log { W.log result.now ≡ self.now.writer.log }
    {
        self.writer.get_ref()
    }

    /// The inner writer, for changes. What is written through this goes out before the buffered pieces: between two of them, and
    /// within one where a send failed, of which just a beginning may have gone out. So nothing is to be written then before a
    /// [`send`](PieceWriter::send) is Ok.
    pub fn get_mut(&mut self) -> &mut W
        ensures inner { result.now ≡ self.old.writer.inner }
        ensures* writes_back { sem 𝓛 (Lends (the_row W.row E.row E.Refusal.row W.TellWrite.own W.Tell.own E.Encoder) W.row
            self.entry result (with_stream W.log self.old)) }
        ensures log { W.log result.now ≡ self.old.writer.log }
    {
        self.writer.get_mut()
    }

    /// Takes the payload's piece in. It is sent where a later piece finds no room, by [`send`](PieceWriter::send) and
    /// [`flush`](PieceWriter::flush), by `into_inner`, and where the writer is dropped.
    ///
    /// At an `Err` nothing of the piece was taken in, so the call can be made again. A `Refused` changes nothing at all; an `Io`
    /// comes only where the piece found no room, and then just what the inner writer took is gone from the buffer.
    #[inline(always)]
    pub fn write_piece(&mut self, payload: &[u8]) -> Result<(), WritePieceError<E::Refusal>>
        ensures taken { OnOk result (self.new.writer.log.writes.received ++ self.new.writer.block.bytes
            ≡ (self.old.writer.log.writes.received ++ self.old.writer.block.bytes)
            ++ coded (E.encoding self.old.encoder) payload.now) }
        ensures none { OnErr result (WritesInOrder self.old.writer [] self.new.writer) }
        ensures writes { WritesPiece W.trace (E.encoding self.old.encoder) self.old payload.now result self.new }
    {
        match self.encoder.header(payload) {
            Ok(header) => {
                if !self.has_room(&header, payload) {
                    return self.write_apart(header, payload);
                }
                self.append(&header, payload);
                Ok(())
            }
            Err(e) => Err(WritePieceError::Refused(e)),
        }
    }

    /// Takes the payload's piece in where it fits behind what is buffered, and returns whether it did. The inner writer isn't
    /// called.
    ///
    /// At a `false` or an `Err` nothing changes; at a `false` [`write_piece`](PieceWriter::write_piece) takes the piece in, and
    /// sends what is buffered before.
    #[inline(always)]
    pub fn write_buffered(&mut self, payload: &[u8]) -> Result<bool, E::Refusal>
        ensures taken { result ≡ Ok true → self.new.writer.block.bytes
            ≡ self.old.writer.block.bytes ++ coded (E.encoding self.old.encoder) payload.now }
        ensures none { result ≢ Ok true → self.new ≡ self.old }
        ensures writes { WritesBuffered W.trace (E.encoding self.old.encoder) self.old payload.now result self.new }
    {
        match self.encoder.header(payload) {
            Ok(header) => {
                if !self.has_room(&header, payload) {
                    return Ok(false);
                }
                self.append(&header, payload);
                Ok(true)
            }
            Err(e) => Err(e),
        }
    }

    // Goes on in `write_slowly`. The kit's compiler clears the answer of a call where the function that makes the call begins; of
    // a call made in here, which is inlined, that is behind the look at the room. So is the copy of the header.
    #[inline(always)]
    fn write_apart(
        &mut self,
        header: HeaderBytes,
        payload: &[u8],
    ) -> Result<(), WritePieceError<E::Refusal>>
        requires header { IsHeaderBytes (E.encoding self.old.encoder) payload.now header }
        requires full { room self.old.writer < length (coded (E.encoding self.old.encoder) payload.now) }
        ensures { WritesPiece W.trace (E.encoding self.old.encoder) self.old payload.now result self.new }
    {
        self.write_slowly(&header, payload)
    }

    // Sends all that is buffered, and then takes the piece in. It stands apart, so that a piece for which there is room is short
    // in its caller.
    #[cold]
    #[inline(never)]
    fn write_slowly(
        &mut self,
        header: &HeaderBytes,
        payload: &[u8],
    ) -> Result<(), WritePieceError<E::Refusal>>
        requires header { IsHeaderBytes (E.encoding self.old.encoder) payload.now header.now }
        requires full { room self.old.writer < length (coded (E.encoding self.old.encoder) payload.now) }
        ensures { WritesPiece W.trace (E.encoding self.old.encoder) self.old payload.now result self.new }
    {
        self.send()?;
        self.append(header, payload);
        Ok(())
    }

    // Whether the piece fits behind what is buffered.
    #[inline(always)]
    fn has_room(&self, header: &HeaderBytes, payload: &[u8]) -> bool
        requires header { IsHeaderBytes (E.encoding self.now.encoder) payload.now header.now }
        ensures room { IsTrue result ↔ (length (coded (E.encoding self.now.encoder) payload.now) ≤ room self.now.writer) }
        ensures whole { IsPieceWriter (E.encoding self.now.encoder).most self.now }
    {
        let piece = header.len + payload.len() + self.encoder.tail().len();
        piece <= self.writer.capacity() - self.writer.buf_len()
    }

    /// Sends all pieces, without a flush of the inner writer. Where that fails, just what the inner writer took is no longer
    /// buffered.
    pub fn send(&mut self) -> io::Result<()>
        ensures all { OnOk result ((self.new.writer.block.bytes ≡ [])
            × (self.new.writer.log.writes.received ≡ self.old.writer.log.writes.received ++ self.old.writer.block.bytes)) }
        ensures sent { WasSent W.log W.trace self.old.writer result self.new.writer }
        ensures went { PiecesTaken W.trace (E.encoding self.old.encoder) self.old [] self.new }
        ensures whole { IsPieceWriter (E.encoding self.old.encoder).most self.new }
    {
        self.writer.send()
    }

    /// Sends all pieces, and flushes the inner writer.
    pub fn flush(&mut self) -> io::Result<()>
        ensures all { OnOk result ((self.new.writer.block.bytes ≡ [])
            × (self.new.writer.log.writes.received ≡ self.old.writer.log.writes.received ++ self.old.writer.block.bytes)
            × (self.new.writer.log.writes.flushed ≡ self.new.writer.log.writes.received)) }
        ensures flushed { WasFlushed W.log W.trace self.old.writer result self.new.writer }
        ensures went { PiecesTaken W.trace (E.encoding self.old.encoder) self.old [] self.new }
        ensures whole { IsPieceWriter (E.encoding self.old.encoder).most self.new }
    {
        self.writer.flush()
    }

    /// Flushes, and hands the inner writer back; where that fails, the writer with the bytes that were not sent, and the
    /// fault.
    pub fn into_inner(mut self) -> Result<W, IntoInnerError<Self>>
        ensures all { IfOk result (λ inner. (W.log inner).writes.received
            ≡ self.writer.log.writes.received ++ self.writer.block.bytes) }
        ensures flushed { MatchResult result (InnerOfFlushed W.log W.trace self.writer (Ok tt))
            (λ e. WasFlushed W.log W.trace self.writer (Err e.1) e.0.writer
            × PiecesTaken W.trace (E.encoding self.encoder) self [] e.0) }
    {
        match self.flush() {
            Ok(()) => {
                let (inner, _) = self.into_inner_with_buffer();
                Ok(inner)
            }
            Err(e) => Err(IntoInnerError(self, e)),
        }
    }

    /// The inner writer, and the buffer with the bytes of pieces that were not sent. Nothing is sent.
    pub fn into_inner_with_buffer(self) -> (W, Buffer)
        ensures inner { result.0 ≡ self.writer.inner }
        ensures log { W.log result.0 ≡ self.writer.log }
        ensures block { result.1 ≡ self.writer.block }
    {
        let PieceWriter { writer, encoder: _ } = self;
        writer.into_inner_with_buffer()
    }

    // Copies the piece in, for which there is room. The length of the header and its first bytes are read before the room is
    // made: where the compiler knows the length, no part of the header is laid out in memory then.
    #[inline(always)]
    fn append(&mut self, header: &HeaderBytes, payload: &[u8])
        requires header { IsHeaderBytes (E.encoding self.old.encoder) payload.now header.now }
        requires room { length (coded (E.encoding self.old.encoder) payload.now) ≤ room self.old.writer }
        ensures put { PutsIn self.old.writer (coded (E.encoding self.old.encoder) payload.now) self.new.writer }
        ensures encoder { self.new.encoder ≡ self.old.encoder }
        ensures whole { IsPieceWriter (E.encoding self.old.encoder).most self.new }
    {
        let len = header.len;
        let mut word = [0; 8];
        word.copy_from_slice(&header.bytes[..8]);
        self.writer.make_room();
        self.put_header(header, len, &word);
        self.writer.put(payload);
        if !self.encoder.tail().is_empty() {
            self.writer.put(self.encoder.tail());
        }
    }

    // Copies the header in, for which there is room: it has `len` bytes, of which `word` are the first.
    #[inline(always)]
    fn put_header(&mut self, header: &HeaderBytes, len: usize, word: &[u8])
        requires len { len ≡ header.now.len }
        requires word { word.now ≡ take 8 header.now.bytes }
        requires room { header.now.len ≤ usable self.old.writer.block }
        ensures put { PutsIn self.old.writer (take header.now.len header.now.bytes) self.new.writer }
        ensures usable { usable self.new.writer.block ≡ usable self.old.writer.block - header.now.len }
        ensures encoder { self.new.encoder ≡ self.old.encoder }
    {
        if len > 8 {
            return self.writer.put(&header.bytes[..len]);
        }
        self.writer.put(&word[..len]);
    }
}
