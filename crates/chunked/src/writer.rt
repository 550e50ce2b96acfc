//! The writer of a body.
ghost use Rattle.std.specs.Prelude.{◌≡◌, ◌<◌, ◌≤◌, ◌⊎◌, ◌↔◌, [], ◌++◌, length, IfErr, IfOk, IsOk, MatchResult, Some};
ghost use Rattle.std.specs.IoError.{error_kind};
ghost use Rattle.std.specs.declared.io.Error.{Error};
ghost use Rattle.std.specs.declared.io.ErrorKind.TheVariants.{InvalidInput};
ghost use Rattle.std.specs.Io.{WritesAtMost};
ghost use Rattle.std.specs.List.{AllByRecursion};
ghost use Rattle.std.specs.Io.KnownBytes.{Keeps, WriteAppends};
ghost use Rattle.buffer_redux.specs.Buffered.{over_buffer};
ghost use Rattle.buffer_redux.specs.BufWriter.{WasFlushed};
ghost use Rattle.buffer_redux.specs.StreamLog.{StreamLog, after_flush, after_write};
ghost use Rattle.chunked.specs.Chunk.{body_end};
ghost use Rattle.chunked.specs.ChunkedWriter.{ChunkingWent, ChunksWent, Finishes, IsChunkedWriter, WritesChunk};
ghost use Rattle.chunked.specs.ChunkedWriter.{LacksPayload, NotFinished, accepted_of, around, unbegun};
ghost use Rattle.chunked.specs.ChunkedWriterLaws.{ChunkingWent-none, ChunkingWent-joins, ChunkingWent-grows};
ghost use Rattle.chunked.specs.Trailers.{CannotEnd, IsTrailer, lines_of};

use crate::chunk::{AROUND, make_space, put_chunk};
use crate::error::{FinishError, TrailersError};
use crate::trailers::{BARE_END, end_len, put_end};
use buffer_redux::tell::{Call, CallLog, Tell, TellWrite};
use buffer_redux::{BufWriter, Buffer, IntoInnerError};
use std::io::{ErrorKind, Write};
use std::marker::Model;
use std::{fmt, io};

mod past;

/// A writer of one body, into a buffered writer of yours. [`finish`](ChunkedWriter::finish) ends the body, and hands that back.
///
/// Each write makes one chunk; an empty slice makes none. One that fits the buffer goes into it whole or not at all. Where the
/// buffer is too small for one, payload that doesn't fit goes past it, and further writes go on in the chunk until none of it is
/// [`due`](ChunkedWriter::due). The writer takes no memory. One that is dropped drops the buffered writer, which sends what it
/// holds: the body has no end then, so a reader can tell that it is cut short.
///
/// ```
/// let inner = BufWriter::new(alloc, Told::new(Vec::new(alloc)))?;
/// let mut body = ChunkedWriter::new(inner);
/// body.write_all(b"hello")?;
/// let mut inner = body.finish().map_err(io::Error::from)?;
/// inner.flush()?;
/// assert!(rt; inner.get_ref().get_ref().as_slice() == b"5\r\nhello\r\n0\r\n\r\n".as_slice());
/// ```
#[derive(Drop)]
pub struct ChunkedWriter<W: TellWrite> {
    writer: BufWriter<W>,
    // The bytes of the body that the buffered writer took in, as a log of what was received. It takes no byte.
    wire: CallLog,
    // The payload, as a stream tells it.
    calls: CallLog,
    // How many bytes of payload are still to come of the chunk that was begun.
    due: usize,
}

impl<W: TellWrite> Model for ChunkedWriter<W> {
    ghost use Rattle.chunked.specs.ChunkedWriter.{ChunkedWriterState, IsChunkedWriter, seen};

    ghost Value = { ChunkedWriterState W };

    ghost view = { λ c. seen c.writer c.wire.log c.calls.log c.due };

    ghost invariant = { λ c. IsChunkedWriter (seen c.writer c.wire.log c.calls.log c.due) };
}

impl<W: TellWrite> ChunkedWriter<W> {
    /// A writer of a body that begins behind what `writer` holds. Its buffer needs a capacity of more than 20 bytes: that many
    /// may stand around the payload of a chunk.
    pub fn new(writer: BufWriter<W>) -> Self
        requires room { around < writer.block.capacity }
        ensures over { (result.writer ≡ writer) × (result.wire ≡ []) × (result.due ≡ 0) }
        ensures begun { result ≡ unbegun writer }
        ensures whole { IsChunkedWriter result }
    {
        let _ = writer.capacity();
        ChunkedWriter {
            writer,
            wire: CallLog::new(),
            calls: CallLog::new(),
            due: 0,
        }
    }

    /// The same over a buffer of yours, of which the bytes are sent first. So the writer of a body that was taken apart between
    /// chunks goes on: its next chunk stands behind those of the other.
    pub fn with_buffer(buffer: Buffer, inner: W) -> Self
        requires room { around < buffer.capacity }
        ensures over { (result.writer.inner ≡ inner) × (result.writer.block ≡ buffer) × (result.wire ≡ []) }
        ensures begun { result ≡ unbegun (over_buffer W.log (record {}) buffer inner) }
        ensures whole { IsChunkedWriter result }
    {
        ChunkedWriter::new(BufWriter::with_buffer(buffer, inner))
    }

    /// The buffered writer.
    pub fn get_ref(&self) -> &BufWriter<W>
        ensures writer { result.now ≡ self.now.writer }
        ensures whole { IsChunkedWriter self.now }
    {
        &self.writer
    }

    /// The inner writer, and the buffer with the bytes of chunks that were not sent: [`with_buffer`](ChunkedWriter::with_buffer)
    /// goes on with these. Nothing is sent, and the body isn't ended. Where payload is [`due`](ChunkedWriter::due) the writer is
    /// handed back as it was, since what is written next stands in the chunk that was begun.
    pub fn into_inner_with_buffer(self) -> Result<(W, Buffer), Self>
        ensures inner { IfOk result (λ parts. parts.0 ≡ self.writer.inner) }
        ensures log { IfOk result (λ parts. W.log parts.0 ≡ self.writer.log) }
        ensures block { IfOk result (λ parts. parts.1 ≡ self.writer.block) }
        ensures between { IsOk result ↔ (self.due ≡ 0) }
        ensures handed_back { IfErr result (λ back. back ≡ self) }
    {
        if self.due > 0 {
            return Err(self);
        }
        Ok(self.into_inner_torn().into_inner_with_buffer())
    }

    /// How many bytes of payload are still to come of a chunk that was begun, since it doesn't fit the buffer; 0 between chunks.
    pub fn due(&self) -> usize
        ensures due { result ≡ self.now.due }
        ensures whole { IsChunkedWriter self.now }
    {
        self.due
    }

    /// The buffered writer where it stands, which may be within a chunk: that is torn then. The body isn't ended. Between chunks
    /// [`new`](ChunkedWriter::new) goes on with it, and what is written into this before stands within the body.
    pub fn into_inner_torn(self) -> BufWriter<W>
        ensures { result ≡ self.writer }
    {
        let ChunkedWriter {
            writer,
            wire: _,
            calls: _,
            due: _,
        } = self;
        writer
    }

    /// Ends the body: takes the last chunk in, with no trailers, and hands the buffered writer back, which neither sent nor
    /// flushed it. Where it doesn't fit, all that is buffered is sent first. Where that fails, the writer comes back with the
    /// fault and as it was, but for what the inner writer took: it can be finished again, or written to.
    ///
    /// Where payload is [`due`](ChunkedWriter::due) the body can't be ended: the writer comes back as it was, with
    /// `InvalidInput`.
    pub fn finish(self) -> Result<BufWriter<W>, IntoInnerError<Self>>
        ensures ended { IfOk result (λ w. w.log.writes.received ++ w.block.bytes
            ≡ (self.writer.log.writes.received ++ self.writer.block.bytes) ++ body_end []) }
        ensures finishes { MatchResult result (Finishes W.log W.trace self [])
            (λ e. (LacksPayload self e.0 × (error_kind e.1 ≡ InvalidInput)) ⊎ NotFinished W.log W.trace self [] e.1 e.0) }
    {
        if self.due > 0 {
            return Err(IntoInnerError(self, io::Error::from(ErrorKind::InvalidInput)));
        }
        self.end(BARE_END, &[])
    }

    /// The same with trailers, whose lines these are, without their ends. The last chunk and all trailers go into the buffer
    /// whole or not at all. A line is a token, a colon and a value: of visible bytes, blanks, tabs and bytes from 128. Any
    /// other is refused, and so is one that says where the body ends, and so are trailers that the buffer has no capacity for
    /// with the last chunk; the writer comes back as it was then.
    ///
    /// ```
    /// let inner = BufWriter::new(alloc, Told::new(Vec::new(alloc)))?;
    /// let mut body = ChunkedWriter::new(inner);
    /// body.write_all(b"hello")?;
    /// let trailers: [&[u8]; 2] = [b"Expires: never", b"Digest: 0"];
    /// let mut inner = body
    ///     .finish_with_trailers(&trailers)
    ///     .map_err(io::Error::from)?;
    /// inner.flush()?;
    /// assert!(rt;
    ///     inner.get_ref().get_ref().as_slice()
    ///         == b"5\r\nhello\r\n0\r\nExpires: never\r\nDigest: 0\r\n\r\n".as_slice()
    /// );
    /// ```
    pub fn finish_with_trailers(self, fields: &[&[u8]]) -> Result<BufWriter<W>, FinishError<Self>>
        ensures ended { IfOk result (λ w. w.log.writes.received ++ w.block.bytes
            ≡ (self.writer.log.writes.received ++ self.writer.block.bytes) ++ body_end (lines_of fields.now)) }
        ensures finishes { MatchResult result (Finishes W.log W.trace self (lines_of fields.now))
            (λ e. (CannotEnd self.due (lines_of fields.now) self.writer.block.capacity e.1 × (e.0 ≡ self) × IsChunkedWriter e.0)
            ⊎ ((fault : Error) × (e.1 ≡ TrailersError.Io fault)
            × NotFinished W.log W.trace self (lines_of fields.now) fault e.0)) }
    {
        if self.due > 0 {
            let due = self.due;
            return Err(FinishError(self, TrailersError::Due(due)));
        }
        match end_len(fields, self.writer.capacity()) {
            Ok(len) => match self.end(len, fields) {
                Ok(writer) => Ok(writer),
                Err(IntoInnerError(body, e)) => Err(FinishError(body, TrailersError::Io(e))),
            },
            Err(why) => Err(FinishError(self, why)),
        }
    }

    // Ends the body with these trailers, with which its end has so many bytes.
    fn end(mut self, len: usize, fields: &[&[u8]]) -> Result<BufWriter<W>, IntoInnerError<Self>>
        requires between { self.due ≡ 0 }
        requires lines { AllByRecursion IsTrailer (lines_of fields.now) }
        requires fits { length (body_end (lines_of fields.now)) ≤ self.writer.block.capacity }
        requires len { len ≡ length (body_end (lines_of fields.now)) }
        ensures { MatchResult result (Finishes W.log W.trace self (lines_of fields.now))
            (λ e. NotFinished W.log W.trace self (lines_of fields.now) e.1 e.0) }
    {
        match make_space(&mut self.writer, len) {
            Ok(()) => {
                let ChunkedWriter {
                    mut writer,
                    mut wire,
                    calls: _,
                    due: _,
                } = self;
                put_end(&mut writer, &mut wire, fields);
                Ok(writer)
            }
            Err(e) => Err(IntoInnerError(self, e)),
        }
    }
}

/// Payload goes in, chunk by chunk.
impl<W: TellWrite> Write for ChunkedWriter<W> {
    ghost contents = { λ c. Some (accepted_of c) };

    /// Takes `payload` in as one chunk. Where that doesn't fit behind what is buffered, all of this is sent first. A chunk is
    /// taken to need 20 bytes beside its payload, which are those of the longest size. An empty `payload` makes no chunk.
    ///
    /// Where the capacity has no room for the chunk either, it is begun: its line goes behind what is buffered, and is sent with
    /// it unless the payload fits behind it. Then payload that the capacity has no room for goes past the buffer, by one write of
    /// the inner writer, which may take less. Further payload goes on in the chunk, as long as some of it is
    /// [`due`](ChunkedWriter::due), and never beyond its end; a rest that fits is buffered.
    ///
    /// An `Err` is that of the sending, or of the write past the buffer. No byte of `payload` was taken in, and just what the
    /// inner writer took is gone from the buffer, so the call can be made again. A chunk may have been begun then.
    fn write(&mut self, payload: &[u8]) -> io::Result<usize>
        ensures bound { WritesAtMost result payload.now }
        ensures bytes { WriteAppends (Some (accepted_of self.old)) (Some (accepted_of self.new)) result payload.now }
        ensures writes { WritesChunk W.log W.trace self.old payload.now result self.new }
    {
        if payload.is_empty() {
            self.calls.note(&Call::Write(payload, &Ok(0)));
            return Ok(0);
        }
        if self.writer.capacity() - self.writer.buf_len() < AROUND + payload.len() || self.due > 0 {
            return self.write_apart(payload);
        }
        put_chunk(&mut self.writer, &mut self.wire, payload);
        self.calls.note(&Call::Write(payload, &Ok(payload.len())));
        Ok(payload.len())
    }

    /// Sends all chunks, and flushes the inner writer. It makes no chunk, and doesn't end the body.
    fn flush(&mut self) -> io::Result<()>
        ensures bytes { Keeps (Some (accepted_of self.old)) (Some (accepted_of self.new)) }
        ensures flushed { WasFlushed W.log W.trace self.old.writer result self.new.writer }
        ensures went { ChunksWent W.trace self.old [] self.new }
        ensures calls { self.new.calls ≡ self.old.calls }
        ensures whole { IsChunkedWriter self.new }
    {
        self.writer.flush()
    }
}

impl<W: TellWrite> Tell for ChunkedWriter<W> {
    ghost log = { λ c. c.calls };
}

/// The same, told. So a `BufWriter` goes over this, which gathers small writes into chunks.
impl<W: TellWrite> TellWrite for ChunkedWriter<W> {
    ghost trace = { ChunkingWent W.trace };

    fn write_told(&mut self, payload: &[u8]) -> io::Result<usize>
        ensures bound { WritesAtMost result payload.now }
        ensures told { self.new.calls ≡ after_write self.old.calls payload.now result }
        ensures trace { ChunkingWent W.trace self.old self.new }
        ensures writes { (untold : StreamLog)
            × WritesChunk W.log W.trace self.old payload.now result (record self.new { calls = untold }) }
        ensures whole { IsChunkedWriter self.new }
    {
        let answer = self.write(payload);
        if answer.is_err() {
            self.calls.note(&Call::Write(payload, &answer));
        }
        answer
    }

    fn flush_told(&mut self) -> io::Result<()>
        ensures told { self.new.calls ≡ after_flush self.old.calls result }
        ensures trace { ChunkingWent W.trace self.old self.new }
        ensures flushed { WasFlushed W.log W.trace self.old.writer result self.new.writer }
        ensures went { ChunksWent W.trace self.old [] self.new }
        ensures whole { IsChunkedWriter self.new }
    {
        let answer = self.flush();
        self.calls.note(&Call::Flush(&answer));
        answer
    }

    ghost trace_none = { ChunkingWent-none W.trace W.trace_none W.trace_joins };

    ghost trace_joins = { ChunkingWent-joins W.trace W.trace_none W.trace_joins };

    ghost trace_grows = { ChunkingWent-grows W.trace };
}

/// The buffered writer.
impl<W: TellWrite + fmt::Debug> fmt::Debug for ChunkedWriter<W> {
    fn fmt<F: fmt::Write>(&self, f: &mut fmt::Formatter<F>) -> fmt::Result {
        f.debug_struct("chunked::ChunkedWriter")
            .field("writer", &self.writer)
            .finish()
    }
}
