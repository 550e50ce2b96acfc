//! A buffered writer that flushes lines.
ghost use Rattle.std.specs.Prelude.{◌≡◌, ◌+◌, ◌*◌, ◌++◌, ◌<◌, ◌≤◌, ◌^◌, [], length, Ok, Err, IfErr, true, OnOk, OnErr, IsOk, IfNone, IfOk, IfSome, MatchResult, MatchOption};
ghost use Rattle.std.specs.Borrow.{sem, Lends};
ghost use Rattle.std.specs.Io.{WritesAtMost};
ghost use Rattle.std.specs.Io.KnownBytes.{Appends, Keeps, WriteAppends};
ghost use Rattle.redux_buffer.specs.Block.{Plain, Ring, IsBlock, Reserves, capacity_for, round, usable};
ghost use Rattle.redux_buffer.specs.Faults.{FaultsOften, FewFaults, IsInterrupt, interrupt_limit};
ghost use Rattle.redux_buffer.specs.GrowError.{FitsWithin};
ghost use Rattle.redux_buffer.specs.StreamLog.{portion};
ghost use Rattle.buffer_redux.specs.contracts.line_writer.LineWriter.{the_row};
ghost use Rattle.buffer_redux.specs.Buffered.{over_buffer, with_block, with_inner, InnerWent, Makes};
ghost use Rattle.buffer_redux.specs.BufWriter.{writer_contents, WriteRows, Writes, WritesSteadily, WritesInOrder, WriterKeeps, WriteErrorCaused, EmptyWriteCaused, WasSent, WasFlushed, WriterStopped};
ghost use Rattle.buffer_redux.specs.LineWriter.{line_rules};
ghost use Rattle.buffer_redux.specs.Unwrapping.{InnerOfFlushed, SendsOrHandles};
ghost use Rattle.buffer_redux.specs.WriteAll.{TookBeginning, WriteAllErrorCaused, WritesAll};
ghost use Rattle.buffer_redux.specs.WriteFmt.{WritesText};

mod sender;
mod tells;

use crate::buf_writer::BufWriter;
use crate::errors::{IntoInnerError, MakeError};
use crate::policy::FlushOnNewline;
use redux_buffer::tell::TellWrite;
use redux_buffer::{Buffer, DEFAULT_BUF_SIZE, GrowError};
pub use sender::LineSender;
use std::alloc::Global;
use std::fmt::Display;
use std::io;
use std::io::{ErrorKind, Write};
use std::marker::Model;

/// A [`BufWriter`] under [`FlushOnNewline`]: after each write it sends through the last newline, the byte 10, that is
/// buffered. A fault of that send isn't returned, and what wasn't sent stays buffered: so `writeln!` to a full device
/// answers `Ok`. [`LineSender`] returns it, as std's `LineWriter` does; so do [`send`](LineWriter::send), `flush` and
/// [`finish`](LineWriter::finish).
///
/// ```
/// let mut writer = LineWriter::new(alloc, Told::new(Vec::new(alloc)))?;
/// writer.write_all(b"one\ntwo")?;
/// assert!(rt; writer.get_ref().get_ref().as_slice() == b"one\n".as_slice());
/// assert!(rt; writer.buf_len() == 3);
/// ```
#[derive(Debug, Drop)]
pub struct LineWriter<W: TellWrite> {
    writer: BufWriter<W, FlushOnNewline>,
}

// A `LineWriter` is seen as the writer that it is, so that all that is said of one is said of the other in the same words.
impl<W: TellWrite> Model for LineWriter<W> {
    ghost use Rattle.buffer_redux.specs.Buffered.{Buffered};
    ghost use Rattle.buffer_redux.specs.declared.policy.writers.FlushOnNewline.{FlushOnNewline};

    ghost Value = { Buffered W FlushOnNewline };

    ghost view = { λ l. l.writer };
}

impl<W: TellWrite> LineWriter<W> {
    /// A writer over a plain buffer of [`DEFAULT_BUF_SIZE`] bytes. A refusal hands `inner` back.
    pub fn new(alloc: Global, inner: W) -> Result<Self, MakeError<W>>
        ensures over { IfOk result (λ w. (w.inner ≡ inner) × (w.block.bytes ≡ [])) }
        ensures made { Makes W.log Plain 8192 (2 ^ 62) inner result }
    {
        LineWriter::with_capacity(alloc, DEFAULT_BUF_SIZE, inner)
    }

    /// A writer over a plain buffer of `cap` bytes. A refusal hands `inner` back.
    pub fn with_capacity(alloc: Global, cap: usize, inner: W) -> Result<Self, MakeError<W>>
        ensures over { IfOk result (λ w. (w.inner ≡ inner) × (w.block.bytes ≡ [])) }
        ensures made { Makes W.log Plain cap (2 ^ 62) inner result }
        ensures succeeds { cap ≡ 0 → IsOk result }
    {
        match Buffer::with_capacity(alloc, cap) {
            Ok(buf) => Ok(LineWriter::with_buffer(buf, inner)),
            Err(e) => Err(MakeError(inner, e)),
        }
    }

    /// A writer over a ring of [`DEFAULT_BUF_SIZE`] bytes. A refusal hands `inner` back.
    pub fn new_ringbuf(alloc: Global, inner: W) -> Result<Self, MakeError<W>>
        ensures over { IfOk result (λ w. (w.inner ≡ inner) × (w.block.bytes ≡ [])) }
        ensures made { Makes W.log Ring 8192 (2 ^ 61) inner result }
    {
        LineWriter::with_capacity_ringbuf(alloc, DEFAULT_BUF_SIZE, inner)
    }

    /// A writer over a ring whose capacity in bytes is the least multiple of [`RING_UNIT`](crate::RING_UNIT) that is at least
    /// `cap`. A refusal hands `inner` back.
    pub fn with_capacity_ringbuf(alloc: Global, cap: usize, inner: W) -> Result<Self, MakeError<W>>
        ensures over { IfOk result (λ w. (w.inner ≡ inner) × (w.block.bytes ≡ [])) }
        ensures made { Makes W.log Ring (round cap) (2 ^ 61) inner result }
        ensures succeeds { cap ≡ 0 → IsOk result }
    {
        match Buffer::with_capacity_ringbuf(alloc, cap) {
            Ok(buf) => Ok(LineWriter::with_buffer(buf, inner)),
            Err(e) => Err(MakeError(inner, e)),
        }
    }

    /// A writer over a buffer of yours. The bytes that `buf` holds are written out first.
    pub fn with_buffer(buf: Buffer, inner: W) -> Self
        ensures { result ≡ over_buffer W.log (record {}) buf inner }
    {
        LineWriter {
            writer: BufWriter::with_buffer(buf, inner).set_policy(FlushOnNewline),
        }
    }

    /// The inner writer.
    pub fn get_ref(&self) -> &W
        ensures inner { result.now ≡ self.now.inner }
        ensures log { W.log result.now ≡ self.now.log }
    {
        self.writer.get_ref()
    }

    /// The inner writer, for changes. What is written through this goes out before the buffered bytes. Where a send failed, those
    /// may be the rest of what is half sent, so nothing is to be written here then before they went out.
    pub fn get_mut(&mut self) -> &mut W
        ensures* writes_back { sem 𝓛 (Lends (the_row W.row W.TellWrite.own W.Tell.own) W.row
            self.entry result (with_inner W.log self.old)) }
        ensures inner { result.now ≡ self.old.inner }
        ensures log { W.log result.now ≡ self.old.log }
    {
        self.writer.get_mut()
    }

    /// The buffered bytes, which weren't sent yet.
    pub fn buffer(&self) -> &[u8]
        ensures value { result.now ≡ self.now.block.bytes }
        ensures whole { IsBlock self.now.block }
    {
        self.writer.buffer()
    }

    /// How many bytes are buffered.
    pub fn buf_len(&self) -> usize
        ensures value { result ≡ length self.now.block.bytes }
        ensures whole { IsBlock self.now.block }
    {
        self.writer.buf_len()
    }

    /// The capacity of the buffer in bytes.
    pub fn capacity(&self) -> usize
        ensures value { result ≡ self.now.block.capacity }
        ensures whole { IsBlock self.now.block }
    {
        self.writer.capacity()
    }

    /// Makes sure that `additional` more bytes fit behind those that are buffered. A refusal changes nothing.
    pub fn reserve(&mut self, additional: usize) -> Result<(), GrowError>
        ensures grown { OnOk result (Reserves additional self.old.block self.new.block) }
        ensures unchanged { OnErr result (self.new ≡ self.old) }
        ensures limit { FitsWithin result (capacity_for self.old.block additional) self.old.block.limit }
        ensures succeeds { additional ≤ usable self.old.block → IsOk result }
        ensures in_order { WritesInOrder self.old [] self.new }
        ensures others { self.new ≡ with_block self.old self.new.block }
        ensures whole { IsBlock self.new.block }
    {
        self.writer.reserve(additional)
    }

    /// Sends all that is buffered, without a flush of the inner writer. Where that fails, just what the inner writer took is
    /// no longer buffered, so the call can be made again.
    pub fn send(&mut self) -> io::Result<()>
        ensures all { OnOk result ((self.new.block.bytes ≡ [])
            × (self.new.log.writes.received ≡ self.old.log.writes.received ++ self.old.block.bytes)) }
        ensures sent { WasSent W.log W.trace self.old result self.new }
    {
        self.writer.send()
    }

    /// The inner writer and the buffer with the bytes that were not written out. Nothing is sent.
    pub fn into_inner_with_buffer(self) -> (W, Buffer)
        ensures inner { result.0 ≡ self.inner }
        ensures log { W.log result.0 ≡ self.log }
        ensures block { result.1 ≡ self.block }
    {
        let LineWriter { writer } = self;
        writer.into_inner_with_buffer()
    }

    /// The original's name for [`into_inner_with_buffer`](LineWriter::into_inner_with_buffer).
    pub fn into_inner_with_buf(self) -> (W, Buffer)
        ensures inner { result.0 ≡ self.inner }
        ensures log { W.log result.0 ≡ self.log }
        ensures block { result.1 ≡ self.block }
    {
        self.into_inner_with_buffer()
    }

    /// Flushes, and hands the inner writer back; where that fails, the line writer with the bytes that were not sent, and
    /// the fault.
    pub fn into_inner(self) -> Result<W, IntoInnerError<Self>>
        ensures all { IfOk result (λ inner. (W.log inner).writes.received ≡ self.log.writes.received ++ self.block.bytes) }
        ensures flushed { MatchResult result
            (InnerOfFlushed W.log W.trace self (Ok tt)) (λ e. WasFlushed W.log W.trace self (Err e.1) e.0) }
    {
        let LineWriter { writer } = self;
        match writer.into_inner() {
            Ok(inner) => Ok(inner),
            Err(IntoInnerError(writer, e)) => Err(IntoInnerError(LineWriter { writer }, e)),
        }
    }

    /// Flushes, and hands the inner writer back, with the fault where that fails. The bytes that were not sent then are
    /// gone.
    pub fn into_inner_with_err(self) -> (W, Option<io::Error>)
        ensures all { IfNone result.1 ((W.log result.0).writes.received ≡ self.log.writes.received ++ self.block.bytes) }
        ensures flushed { MatchOption result.1
            (InnerOfFlushed W.log W.trace self (Ok tt) result.0)
            (λ e. InnerOfFlushed W.log W.trace self (Err e) result.0) }
    {
        let LineWriter { writer } = self;
        writer.into_inner_with_err()
    }

    /// Writes a formatted text, as `write!` and `writeln!` ask for it: each of its pieces by `write_all`. See
    /// [`BufWriter::write_fmt`].
    #[inline(always)]
    pub fn write_fmt<D: Display + Drop>(&mut self, text: D) -> io::Result<()>
        ensures bytes { OnOk result (IfSome (D.output text) (Appends (writer_contents self.old) (writer_contents self.new))) }
        ensures text { WritesText W.log W.trace line_rules self.old (D.output text) result self.new }
    {
        self.writer.write_fmt(text)
    }

    /// Sends what is buffered, without a flush of the inner writer, and hands both parts back. Where sending fails,
    /// `handler` is called once, with the inner writer, the buffer as the fault left it, and the fault.
    pub fn finish<F: FnOnce(&mut W, &mut Buffer, io::Error)>(self, handler: F) -> (W, Buffer)
    where
        requires { F.IsAlwaysCallable handler }
        ensures idle { self.block.bytes ≡ [] → (result.0 ≡ self.inner) × (result.1 ≡ self.block) }
        ensures sent { SendsOrHandles W.log W.trace (λ w b e w' b'. F.post handler w b e tt w' b') self result.0 result.1 }
    {
        let LineWriter { writer } = self;
        writer.finish(handler)
    }
}

// Each call is that of a `BufWriter` under the rules of `FlushOnNewline`.
impl<W: TellWrite> Write for LineWriter<W> {
    ghost contents = { writer_contents };

    fn write(&mut self, bytes: &[u8]) -> io::Result<usize>
        ensures bound { WritesAtMost result bytes.now }
        ensures bytes { WriteAppends (writer_contents self.old) (writer_contents self.new) result bytes.now }
        ensures in_order { WritesInOrder self.old (portion bytes.now result) self.new }
        ensures caused { WriteErrorCaused line_rules self.old bytes.now result self.new }
        ensures empty { result ≡ Ok 0 → 0 < length bytes.now
            → EmptyWriteCaused line_rules self.old bytes.now self.new }
        ensures steadily { WritesSteadily line_rules self.old (length bytes.now) result self.new }
        ensures steps { Writes line_rules self.old bytes.now result self.new }
        ensures rows { WriteRows W.log W.trace line_rules self.old bytes.now result self.new }
        ensures keeps { WriterKeeps W.log W.trace line_rules self.old self.new }
    {
        self.writer.write(bytes)
    }

    #[inline(always)]
    fn write_all(&mut self, bytes: &[u8]) -> io::Result<()>
        ensures bytes { OnOk result (Appends (writer_contents self.old) (writer_contents self.new) bytes.now) }
        ensures in_order { OnOk result (WritesInOrder self.old bytes.now self.new) }
        ensures beginning { TookBeginning bytes.now self.old self.new }
        ensures few { FewFaults ((interrupt_limit + 1) * length bytes.now) self.old.log.writes self.new.log.writes }
        ensures often { (line_rules.claims self.old.policy).steady ≡ true
            → IfErr result (λ e. IsInterrupt e → FaultsOften self.old.log.writes self.new.log.writes) }
        ensures caused { IfErr result (λ e. WriteAllErrorCaused W.log W.trace line_rules self.old bytes.now e self.new) }
        ensures steadily { (line_rules.claims self.old.policy).steady ≡ true
            → IfErr result (WriterStopped self.old.log.writes self.new.log.writes) }
        ensures whole { IsBlock self.new.block }
        ensures steps { WritesAll W.log W.trace line_rules self.old bytes.now result self.new }
        ensures trace { InnerWent W.log W.trace self.old self.new }
    {
        self.writer.write_all(bytes)
    }

    fn flush(&mut self) -> io::Result<()>
        ensures all { OnOk result ((self.new.block.bytes ≡ [])
            × (self.new.log.writes.received ≡ self.old.log.writes.received ++ self.old.block.bytes)
            × (self.new.log.writes.flushed ≡ self.new.log.writes.received)) }
        ensures bytes { Keeps (writer_contents self.old) (writer_contents self.new) }
        ensures flushed { WasFlushed W.log W.trace self.old result self.new }
    {
        self.writer.flush()
    }
}
