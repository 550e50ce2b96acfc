//! The buffered writer.
ghost use Rattle.std.specs.Prelude.{◌≡◌, ◌+◌, ◌*◌, ◌<◌, ◌≤◌, ◌^◌, [], ◌++◌, length, Ok, IfErr, true, OnOk, OnErr, IfOk, IsOk};
ghost use Rattle.std.specs.Borrow.{sem, Lends};
ghost use Rattle.std.specs.Io.{WritesAtMost};
ghost use Rattle.std.specs.Io.KnownBytes.{Appends, Keeps, WriteAppends};
ghost use Rattle.redux_buffer.specs.Block.{Plain, Ring, IsBlock, Reserves, MakesRoom};
ghost use Rattle.redux_buffer.specs.Block.{capacity_for, round, usable};
ghost use Rattle.redux_buffer.specs.Faults.{FaultsOften, FewFaults, IsInterrupt, interrupt_limit};
ghost use Rattle.redux_buffer.specs.GrowError.{FitsWithin};
ghost use Rattle.redux_buffer.specs.StreamLog.{portion};
ghost use Rattle.redux_buffer.specs.Transfer.{FailedRow};
ghost use Rattle.buffer_redux.specs.contracts.buf_writer.BufWriter.{the_row};
ghost use Rattle.buffer_redux.specs.Buffered.{over_buffer, with_block, with_inner, with_policy, InnerWent, Makes};
ghost use Rattle.buffer_redux.specs.BufWriter.{writer_contents, FinishedInRow, FlushesAmount, TakesIn, WriteRows, Writes};
ghost use Rattle.buffer_redux.specs.BufWriter.{WritesSteadily, WritesInOrder, WriterKeeps, WriteErrorCaused, EmptyWriteCaused, WasSent, WasFlushed, WriterStopped};
ghost use Rattle.buffer_redux.specs.WriteAll.{TookBeginning, WriteAllErrorCaused, WritesAll};

use crate::errors::MakeError;
use crate::policy::{FlushAmt, StdPolicy, WriterPolicy};
use redux_buffer::laws::block_law;
use redux_buffer::tell::{CallLog, TellWrite};
use redux_buffer::{Buffer, DEFAULT_BUF_SIZE, GrowError};
use std::alloc::Global;
use std::io::{ErrorKind, Write};
use std::marker::Model;
use std::{fmt, io};

mod parts;
mod seek;
mod steps;
mod tells;
mod text;
mod unwrapping;
mod whole;

/// A writer with a buffer, which sends as its policy says.
///
/// No byte is lost or changes place: what the inner writer received, then what is buffered, is what was buffered at
/// first, then what was accepted.
///
/// A writer that is dropped sends what is buffered, without a flush of the inner writer, and forgets a fault; the bytes
/// that were not sent then are lost. [`finish`](BufWriter::finish) does the same and tells of a fault.
///
/// ```
/// let mut writer = BufWriter::with_capacity(alloc, 4, Told::new(Vec::new(alloc)))?;
/// assert!(rt; writer.write(b"abc")? == 3);
/// assert!(rt; writer.buf_len() == 3);
/// writer.flush()?;
/// assert!(rt; writer.get_ref().get_ref().as_slice() == b"abc".as_slice());
/// ```
pub struct BufWriter<W: TellWrite, P = StdPolicy> {
    buf: Buffer,
    inner: W,
    policy: P,
    calls: CallLog,
}

impl<W: TellWrite, P> Model for BufWriter<W, P> {
    ghost use Rattle.redux_buffer.specs.Block.{IsBlock};
    ghost use Rattle.buffer_redux.specs.Buffered.{Buffered};

    ghost Value = { Buffered W P };

    ghost view = { λ w. record {
      policy = w.policy;
      block = w.buf;
      inner = w.inner;
      log = W.log w.inner;
      own_calls = w.calls.log;
    } };

    // What is true of every buffer, said again where a policy changes it.
    ghost invariant = { λ w. IsBlock w.buf };
}

impl<W: TellWrite> BufWriter<W, StdPolicy> {
    /// A writer over a plain buffer of [`DEFAULT_BUF_SIZE`] bytes. A refusal hands `inner` back.
    pub fn new(alloc: Global, inner: W) -> Result<Self, MakeError<W>>
        ensures over { IfOk result (λ w. (w.inner ≡ inner) × (w.block.bytes ≡ [])) }
        ensures made { Makes W.log Plain 8192 (2 ^ 62) inner result }
    {
        BufWriter::with_capacity(alloc, DEFAULT_BUF_SIZE, inner)
    }

    /// A writer over a plain buffer of `cap` bytes. A refusal hands `inner` back.
    pub fn with_capacity(alloc: Global, cap: usize, inner: W) -> Result<Self, MakeError<W>>
        ensures over { IfOk result (λ w. (w.inner ≡ inner) × (w.block.bytes ≡ [])) }
        ensures made { Makes W.log Plain cap (2 ^ 62) inner result }
        ensures succeeds { cap ≡ 0 → IsOk result }
    {
        match Buffer::with_capacity(alloc, cap) {
            Ok(buf) => Ok(BufWriter::with_buffer(buf, inner)),
            Err(e) => Err(MakeError(inner, e)),
        }
    }

    /// A writer over a ring of [`DEFAULT_BUF_SIZE`] bytes. A refusal hands `inner` back.
    pub fn new_ringbuf(alloc: Global, inner: W) -> Result<Self, MakeError<W>>
        ensures over { IfOk result (λ w. (w.inner ≡ inner) × (w.block.bytes ≡ [])) }
        ensures made { Makes W.log Ring 8192 (2 ^ 61) inner result }
    {
        BufWriter::with_capacity_ringbuf(alloc, DEFAULT_BUF_SIZE, inner)
    }

    /// A writer over a ring whose capacity in bytes is the least multiple of [`RING_UNIT`](crate::RING_UNIT) that is at
    /// least `cap`. A refusal hands `inner` back.
    pub fn with_capacity_ringbuf(alloc: Global, cap: usize, inner: W) -> Result<Self, MakeError<W>>
        ensures over { IfOk result (λ w. (w.inner ≡ inner) × (w.block.bytes ≡ [])) }
        ensures made { Makes W.log Ring (round cap) (2 ^ 61) inner result }
        ensures succeeds { cap ≡ 0 → IsOk result }
    {
        match Buffer::with_capacity_ringbuf(alloc, cap) {
            Ok(buf) => Ok(BufWriter::with_buffer(buf, inner)),
            Err(e) => Err(MakeError(inner, e)),
        }
    }

    /// A writer over a buffer of yours. The bytes that `buf` holds are written out first.
    pub fn with_buffer(buf: Buffer, inner: W) -> Self
        ensures { result ≡ over_buffer W.log (record {}) buf inner }
    {
        block_law(&buf);
        BufWriter {
            buf,
            inner,
            policy: StdPolicy,
            calls: CallLog::new(),
        }
    }
}

impl<W: TellWrite, P> BufWriter<W, P> {
    /// The policy.
    pub fn policy(&self) -> &P
        ensures { result.now ≡ self.now.policy }
    {
        &self.policy
    }

    /// The policy, for changes.
    pub fn policy_mut(&mut self) -> &mut P
        ensures* writes_back { sem 𝓛 (Lends (the_row W.row P.row W.TellWrite.own W.Tell.own) P.row
            self.entry result (with_policy self.old)) }
        ensures value { result.now ≡ self.old.policy }
    {
        &mut self.policy
    }

    /// The inner writer.
    pub fn get_ref(&self) -> &W
        ensures inner { result.now ≡ self.now.inner }
        ensures log { W.log result.now ≡ self.now.log }
    {
        &self.inner
    }

    /// The inner writer, for changes. What is written through this goes out before the buffered bytes. Where a send failed, those
    /// may be the rest of what is half sent, so nothing is to be written here then before they went out.
    pub fn get_mut(&mut self) -> &mut W
        ensures* writes_back { sem 𝓛 (Lends (the_row W.row P.row W.TellWrite.own W.Tell.own) W.row
            self.entry result (with_inner W.log self.old)) }
        ensures inner { result.now ≡ self.old.inner }
        ensures log { W.log result.now ≡ self.old.log }
    {
        &mut self.inner
    }

    /// The buffered bytes, which weren't sent yet.
    pub fn buffer(&self) -> &[u8]
        ensures value { result.now ≡ self.now.block.bytes }
        ensures whole { IsBlock self.now.block }
    {
        self.buf.buf()
    }

    /// How many bytes are buffered.
    pub fn buf_len(&self) -> usize
        ensures value { result ≡ length self.now.block.bytes }
        ensures whole { IsBlock self.now.block }
    {
        self.buf.len()
    }

    /// The capacity of the buffer in bytes.
    pub fn capacity(&self) -> usize
        ensures value { result ≡ self.now.block.capacity }
        ensures whole { IsBlock self.now.block }
    {
        self.buf.capacity()
    }

    /// Makes all free space of the buffer usable: a plain one moves its bytes to the front, a ring does nothing.
    pub fn make_room(&mut self)
        ensures room { MakesRoom self.old.block self.new.block }
        ensures in_order { WritesInOrder self.old [] self.new }
        ensures others { self.new ≡ with_block self.old self.new.block }
        ensures whole { IsBlock self.new.block }
    {
        self.buf.make_room();
    }

    /// Makes sure that `additional` more bytes fit behind those that are buffered. A refusal changes nothing.
    pub fn reserve(&mut self, additional: usize) -> Result<(), GrowError>
        ensures grown { OnOk result (Reserves additional self.old.block self.new.block) }
        ensures unchanged { OnErr result (self.new ≡ self.old) }
        ensures limit { FitsWithin result (capacity_for self.old.block additional) self.old.block.limit }
        ensures succeeds { additional ≤ usable self.old.block → IsOk result }
        ensures in_order { WritesInOrder self.old [] self.new }
        ensures others { self.new ≡ with_block self.old self.new.block }
        ensures whole { IsBlock self.new.block }
    {
        self.buf.reserve(additional)
    }

    /// Sends all that is buffered, without a flush of the inner writer. Where that fails, just what the inner writer took is
    /// no longer buffered, so the call can be made again.
    pub fn send(&mut self) -> io::Result<()>
        ensures all { OnOk result ((self.new.block.bytes ≡ [])
            × (self.new.log.writes.received ≡ self.old.log.writes.received ++ self.old.block.bytes)) }
        ensures sent { WasSent W.log W.trace self.old result self.new }
    {
        self.buf.write_all(&mut self.inner)
    }

    // Sends the first `amount` bytes: none at 0, and none where fewer are buffered.
    #[inline(always)]
    fn flush_amount(&mut self, amount: usize) -> io::Result<()>
        ensures flushed { FlushesAmount amount self.old result self.new }
        ensures row { IfErr result (λ e. FailedRow W.log W.trace e self.old.inner self.new.inner) }
        ensures whole { IsBlock self.new.block }
        ensures trace { InnerWent W.log W.trace self.old self.new }
    {
        if amount == 0 || amount > self.buf.len() {
            return Ok(());
        }
        self.send_first(amount)
    }

    // Inlined, as `write_apart` is.
    #[inline(always)]
    fn send_first(&mut self, amount: usize) -> io::Result<()>
        requires some { 0 < amount }
        requires within { amount ≤ length self.old.block.bytes }
        ensures flushed { FlushesAmount amount self.old result self.new }
        ensures row { IfErr result (λ e. FailedRow W.log W.trace e self.old.inner self.new.inner) }
        ensures whole { IsBlock self.new.block }
        ensures trace { InnerWent W.log W.trace self.old self.new }
    {
        self.buf.write_max(amount, &mut self.inner)
    }

    // Takes bytes in past an empty buffer that is no larger, and else copies those that fit.
    #[inline(always)]
    fn append_or_write(&mut self, bytes: &[u8]) -> io::Result<usize>
        ensures took_in { TakesIn bytes.now self.old result self.new }
        ensures whole { IsBlock self.new.block }
        ensures trace { InnerWent W.log W.trace self.old self.new }
    {
        if self.buf.is_empty() && bytes.len() >= self.buf.capacity() {
            return self.inner.write_told(bytes);
        }
        if self.buf.usable_space() == 0 {
            self.make_room();
        }
        Ok(self.buf.copy_from_slice(bytes))
    }
}

impl<W: TellWrite, P: WriterPolicy> BufWriter<W, P> {
    // Asks the policy after a write, and flushes the amount that it returns, whether or not that fails.
    #[inline(always)]
    fn flush_after(&mut self)
        ensures finished { FinishedInRow W.log W.trace P.rules self.old self.new }
        ensures whole { IsBlock self.new.block }
        ensures trace { InnerWent W.log W.trace self.old self.new }
    {
        let FlushAmt(last) = self.policy.after_write(&self.buf);
        let _ = self.flush_amount(last);
    }
}

impl<W: TellWrite, P: WriterPolicy> Write for BufWriter<W, P> {
    ghost contents = { writer_contents };

    /// Asks the policy, sends the amount that it says, and then takes bytes in: by one write of the inner writer where
    /// nothing is buffered and they fill the capacity, and else as many as fit.
    ///
    /// An `Err` is the policy's, that send's or the inner writer's, and no byte was taken in. After an `Ok` the amount that the
    /// policy's `after_write` says was sent too; a fault of that send isn't returned, and what wasn't sent stays buffered.
    #[inline(always)]
    fn write(&mut self, bytes: &[u8]) -> io::Result<usize>
        ensures bound { WritesAtMost result bytes.now }
        ensures bytes { WriteAppends (writer_contents self.old) (writer_contents self.new) result bytes.now }
        ensures in_order { WritesInOrder self.old (portion bytes.now result) self.new }
        ensures caused { WriteErrorCaused P.rules self.old bytes.now result self.new }
        ensures empty { result ≡ Ok 0 → 0 < length bytes.now
            → EmptyWriteCaused P.rules self.old bytes.now self.new }
        ensures steadily { WritesSteadily P.rules self.old (length bytes.now) result self.new }
        ensures steps { Writes P.rules self.old bytes.now result self.new }
        ensures rows { WriteRows W.log W.trace P.rules self.old bytes.now result self.new }
        ensures keeps { WriterKeeps W.log W.trace P.rules self.old self.new }
    {
        // Asked before the policy is, so that a policy that asks the same isn't compiled into the caller.
        if !self.buf.has_space_behind(bytes.len()) {
            return self.write_asking_apart(bytes);
        }
        let FlushAmt(first) = self.policy.before_write(&mut self.buf, bytes.len())?;
        if first > 0 {
            return self.write_apart(first, bytes);
        }
        if bytes.len() >= self.buf.usable_space() {
            return self.write_apart(0, bytes);
        }
        // Nothing is sent first, and the bytes fit with room to spare.
        self.buf.append_short(bytes);
        self.flush_after();
        Ok(bytes.len())
    }

    /// Writes until all is taken in: after a short write what is left, and after one that was interrupted the same again, 64
    /// times in a row; the 65th `Interrupted` is returned. A write that takes nothing is returned as `WriteZero`.
    ///
    /// Any other error is returned at once. After an `Err` some of the first bytes may have been taken in.
    #[inline(always)]
    fn write_all(&mut self, bytes: &[u8]) -> io::Result<()>
        ensures bytes { OnOk result (Appends (writer_contents self.old) (writer_contents self.new) bytes.now) }
        ensures in_order { OnOk result (WritesInOrder self.old bytes.now self.new) }
        ensures beginning { TookBeginning bytes.now self.old self.new }
        ensures few { FewFaults ((interrupt_limit + 1) * length bytes.now) self.old.log.writes self.new.log.writes }
        ensures often { (P.rules.claims self.old.policy).steady ≡ true
            → IfErr result (λ e. IsInterrupt e → FaultsOften self.old.log.writes self.new.log.writes) }
        ensures caused { IfErr result (λ e. WriteAllErrorCaused W.log W.trace P.rules self.old bytes.now e self.new) }
        ensures steadily { (P.rules.claims self.old.policy).steady ≡ true
            → IfErr result (WriterStopped self.old.log.writes self.new.log.writes) }
        ensures whole { IsBlock self.new.block }
        ensures steps { WritesAll W.log W.trace P.rules self.old bytes.now result self.new }
        ensures trace { InnerWent W.log W.trace self.old self.new }
    {
        self.write_whole(bytes, false)
    }

    /// Sends what is buffered, and flushes the inner writer. Where sending fails, just what the inner writer took is no longer
    /// buffered, and it isn't flushed.
    fn flush(&mut self) -> io::Result<()>
        ensures all { OnOk result ((self.new.block.bytes ≡ [])
            × (self.new.log.writes.received ≡ self.old.log.writes.received ++ self.old.block.bytes)
            × (self.new.log.writes.flushed ≡ self.new.log.writes.received)) }
        ensures bytes { Keeps (writer_contents self.old) (writer_contents self.new) }
        ensures flushed { WasFlushed W.log W.trace self.old result self.new }
    {
        self.send()?;
        self.inner.flush_told()
    }
}

/// Sends what is buffered, without a flush of the inner writer, and forgets a fault.
impl<W: TellWrite + Drop, P: Drop> Drop for BufWriter<W, P> {
    fn drop(mut self) {
        let _ = self.send();
        let BufWriter {
            buf: _,
            inner: _,
            policy: _,
            calls: _,
        } = self;
    }
}

impl<W: TellWrite + fmt::Debug, P: fmt::Debug> fmt::Debug for BufWriter<W, P> {
    fn fmt<F: fmt::Write>(&self, f: &mut fmt::Formatter<F>) -> fmt::Result {
        f.debug_struct("buffer_redux::BufWriter")
            .field("writer", &self.inner)
            .field("buf_len", &self.buf.len())
            .field("capacity", &self.buf.capacity())
            .field("policy", &self.policy)
            .finish()
    }
}
