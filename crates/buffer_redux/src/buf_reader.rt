//! The buffered reader.
ghost use Rattle.std.specs.Prelude.{◌≡◌, ℕ, ◌+◌, ◌*◌, ◌<◌, ◌≤◌, ◌^◌, [], length, take, min, true, Ok, Some, IfErr, IfSome, IfOk, OnOk, OnErr, IsOk};
ghost use Rattle.std.specs.Borrow.{sem, Lends};
ghost use Rattle.std.specs.Io.{ReadsAtMost, StartsWith};
ghost use Rattle.std.specs.Io.BufRead.{Rests, DropsConsumable};
ghost use Rattle.std.specs.Io.KnownBytes.{Consumes, IsAtEnd, ReadConsumes};
ghost use Rattle.redux_buffer.specs.Block.{Plain, Ring, IsBlock, LeavesBytes, MakesRoom, Reserves, capacity_for, round, usable};
ghost use Rattle.redux_buffer.specs.Faults.{IsInterrupt, failure_count, interrupt_limit};
ghost use Rattle.redux_buffer.specs.GrowError.{FitsWithin};
ghost use Rattle.redux_buffer.specs.StreamLog.{portion};
ghost use Rattle.buffer_redux.specs.contracts.buf_reader.BufReader.{the_row};
ghost use Rattle.buffer_redux.specs.Buffered.{over_buffer, with_block, with_inner, with_policy, Makes};
ghost use Rattle.buffer_redux.specs.BufReader.{ReadsInOrder, ReadErrorCaused, EmptyReadCaused, RanDry, FillBuf, ReaderConsumes, ReaderKeeps, Reads, ReadsIntoBuf};
ghost use Rattle.buffer_redux.specs.ReadAll.{ReadsExactly};
ghost use Rattle.buffer_redux.specs.ReadExact.{ReadExactErrorCaused};
ghost use Rattle.buffer_redux.specs.ReaderLaws.{WantsBytes};
ghost use Rattle.buffer_redux.specs.Remaining.{reader_remaining};
ghost use Rattle.buffer_redux.specs.Sparing.{Spared};

use crate::errors::MakeError;
use crate::policy::{DoRead, ReaderPolicy, StdPolicy};
use redux_buffer::laws::block_law;
use redux_buffer::tell::{CallLog, Tell, TellRead};
use redux_buffer::{Buffer, DEFAULT_BUF_SIZE, GrowError};
use std::alloc::Global;
use std::io::{BufRead, ErrorKind, Read};
use std::marker::Model;
use std::{fmt, io};

mod bytes;
mod line;
mod pieces;
mod seek;
mod sink;
mod steps;
mod tells;
mod until;

pub use pieces::{Lines, Split};
pub use seek::{SeekPlan, seek_plan};

/// A reader with a buffer, which reads ahead as its policy says.
///
/// No byte is lost or changes place: what was handed out, then what is buffered, is what was buffered at first, then
/// what the inner reader gave. A seek goes elsewhere, and drops what is buffered.
///
/// ```
/// let mut reader = BufReader::with_capacity(alloc, 4, Told::new(b"abcdef".as_slice()))?;
/// assert!(rt; reader.fill_buf()? == b"abcd".as_slice());
/// reader.consume(3);
/// assert!(rt; reader.buffer() == b"d".as_slice());
/// ```
#[derive(Drop)]
pub struct BufReader<R: Tell, P = StdPolicy> {
    buf: Buffer,
    inner: R,
    policy: P,
    calls: CallLog,
}

impl<R: Tell, P> Model for BufReader<R, P> {
    ghost use Rattle.redux_buffer.specs.Block.{IsBlock};
    ghost use Rattle.buffer_redux.specs.Buffered.{Buffered};

    ghost Value = { Buffered R P };

    ghost view = { λ r. record {
      policy = r.policy;
      block = r.buf;
      inner = r.inner;
      log = R.log r.inner;
      own_calls = r.calls.log;
    } };

    // What is true of every buffer, said again where a policy changes it.
    ghost invariant = { λ r. IsBlock r.buf };
}

impl<R: Tell> BufReader<R, StdPolicy> {
    /// A reader over a plain buffer of [`DEFAULT_BUF_SIZE`] bytes. A refusal hands `inner` back.
    pub fn new(alloc: Global, inner: R) -> Result<Self, MakeError<R>>
        ensures over { IfOk result (λ r. (r.inner ≡ inner) × (r.block.bytes ≡ [])) }
        ensures made { Makes R.log Plain 8192 (2 ^ 62) inner result }
    {
        BufReader::with_capacity(alloc, DEFAULT_BUF_SIZE, inner)
    }

    /// A reader over a plain buffer of `cap` bytes. A refusal hands `inner` back.
    pub fn with_capacity(alloc: Global, cap: usize, inner: R) -> Result<Self, MakeError<R>>
        ensures over { IfOk result (λ r. (r.inner ≡ inner) × (r.block.bytes ≡ [])) }
        ensures made { Makes R.log Plain cap (2 ^ 62) inner result }
        ensures succeeds { cap ≡ 0 → IsOk result }
    {
        match Buffer::with_capacity(alloc, cap) {
            Ok(buf) => Ok(BufReader::with_buffer(buf, inner)),
            Err(e) => Err(MakeError(inner, e)),
        }
    }

    /// A reader over a ring of [`DEFAULT_BUF_SIZE`] bytes. A refusal hands `inner` back.
    pub fn new_ringbuf(alloc: Global, inner: R) -> Result<Self, MakeError<R>>
        ensures over { IfOk result (λ r. (r.inner ≡ inner) × (r.block.bytes ≡ [])) }
        ensures made { Makes R.log Ring 8192 (2 ^ 61) inner result }
    {
        BufReader::with_capacity_ringbuf(alloc, DEFAULT_BUF_SIZE, inner)
    }

    /// A reader over a ring whose capacity in bytes is the least multiple of [`RING_UNIT`](crate::RING_UNIT) that is at least
    /// `cap`. A refusal hands `inner` back.
    pub fn with_capacity_ringbuf(alloc: Global, cap: usize, inner: R) -> Result<Self, MakeError<R>>
        ensures over { IfOk result (λ r. (r.inner ≡ inner) × (r.block.bytes ≡ [])) }
        ensures made { Makes R.log Ring (round cap) (2 ^ 61) inner result }
        ensures succeeds { cap ≡ 0 → IsOk result }
    {
        match Buffer::with_capacity_ringbuf(alloc, cap) {
            Ok(buf) => Ok(BufReader::with_buffer(buf, inner)),
            Err(e) => Err(MakeError(inner, e)),
        }
    }

    /// A reader over a buffer of yours. The bytes that `buf` holds are handed out first.
    pub fn with_buffer(buf: Buffer, inner: R) -> Self
        ensures { result ≡ over_buffer R.log (record {}) buf inner }
    {
        block_law(&buf);
        BufReader {
            buf,
            inner,
            policy: StdPolicy,
            calls: CallLog::new(),
        }
    }
}

impl<R: Tell, P> BufReader<R, P> {
    /// The same reader under another policy. The old one is dropped.
    pub fn set_policy<Q: ReaderPolicy>(self, policy: Q) -> BufReader<R, Q>
    where
        P: Drop,
        ensures { result ≡ with_policy self policy }
    {
        let BufReader {
            buf,
            inner,
            policy: _,
            calls,
        } = self;
        // The calls that it noted stay.
        BufReader {
            buf,
            inner,
            policy,
            calls,
        }
    }

    /// The policy.
    pub fn policy(&self) -> &P
        ensures { result.now ≡ self.now.policy }
    {
        &self.policy
    }

    /// The policy, for changes.
    pub fn policy_mut(&mut self) -> &mut P
        ensures* writes_back { sem 𝓛 (Lends (the_row R.row P.row R.Tell) P.row
            self.entry result (with_policy self.old)) }
        ensures value { result.now ≡ self.old.policy }
    {
        &mut self.policy
    }

    /// The inner reader.
    pub fn get_ref(&self) -> &R
        ensures inner { result.now ≡ self.now.inner }
        ensures log { R.log result.now ≡ self.now.log }
    {
        &self.inner
    }

    /// The inner reader, for changes. What it is asked through this is not asked by the buffered reader.
    pub fn get_mut(&mut self) -> &mut R
        ensures* writes_back { sem 𝓛 (Lends (the_row R.row P.row R.Tell) R.row
            self.entry result (with_inner R.log self.old)) }
        ensures inner { result.now ≡ self.old.inner }
        ensures log { R.log result.now ≡ self.old.log }
    {
        &mut self.inner
    }

    /// The buffered bytes, without a read.
    pub fn buffer(&self) -> &[u8]
        ensures value { result.now ≡ self.now.block.bytes }
        ensures whole { IsBlock self.now.block }
    {
        self.buf.buf()
    }

    /// How many bytes are buffered.
    pub fn buf_len(&self) -> usize
        ensures value { result ≡ length self.now.block.bytes }
        ensures whole { IsBlock self.now.block }
    {
        self.buf.len()
    }

    /// The capacity of the buffer in bytes.
    pub fn capacity(&self) -> usize
        ensures value { result ≡ self.now.block.capacity }
        ensures whole { IsBlock self.now.block }
    {
        self.buf.capacity()
    }

    /// Makes all free space of the buffer usable: a plain one moves its bytes to the front, a ring does nothing.
    pub fn make_room(&mut self)
        ensures room { MakesRoom self.old.block self.new.block }
        ensures in_order { ReadsInOrder self.old [] self.new }
        ensures others { self.new ≡ with_block self.old self.new.block }
        ensures whole { IsBlock self.new.block }
    {
        self.buf.make_room();
    }

    /// Makes sure that `additional` more bytes can be read into the buffer behind those that it holds. A refusal changes nothing.
    pub fn reserve(&mut self, additional: usize) -> Result<(), GrowError>
        ensures grown { OnOk result (Reserves additional self.old.block self.new.block) }
        ensures unchanged { OnErr result (self.new ≡ self.old) }
        ensures limit { FitsWithin result (capacity_for self.old.block additional) self.old.block.limit }
        ensures succeeds { additional ≤ usable self.old.block → IsOk result }
        ensures in_order { ReadsInOrder self.old [] self.new }
        ensures spared { (keep : ℕ) → Spared keep self.old self.new }
        ensures others { self.new ≡ with_block self.old self.new.block }
        ensures whole { IsBlock self.new.block }
    {
        self.buf.reserve(additional)
    }

    /// The inner reader. The bytes that are left in the buffer are gone, and the policy is dropped;
    /// [`into_inner_with_buffer`](BufReader::into_inner_with_buffer) keeps the bytes.
    pub fn into_inner(self) -> R
    where
        P: Drop,
        ensures inner { result ≡ self.inner }
        ensures log { R.log result ≡ self.log }
    {
        self.into_inner_with_buffer().0
    }

    /// The inner reader and the buffer with the bytes that are left. The policy is dropped.
    pub fn into_inner_with_buffer(self) -> (R, Buffer)
    where
        P: Drop,
        ensures inner { result.0 ≡ self.inner }
        ensures log { R.log result.0 ≡ self.log }
        ensures block { result.1 ≡ self.block }
    {
        let BufReader {
            buf,
            inner,
            policy: _,
            calls: _,
        } = self;
        (inner, buf)
    }
}

impl<R: TellRead, P> BufReader<R, P> {
    /// Reads once into the buffer, without the policy, and returns how many bytes came. Returns `Ok(0)` and doesn't ask
    /// the reader where nothing can be written behind the buffered bytes. A fault of the reader leaves the bytes.
    pub fn read_into_buf(&mut self) -> io::Result<usize>
        ensures in_order { ReadsInOrder self.old [] self.new }
        ensures not_asked { usable self.old.block ≡ 0 → self.new.inner ≡ self.old.inner }
        ensures err { OnErr result (LeavesBytes self.old.block self.new.block) }
        ensures end { result ≡ Ok 0 → 0 < usable self.old.block → IsAtEnd (R.remaining self.new.inner) }
        ensures spared { (keep : ℕ) → Spared keep self.old self.new }
        ensures reads { ReadsIntoBuf R.remaining self.old result self.new }
    {
        self.buf.read_from(&mut self.inner)
    }
}

impl<R: TellRead, P: ReaderPolicy> Read for BufReader<R, P> {
    ghost remaining = { reader_remaining R.remaining P.rules };

    /// Hands out buffered bytes, as many as fit, once the policy was asked and the reader read as it says. Where nothing is
    /// buffered and the slice is at least as long as the capacity, it is one read of the reader past the buffer and the
    /// policy.
    ///
    /// An `Err` is the reader's or the policy's, and hands out nothing; what came before it stays buffered.
    #[inline(always)]
    fn read(&mut self, out: &mut [u8]) -> io::Result<usize>
        ensures bound { ReadsAtMost result out.new }
        ensures bytes { ReadConsumes (reader_remaining R.remaining P.rules self.old)
            (reader_remaining R.remaining P.rules self.new) result out.new }
        ensures in_order { ReadsInOrder self.old (portion out.new result) self.new }
        ensures caused { ReadErrorCaused P.rules self.old result self.new }
        ensures empty { result ≡ Ok 0 → 0 < length out.old → EmptyReadCaused P.rules self.old self.new }
        ensures ran_dry { result ≡ Ok 0 → 0 < length out.old
            → WantsBytes (P.rules.claims self.old.policy) → RanDry self.old self.new }
        ensures steps { Reads P.rules self.old out.old result out.new self.new }
        ensures keeps { ReaderKeeps R.remaining P.rules self.old self.new }
    {
        if self.buf.is_empty() && out.len() >= self.buf.capacity() {
            return self.inner.read_told(out);
        }
        if self.policy.before_read(&mut self.buf)?.0 && self.buf.usable_space() > 0 {
            return self.read_apart(out);
        }
        Ok(self.hand_out(out))
    }

    /// Reads until the slice is full: after a short read into what is left, and again after one that was interrupted, 64 times in
    /// a row; the 65th `Interrupted` is returned. A read that hands out nothing is returned as `UnexpectedEof`.
    ///
    /// After an `Err` the bytes that were handed out stand at the front of the slice, and the reader no longer has them.
    #[inline(always)]
    fn read_exact(&mut self, out: &mut [u8]) -> io::Result<()>
        ensures in_order { OnOk result (ReadsInOrder self.old out.new self.new) }
        ensures beginning { (count : ℕ) × (count ≤ length out.new) × ReadsInOrder self.old (take count out.new) self.new }
        ensures bytes { OnOk result (Consumes (reader_remaining R.remaining P.rules self.old)
            (reader_remaining R.remaining P.rules self.new) out.new) }
        ensures few { length self.new.log.reads.faults
            ≤ length self.old.log.reads.faults + interrupt_limit * length out.new + failure_count result }
        ensures often { (P.rules.claims self.old.policy).steady ≡ true → IfErr result (λ e. IsInterrupt e
            → length self.old.log.reads.faults + interrupt_limit + 1 ≤ length self.new.log.reads.faults) }
        ensures caused { IfErr result (λ e. ReadExactErrorCaused R.remaining P.rules self.old out.new e self.new) }
        ensures whole { IsBlock self.new.block }
        ensures steps { ReadsExactly R.remaining P.rules self.old out.old result out.new self.new }
    {
        // The first test is for the compiler alone: an empty buffer has fewer bytes than any slice that isn't empty, but of that
        // it asks again in the policy.
        if self.buf.is_empty() || self.buf.len() < out.len() || out.is_empty() {
            return self.read_rest_apart(out);
        }
        match self.policy.before_read(&mut self.buf) {
            Ok(DoRead(more)) => {
                if more {
                    return self.read_ordered_apart(out);
                }
                let _count = self.hand_out(out);
                Ok(())
            }
            Err(e) => self.read_on_apart(e, out),
        }
    }
}

impl<R: TellRead, P: ReaderPolicy> BufRead for BufReader<R, P> {
    ghost consumable_len = { λ r. Some (length r.block.bytes) };

    /// Reads as long as the policy says so and leaves room, and the reader gives bytes; then returns all that is buffered.
    ///
    /// A fault of the reader, `Interrupted` among them, or an `Err` of the policy is returned at once. The bytes that
    /// came before it stay buffered.
    fn fill_buf(&mut self) -> io::Result<&[u8]>
        ensures buffered { IfOk result (λ bytes. StartsWith bytes.now self.old.block.bytes) }
        ensures front { IfSome (reader_remaining R.remaining P.rules self.old)
            (λ xs. IfOk result (λ bytes. StartsWith xs bytes.now)) }
        ensures end { IfSome (reader_remaining R.remaining P.rules self.old)
            (λ xs. IfOk result (λ bytes. length bytes.now ≡ 0 → xs ≡ [])) }
        ensures* after_borrow { sem 𝓛 (Rests (the_row R.row P.row R.Tell) self.entry
            (FillBuf R.remaining P.rules self.entry.now result)) }
    {
        self.fill()?;
        Ok(self.buf.buf())
    }

    /// Drops the first `amount` bytes that are buffered, or all, and tells the policy how many those were.
    fn consume(&mut self, amount: usize)
        ensures in_order { ReadsInOrder self.old (take amount self.old.block.bytes) self.new }
        ensures inner { self.new.inner ≡ self.old.inner }
        ensures bytes { DropsConsumable (reader_remaining R.remaining P.rules self.old)
            (reader_remaining R.remaining P.rules self.new) (Some (length self.old.block.bytes)) amount }
        ensures consumed { ReaderConsumes P.rules amount self.old self.new }
        ensures keeps { ReaderKeeps R.remaining P.rules self.old self.new }
    {
        let amt = amount.min(self.buf.len());
        self.buf.consume(amt);
        self.policy.after_consume(&mut self.buf, amt);
    }
}

/// The reader, how much is buffered of which capacity, and the policy; not the bytes.
impl<R: Tell + fmt::Debug, P: fmt::Debug> fmt::Debug for BufReader<R, P> {
    fn fmt<W: fmt::Write>(&self, f: &mut fmt::Formatter<W>) -> fmt::Result {
        f.debug_struct("buffer_redux::BufReader")
            .field("reader", &self.inner)
            .field("buf_len", &self.buf.len())
            .field("capacity", &self.buf.capacity())
            .field("policy", &self.policy)
            .finish()
    }
}
