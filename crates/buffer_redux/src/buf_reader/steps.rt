//! The parts of a read: filling the buffer, handing bytes out, and reading on until a slice is full.
ghost use Rattle.std.specs.Prelude.{◌≡◌, ℕ, ◌<◌, ◌≤◌, List, Ok, Err, length, take};
ghost use Rattle.std.specs.Io.{ReadsAtMost};
ghost use Rattle.std.specs.Io.KnownBytes.{IsAtEnd};
ghost use Rattle.redux_buffer.specs.Block.{IsBlock, usable};
ghost use Rattle.buffer_redux.specs.Buffered.{Buffered};
ghost use Rattle.buffer_redux.specs.BufReader.{InnerGives, RanDry, ReaderConsumes, ReaderKeeps, ReadsInOrder};
ghost use Rattle.buffer_redux.specs.Fill.{Filled};
ghost use Rattle.buffer_redux.specs.ReadAll.{HandedFront, OneRead, ReadsExactly};
ghost use Rattle.buffer_redux.specs.ReadAllLaws.{HandedFront-joins, OneRead-tells};
ghost use Rattle.buffer_redux.specs.ReadInside.{AskedRead, FillDone, HandOut, ReadsInside};
ghost use Rattle.buffer_redux.specs.Policy.{read_now};

use crate::all_bytes::{FillSlice, fill_on};
use crate::buf_reader::BufReader;
use crate::policy::ReaderPolicy;
use redux_buffer::tell::TellRead;
use std::io;
use std::io::Read;

impl<R: TellRead, P: ReaderPolicy> BufReader<R, P> {
    // Inlined, so that a call that finds its bytes buffered makes no answer of `fill`.
    #[inline(always)]
    pub(super) fn fill(&mut self) -> io::Result<()>
        ensures filled { Filled P.rules self.old result self.new }
        ensures known { InnerGives R.remaining self.old self.new }
        ensures end { RanDry self.old self.new → IsAtEnd (R.remaining self.new.inner) }
        ensures noted { self.new.own_calls ≡ self.old.own_calls }
        ensures whole { IsBlock self.new.block }
    {
        while self.policy.before_read(&mut self.buf)?.0 && self.buf.usable_space() > 0 {
            if self.read_into_buf()? == 0 {
                break;
            }
        }
        Ok(())
    }

    // Drops the first `count` bytes, which are buffered, and tells the policy.
    #[inline(always)]
    pub(super) fn consume_exact(&mut self, count: usize)
        requires within { count ≤ length self.old.block.bytes }
        ensures in_order { ReadsInOrder self.old (take count self.old.block.bytes) self.new }
        ensures inner { self.new.inner ≡ self.old.inner }
        ensures consumed { ReaderConsumes P.rules count self.old self.new }
        ensures keeps { ReaderKeeps R.remaining P.rules self.old self.new }
    {
        self.buf.consume_exact(count);
        self.policy.after_consume(&mut self.buf, count);
    }

    // Hands out the first bytes that are buffered, as many as fit, and tells the policy how many those were.
    #[inline(always)]
    pub(super) fn hand_out(&mut self, out: &mut [u8]) -> usize
        ensures hands { HandOut R.remaining P.rules self.old out.old result out.new self.new }
    {
        let n = self.buf.copy_to_slice(out);
        self.policy.after_consume(&mut self.buf, n);
        n
    }

    // Fills on after the policy ordered a read and left room.
    #[inline(always)]
    fn fill_on(&mut self) -> io::Result<()>
        requires room { 0 < usable self.old.block }
        ensures fill { (s : Buffered R P) → AskedRead P.rules read_now s self.old
            → FillDone R.remaining P.rules s result self.new }
    {
        if self.read_into_buf()? == 0 {
            return Ok(());
        }
        self.fill()
    }

    // All of a read through the buffer after the policy ordered the first read into it and left room.
    #[cold]
    #[inline(never)]
    fn read_slowly(&mut self, out: &mut [u8]) -> io::Result<usize>
        requires room { 0 < usable self.old.block }
        ensures bound { ReadsAtMost result out.new }
        ensures read { (s : Buffered R P) → AskedRead P.rules read_now s self.old
            → ReadsInside R.remaining P.rules s out.old result out.new self.new }
    {
        self.fill_on()?;
        Ok(self.hand_out(out))
    }

    // The kit's compiler clears the answer of a call where the function that makes the call begins; of a call made in here,
    // which is inlined, that is behind the tests of the caller. So it is of each `_apart`.
    #[inline(always)]
    pub(super) fn read_apart(&mut self, out: &mut [u8]) -> io::Result<usize>
        requires room { 0 < usable self.old.block }
        ensures bound { ReadsAtMost result out.new }
        ensures read { (s : Buffered R P) → AskedRead P.rules read_now s self.old
            → ReadsInside R.remaining P.rules s out.old result out.new self.new }
    {
        self.read_slowly(out)
    }

    // Goes on after the first read of a read of a whole slice, which returned `answer`.
    #[cold]
    #[inline(never)]
    fn read_on(&mut self, answer: io::Result<usize>, out: &mut [u8]) -> io::Result<()>
        requires some { 0 < length out.old }
        ensures exact { (s : Buffered R P) (was : List ℕ) → OneRead R.remaining P.rules s was answer out.old self.old
            → ReadsExactly R.remaining P.rules s was result out.new self.new }
    {
        fill_on(answer, self, out)
    }

    // A read of a whole slice where fewer bytes are buffered, or the slice is empty.
    #[cold]
    #[inline(never)]
    fn read_rest(&mut self, out: &mut [u8]) -> io::Result<()>
        ensures exact { ReadsExactly R.remaining P.rules self.old out.old result out.new self.new }
    {
        if out.is_empty() {
            let _ = &self.buf;
            return Ok(());
        }
        let answer = self.read(out);
        self.read_on(answer, out)
    }

    #[inline(always)]
    pub(super) fn read_rest_apart(&mut self, out: &mut [u8]) -> io::Result<()>
        ensures exact { ReadsExactly R.remaining P.rules self.old out.old result out.new self.new }
    {
        self.read_rest(out)
    }

    // A read of a whole slice after the policy ordered a read over bytes that suffice.
    #[cold]
    #[inline(never)]
    fn read_ordered(&mut self, out: &mut [u8]) -> io::Result<()>
        requires some { 0 < length out.old }
        ensures exact { (s : Buffered R P) → AskedRead P.rules read_now s self.old → 0 < length s.block.bytes
            → ReadsExactly R.remaining P.rules s out.old result out.new self.new }
    {
        if self.buf.usable_space() > 0 {
            let answer = self.read_slowly(out);
            return self.read_on(answer, out);
        }
        let n = self.hand_out(out);
        self.read_on(Ok(n), out)
    }

    #[inline(always)]
    pub(super) fn read_ordered_apart(&mut self, out: &mut [u8]) -> io::Result<()>
        requires some { 0 < length out.old }
        ensures exact { (s : Buffered R P) → AskedRead P.rules read_now s self.old → 0 < length s.block.bytes
            → ReadsExactly R.remaining P.rules s out.old result out.new self.new }
    {
        self.read_ordered(out)
    }

    // The policy returned this error to the first question of a read of a whole slice.
    #[inline(always)]
    pub(super) fn read_on_apart(&mut self, e: io::Error, out: &mut [u8]) -> io::Result<()>
        requires some { 0 < length out.old }
        ensures exact { (s : Buffered R P) → OneRead R.remaining P.rules s out.old (Err e) out.old self.old
            → ReadsExactly R.remaining P.rules s out.old result out.new self.new }
    {
        self.read_on(Err(e), out)
    }
}

impl<R: TellRead, P: ReaderPolicy> FillSlice for BufReader<R, P> {
    ghost reads = { OneRead R.remaining P.rules };

    ghost handed = { HandedFront R.remaining P.rules };

    #[inline(always)]
    fn read_once(&mut self, out: &mut [u8]) -> io::Result<usize>
        ensures bound { ReadsAtMost result out.new }
        ensures read { OneRead R.remaining P.rules self.old out.old result out.new self.new }
    {
        let _ = &self.buf;
        self.read(out)
    }

    ghost tells = { OneRead-tells R.remaining P.rules };

    ghost joins = { HandedFront-joins R.remaining P.rules };
}
