//! The parts of a write behind the first question of the policy, and further writes of what is left.
ghost use Rattle.std.specs.Prelude.{◌<◌, Err, length, ⊤};
ghost use Rattle.std.specs.Io.{WritesAtMost};
ghost use Rattle.redux_buffer.specs.Block.{IsBlock};
ghost use Rattle.buffer_redux.specs.Buffered.{Buffered, InnerWent};
ghost use Rattle.buffer_redux.specs.BufWriter.{WriteRows, Writes};
ghost use Rattle.buffer_redux.specs.WriteAll.{AskedFirst, OneWrite, WritesAll};

use crate::all_bytes::progress;
use crate::buf_writer::BufWriter;
use crate::policy::{FlushAmt, WriterPolicy};
use redux_buffer::tell::TellWrite;
use redux_buffer::{Attempt, retried, retried_behind};
use std::io;
use std::io::{ErrorKind, Write};

impl<W: TellWrite, P: WriterPolicy> BufWriter<W, P> {
    // All of a write but the first question: flushes the amount, takes the bytes in and asks the policy once more.
    #[inline(always)]
    fn write_slowly(&mut self, first: usize, bytes: &[u8]) -> io::Result<usize>
        ensures bound { WritesAtMost result bytes.now }
        ensures steps { (s : Buffered W P) → AskedFirst W.log P.rules (length bytes.now) first s self.old
            → Writes P.rules s bytes.now result self.new × WriteRows W.log W.trace P.rules s bytes.now result self.new }
        ensures whole { IsBlock self.new.block }
        ensures trace { InnerWent W.log W.trace self.old self.new }
    {
        self.flush_amount(first)?;
        let written = self.append_or_write(bytes)?;
        self.flush_after();
        Ok(written)
    }

    // The same apart, so that a write that sends nothing first and fits is short in its caller.
    #[cold]
    #[inline(never)]
    fn write_cold(&mut self, first: usize, bytes: &[u8]) -> io::Result<usize>
        ensures bound { WritesAtMost result bytes.now }
        ensures steps { (s : Buffered W P) → AskedFirst W.log P.rules (length bytes.now) first s self.old
            → Writes P.rules s bytes.now result self.new × WriteRows W.log W.trace P.rules s bytes.now result self.new }
        ensures whole { IsBlock self.new.block }
        ensures trace { InnerWent W.log W.trace self.old self.new }
    {
        self.write_slowly(first, bytes)
    }

    // All of a write that may not fit behind what is buffered.
    #[cold]
    #[inline(never)]
    fn write_asking(&mut self, bytes: &[u8]) -> io::Result<usize>
        ensures bound { WritesAtMost result bytes.now }
        ensures steps { Writes P.rules self.old bytes.now result self.new
            × WriteRows W.log W.trace P.rules self.old bytes.now result self.new }
        ensures whole { IsBlock self.new.block }
        ensures trace { InnerWent W.log W.trace self.old self.new }
    {
        let FlushAmt(first) = self.policy.before_write(&mut self.buf, bytes.len())?;
        self.write_slowly(first, bytes)
    }

    // Answers by the parts, as `write_apart` does: a whole answer is loaded in other widths than it was stored in, and waits
    // until the stores are done.
    #[inline(always)]
    pub(super) fn write_asking_apart(&mut self, bytes: &[u8]) -> io::Result<usize>
        ensures bound { WritesAtMost result bytes.now }
        ensures steps { Writes P.rules self.old bytes.now result self.new
            × WriteRows W.log W.trace P.rules self.old bytes.now result self.new }
        ensures whole { IsBlock self.new.block }
        ensures trace { InnerWent W.log W.trace self.old self.new }
    {
        match self.write_asking(bytes) {
            Ok(n) => Ok(n),
            Err(e) => Err(e),
        }
    }

    // Goes on in `write_cold`. The kit's compiler clears the answer of a call, here 96 bytes, where the function that makes
    // the call begins; of a call made in here, which is inlined, that is behind the tests of `write`.
    #[inline(always)]
    pub(super) fn write_apart(&mut self, first: usize, bytes: &[u8]) -> io::Result<usize>
        ensures bound { WritesAtMost result bytes.now }
        ensures steps { (s : Buffered W P) → AskedFirst W.log P.rules (length bytes.now) first s self.old
            → Writes P.rules s bytes.now result self.new × WriteRows W.log W.trace P.rules s bytes.now result self.new }
        ensures whole { IsBlock self.new.block }
        ensures trace { InnerWent W.log W.trace self.old self.new }
    {
        match self.write_cold(first, bytes) {
            Ok(n) => Ok(n),
            Err(e) => Err(e),
        }
    }

    // Goes on after the first write of a write of all bytes, which returned `answer`: makes it again where it was interrupted,
    // and writes what is left where it was short.
    #[cold]
    #[inline(never)]
    fn write_on(&mut self, answer: io::Result<usize>, bytes: &[u8]) -> io::Result<()>
        requires some { 0 < length bytes.now }
        ensures all { (s : Buffered W P) → OneWrite W.log W.trace P.rules bytes.now s answer self.old
            → WritesAll W.log W.trace P.rules s bytes.now result self.new }
    {
        let first = retried_behind(answer, &Rest { bytes }, self);
        let mut at = progress(first, ErrorKind::WriteZero)?;
        while at < bytes.len() {
            let rest = Rest {
                bytes: &bytes[at..],
            };
            at += progress(retried(&rest, self), ErrorKind::WriteZero)?;
        }
        Ok(())
    }

    // All of a write of all bytes but the first question. It stands apart, as `write_cold` does.
    #[cold]
    #[inline(never)]
    fn write_rest(&mut self, first: usize, bytes: &[u8]) -> io::Result<()>
        requires some { 0 < length bytes.now }
        ensures all { (s : Buffered W P) → AskedFirst W.log P.rules (length bytes.now) first s self.old
            → WritesAll W.log W.trace P.rules s bytes.now result self.new }
    {
        let answer = self.write_slowly(first, bytes);
        self.write_on(answer, bytes)
    }

    // These are inlined, as `write_apart` is.
    #[inline(always)]
    pub(super) fn write_rest_apart(&mut self, first: usize, bytes: &[u8]) -> io::Result<()>
        requires some { 0 < length bytes.now }
        ensures all { (s : Buffered W P) → AskedFirst W.log P.rules (length bytes.now) first s self.old
            → WritesAll W.log W.trace P.rules s bytes.now result self.new }
    {
        self.write_rest(first, bytes)
    }

    // A write of all bytes that may not fit behind those that are buffered.
    #[cold]
    #[inline(never)]
    fn write_large(&mut self, bytes: &[u8]) -> io::Result<()>
        requires some { 0 < length bytes.now }
        ensures all { WritesAll W.log W.trace P.rules self.old bytes.now result self.new }
    {
        let _ = &self.buf;
        let answer = self.write_asking(bytes);
        self.write_on(answer, bytes)
    }

    #[inline(always)]
    pub(super) fn write_large_apart(&mut self, bytes: &[u8]) -> io::Result<()>
        requires some { 0 < length bytes.now }
        ensures all { WritesAll W.log W.trace P.rules self.old bytes.now result self.new }
    {
        self.write_large(bytes)
    }

    #[inline(always)]
    pub(super) fn write_on_apart(&mut self, e: io::Error, bytes: &[u8]) -> io::Result<()>
        requires some { 0 < length bytes.now }
        ensures all { (s : Buffered W P) → OneWrite W.log W.trace P.rules bytes.now s (Err e) self.old
            → WritesAll W.log W.trace P.rules s bytes.now result self.new }
    {
        self.write_on(Err(e), bytes)
    }
}

// A write of what is left.
#[derive(Clone, Copy)]
struct Rest<'a> {
    bytes: &'a [u8],
}

impl<W: TellWrite, P: WriterPolicy> Attempt<BufWriter<W, P>> for Rest<'_> {
    type Answer = usize;

    ghost may = { λ _ _. ⊤ };

    ghost step = { λ rest. OneWrite W.log W.trace P.rules rest.bytes.now };

    #[inline(always)]
    fn attempt(&self, writer: &mut BufWriter<W, P>) -> io::Result<usize>
        ensures bound { WritesAtMost result self.now.bytes.now }
        ensures step { OneWrite W.log W.trace P.rules self.now.bytes.now writer.old result writer.new }
    {
        let _ = &writer.buf;
        writer.write(self.bytes)
    }

    ghost again = { λ _ _ _ _ _ _. tt };
}
