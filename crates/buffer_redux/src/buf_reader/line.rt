//! A line of text.
ghost use Rattle.std.specs.Prelude.{◌≡◌, ◌+◌, ◌*◌, ◌<◌, ◌≤◌, ◌++◌, ◌⊎◌, ℕ, List, [], length, drop, Ok, Err, IfErr, IfNone, IfOk, IfSome, IsUtf8, MatchResult, OnOk, string_bytes, string_capacity};
ghost use Rattle.std.proofs.Common.{subst, sym};
ghost use Rattle.std.specs.Io.BufRead.{take_through};
ghost use Rattle.std.specs.IoError.{error_kind};
ghost use Rattle.std.specs.declared.io.ErrorKind.TheVariants.{InvalidData, OutOfMemory};
ghost use Rattle.redux_buffer.specs.Block.{IsBlock, capacity_for, usable};
ghost use Rattle.redux_buffer.specs.GrowError.{GrowthRefused};
ghost use Rattle.buffer_redux.specs.BufReader.{MovesFor, RanDry, ReadsInOrder};
ghost use Rattle.buffer_redux.specs.Buffered.{with_block};
ghost use Rattle.buffer_redux.specs.ReadAll.{HandedFront};
ghost use Rattle.buffer_redux.specs.ReadBehind.{FillsOn, FillsOrReads, ReadsBehind};
ghost use Rattle.buffer_redux.specs.ReadLine.{AppendsLine, IsPart, NeverUtf8, ReadsLine};
ghost use Rattle.buffer_redux.specs.ReadUntil.{FilledOrFull, Lacks, PassesAndFills};
ghost use Rattle.buffer_redux.specs.Remaining.{reader_remaining};

use crate::buf_reader::BufReader;
use crate::buf_reader::until::first_of;
use crate::policy::ReaderPolicy;
use redux_buffer::tell::TellRead;
use redux_buffer::{Attempt, GrowError, retried};
use std::alloc::Allocator;
use std::io::{BufRead, ErrorKind};
use std::{io, str};

impl<R: TellRead, P: ReaderPolicy> BufReader<R, P> {
    /// Appends to `out` the next line with its line feed, or what is left of the stream, and returns how many bytes those
    /// are. Where the line is buffered, the policy isn't asked, and neither is the reader.
    ///
    /// Bytes that are no UTF-8 are handed out to nobody: they are `InvalidData`, and stay buffered, as does what follows them,
    /// for [`read_until`](BufReader::read_until) or [`skip_until`](BufReader::skip_until). So does a character that the
    /// stream ends within. Of a line that isn't buffered yet the text before them may have been appended.
    ///
    /// A fill that was interrupted is made again, 64 times in a row; any other fault is returned. Whatever is returned, what
    /// was appended is what was handed out: where memory is refused, the bytes that it was for stay buffered. So does a part of a
    /// character that a fault came into: the call that is made again goes on with it.
    ///
    /// Behind a part of a character it reads past the policy. Where that takes more than half of a plain buffer, which has
    /// fewer than 6 bytes then, the buffer grows; `InvalidInput` says that its limit forbids that, `OutOfMemory` that memory was
    /// refused, and the part stays buffered.
    #[inline(always)]
    pub fn read_line<A: Allocator>(&mut self, out: &mut String<A>) -> io::Result<usize>
        ensures appended { (handed : List ℕ) × (string_bytes out.new ≡ string_bytes out.old ++ handed)
            × ReadsInOrder self.old handed self.new × IfOk result (λ n. n ≡ length handed) }
        ensures bytes { OnOk result (IfSome (reader_remaining R.remaining P.rules self.old)
            (λ xs. string_bytes out.new ≡ string_bytes out.old ++ take_through 10 xs)) }
        // Such is the last fill's or read's, so the stream's or the policy's; or the line is no UTF-8, where std knows it.
        ensures invalid { IfErr result (λ e. error_kind e ≡ InvalidData → ((handed : List ℕ) × PassesAndFills R.remaining
            P.rules (FillsOn IsPart R.remaining P.rules) 10 self.old handed (Err e) self.new)
            ⊎ IfSome (reader_remaining R.remaining P.rules self.old) (λ xs. ¬ (IsUtf8 (take_through 10 xs)))) }
        // Such is the last fill's or read's; or there was no room.
        ensures full { IfErr result (λ e. error_kind e ≡ OutOfMemory → FilledOrFull IsPart R.remaining P.rules 10 self.old
            (string_capacity out.old) e (string_bytes out.new) self.new) }
        ensures line { ReadsLine R.remaining P.rules self.old (string_bytes out.old) result (string_bytes out.new) self.new }
    {
        match first_of(b'\n', self.buf.buf()) {
            Some(at) => {
                let n = self.append_line(at + 1, out)?;
                Ok(n)
            }
            None => self.read_line_apart(out),
        }
    }

    #[inline(always)]
    fn read_line_apart<A: Allocator>(&mut self, out: &mut String<A>) -> io::Result<usize>
        requires plain { Lacks 10 self.old.block.bytes }
        ensures full { IfErr result (λ e. error_kind e ≡ OutOfMemory → FilledOrFull IsPart R.remaining P.rules 10 self.old
            (string_capacity out.old) e (string_bytes out.new) self.new) }
        ensures line { ReadsLine R.remaining P.rules self.old (string_bytes out.old) result (string_bytes out.new) self.new }
    {
        self.read_line_slowly(out)
    }

    // The same where no line feed is buffered.
    #[cold]
    #[inline(never)]
    fn read_line_slowly<A: Allocator>(&mut self, out: &mut String<A>) -> io::Result<usize>
        requires plain { Lacks 10 self.old.block.bytes }
        ensures full { IfErr result (λ e. error_kind e ≡ OutOfMemory → FilledOrFull IsPart R.remaining P.rules 10 self.old
            (string_capacity out.old) e (string_bytes out.new) self.new) }
        ensures line { ReadsLine R.remaining P.rules self.old (string_bytes out.old) result (string_bytes out.new) self.new }
    {
        let start = out.len();
        self.hand_until(b'\n', out)?;
        Ok(out.len() - start)
    }

    // Appends the first `n` bytes that are buffered to `out`, if they are a text, drops them, and returns `n`.
    #[inline(always)]
    fn append_line<A: Allocator>(&mut self, n: usize, out: &mut String<A>) -> io::Result<usize>
        requires within { n ≤ length self.old.block.bytes }
        requires some { 0 < n }
        ensures appends { AppendsLine R.remaining P.rules n self.old (string_bytes out.old) result
            (string_bytes out.new) self.new }
        ensures full { IfErr result (λ e. error_kind e ≡ OutOfMemory
            → string_capacity out.old < length (string_bytes out.new) + n) }
        ensures count { IfOk result (λ count. count ≡ n) }
    {
        let shown = self.buf.buf();
        let Ok(text) = str::from_utf8(&shown[..n]) else {
            return Err(io::Error::from(ErrorKind::InvalidData));
        };
        // The same as `n`, which needn't be kept then.
        let count = text.len();
        out.push_str(text)?;
        self.consume_exact(count);
        Ok(count)
    }

    // Fills, or reads on behind what is buffered: there the end of the stream is `InvalidData`.
    pub(super) fn fill_more(&mut self) -> io::Result<()>
        ensures fills { MatchResult result (λ _. FillsOrReads R.remaining P.rules self.old (Ok tt) self.new
            × (0 < length self.old.block.bytes → length self.old.block.bytes < length self.new.block.bytes))
            (λ e. FillsOrReads R.remaining P.rules self.old (Err e) self.new
            ⊎ ((error_kind e ≡ InvalidData) × FillsOrReads R.remaining P.rules self.old (Ok tt) self.new
            × (0 < length self.old.block.bytes) × (self.new.block.bytes ≡ self.old.block.bytes)
            × RanDry self.old self.new)) }
    {
        let len = self.buf.len();
        if len == 0 {
            return self.fill_retried();
        }
        retried(&ReadingBehind, self)?;
        if self.buf.len() == len {
            return Err(io::Error::from(ErrorKind::InvalidData));
        }
        Ok(())
    }

    // Reads once past the policy, behind what is buffered.
    fn read_behind(&mut self) -> io::Result<()>
        requires some { 0 < length self.old.block.bytes }
        ensures reads { ReadsBehind R.remaining P.rules self.old result self.new }
    {
        self.make_space()?;
        self.read_into_buf()?;
        Ok(())
    }

    // Sees to usable space: bytes go to the front of a plain buffer where that is free to hold them, so that each was given
    // since some other was moved; else it grows.
    fn make_space(&mut self) -> Result<(), GrowError>
        requires some { 0 < length self.old.block.bytes }
        ensures front { OnOk result (HandedFront R.remaining P.rules self.old [] self.new) }
        ensures room { OnOk result (0 < usable self.new.block) }
        ensures others { self.new ≡ with_block self.old self.new.block }
        ensures bytes { self.new.block.bytes ≡ self.old.block.bytes }
        ensures limit { self.new.block.limit ≡ self.old.block.limit }
        ensures capacity { 2 * length self.old.block.bytes ≤ self.old.block.capacity
            → self.new.block.capacity ≡ self.old.block.capacity }
        ensures grown { (self.new.block.capacity ≡ self.old.block.capacity)
            ⊎ (self.new.block.capacity ≡ capacity_for self.old.block 1) }
        ensures consumed { self.new.block.consumed ≡ self.old.block.consumed }
        ensures moves { OnOk result (MovesFor 1 self.old.block self.new.block) }
        ensures refused { IfErr result (λ refusal. (self.new ≡ self.old) × GrowthRefused 1 self.old.block refusal
            × (self.old.block.capacity < 2 * length self.old.block.bytes)) }
        ensures whole { IsBlock self.new.block }
    {
        if self.buf.usable_space() > 0 {
            return Ok(());
        }
        if self.buf.len() <= self.buf.capacity() / 2 {
            self.make_room();
            return Ok(());
        }
        self.reserve(1)
    }
}

// A read past the policy, behind what is buffered.
#[derive(Clone, Copy)]
struct ReadingBehind;

impl<R: TellRead, P: ReaderPolicy> Attempt<BufReader<R, P>> for ReadingBehind {
    type Answer = ();

    ghost may = { λ _ s. 0 < length s.block.bytes };

    ghost step = { λ _. ReadsBehind R.remaining P.rules };

    fn attempt(&self, reader: &mut BufReader<R, P>) -> io::Result<()>
        requires may { 0 < length reader.old.block.bytes }
        ensures in_order { ReadsInOrder reader.old [] reader.new }
        ensures step { ReadsBehind R.remaining P.rules reader.old result reader.new }
    {
        reader.read_behind()
    }

    ghost again = { λ _ s t e some went. subst (λ l. 0 < length l) (sym went.ended.0) some };
}

// The text that the bytes begin with, up to a character that they end within; `None` where they are no UTF-8, whatever follows
// them.
pub(super) fn text_in_front(bytes: &[u8]) -> Option<&str>
    ensures front { IfSome result (λ text. (text.now ++ drop (length text.now) bytes.now ≡ bytes.now)
        × IsUtf8 text.now × IsPart (drop (length text.now) bytes.now)) }
    ensures none { IfNone result (NeverUtf8 bytes.now) }
{
    match str::from_utf8(bytes) {
        Ok(text) => Some(text),
        Err(e) => match e.error_len() {
            Some(_) => None,
            None => match str::from_utf8(&bytes[..e.valid_up_to()]) {
                Ok(text) => Some(text),
                Err(_) => None,
            },
        },
    }
}
