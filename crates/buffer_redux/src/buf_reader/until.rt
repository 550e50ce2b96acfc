//! Calls that go on up to a byte.
ghost use Rattle.std.specs.Prelude.{◌≡◌, ℕ, List, [], ◌+◌, ◌<◌, ◌≤◌, ◌++◌, length, take, drop, IfErr, IfNone, IfOk, IfSome, OnErr, OnOk, vec_capacity, ⊤};
ghost use Rattle.std.specs.Io.BufRead.{take_through};
ghost use Rattle.std.specs.IoError.{error_kind};
ghost use Rattle.std.specs.declared.io.ErrorKind.TheVariants.{OutOfMemory};
ghost use Rattle.buffer_redux.specs.BufReader.{ReadsInOrder};
ghost use Rattle.buffer_redux.specs.FillRetried.{FillRetried, OneFill};
ghost use Rattle.buffer_redux.specs.ReadAll.{HandedFront};
ghost use Rattle.buffer_redux.specs.ReadUntil.{AppendsFirst, DropsFirst, FilledOrFull, FirstAt, Lacks, ReadsUntil, SkipsUntil};
ghost use Rattle.buffer_redux.specs.Remaining.{reader_remaining};

use crate::buf_reader::BufReader;
use crate::buf_reader::sink::Tally;
use crate::policy::ReaderPolicy;
use memchr::memchr;
use redux_buffer::tell::TellRead;
use redux_buffer::{Attempt, retried};
use std::alloc::Allocator;
use std::io;
use std::io::BufRead;

impl<R: TellRead, P: ReaderPolicy> BufReader<R, P> {
    /// Appends to `out` the bytes up to the first `byte`, with it, or up to the end of the stream, and returns how many those
    /// are. Where `byte` is buffered, the policy isn't asked, and neither is the reader.
    ///
    /// A fill that was interrupted is made again, 64 times in a row; any other fault is returned. Whatever is returned, what
    /// was appended is what was handed out: where memory is refused, the bytes that it was for stay buffered.
    #[inline(always)]
    pub fn read_until<A: Allocator>(&mut self, byte: u8, out: &mut Vec<u8, A>) -> io::Result<usize>
        ensures appended { (handed : List ℕ) × (out.new.items ≡ out.old.items ++ handed)
            × ReadsInOrder self.old handed self.new × IfOk result (λ n. n ≡ length handed) }
        ensures bytes { OnOk result (IfSome (reader_remaining R.remaining P.rules self.old)
            (λ xs. out.new.items ≡ out.old.items ++ take_through byte xs)) }
        // Such is the last fill's, so the stream's or the policy's; or there was no room.
        ensures full { IfErr result (λ e. error_kind e ≡ OutOfMemory → FilledOrFull (λ left. left ≡ []) R.remaining P.rules byte
            self.old (vec_capacity out.old) e out.new.items self.new) }
        ensures until { ReadsUntil R.remaining P.rules byte self.old out.old.items result out.new.items self.new }
    {
        match first_of(byte, self.buf.buf()) {
            Some(at) => {
                let n = at + 1;
                self.append_first(n, out)?;
                Ok(n)
            }
            None => self.read_until_apart(byte, out),
        }
    }

    #[inline(always)]
    fn read_until_apart<A: Allocator>(
        &mut self,
        byte: u8,
        out: &mut Vec<u8, A>,
    ) -> io::Result<usize>
        requires plain { Lacks byte self.old.block.bytes }
        ensures full { IfErr result (λ e. error_kind e ≡ OutOfMemory → FilledOrFull (λ left. left ≡ []) R.remaining P.rules byte
            self.old (vec_capacity out.old) e out.new.items self.new) }
        ensures until { ReadsUntil R.remaining P.rules byte self.old out.old.items result out.new.items self.new }
    {
        self.read_until_slowly(byte, out)
    }

    // The same where the byte is not buffered.
    #[cold]
    #[inline(never)]
    fn read_until_slowly<A: Allocator>(
        &mut self,
        byte: u8,
        out: &mut Vec<u8, A>,
    ) -> io::Result<usize>
        requires plain { Lacks byte self.old.block.bytes }
        ensures full { IfErr result (λ e. error_kind e ≡ OutOfMemory → FilledOrFull (λ left. left ≡ []) R.remaining P.rules byte
            self.old (vec_capacity out.old) e out.new.items self.new) }
        ensures until { ReadsUntil R.remaining P.rules byte self.old out.old.items result out.new.items self.new }
    {
        let start = out.len();
        self.hand_until(byte, out)?;
        Ok(out.len() - start)
    }

    /// Drops the bytes up to the first `byte`, with it, or up to the end of the stream, and returns how many those are.
    /// Where `byte` is buffered, the policy isn't asked, and neither is the reader.
    ///
    /// A fill that was interrupted is made again, 64 times in a row; any other fault is returned. `TimedOut` is returned before
    /// bytes that a `usize` doesn't count, which stay buffered. After an `Err` the bytes before it are gone.
    #[inline(always)]
    pub fn skip_until(&mut self, byte: u8) -> io::Result<usize>
        ensures dropped { (handed : List ℕ) × ReadsInOrder self.old handed self.new × IfOk result (λ n. n ≡ length handed) }
        ensures count { IfOk result (λ n. IfSome (reader_remaining R.remaining P.rules self.old)
            (λ xs. n ≡ length (take_through byte xs))) }
        ensures until { SkipsUntil R.remaining P.rules byte self.old result self.new }
    {
        match first_of(byte, self.buf.buf()) {
            Some(at) => {
                let n = at + 1;
                self.consume_exact(n);
                Ok(n)
            }
            None => self.skip_until_apart(byte),
        }
    }

    #[inline(always)]
    fn skip_until_apart(&mut self, byte: u8) -> io::Result<usize>
        requires plain { Lacks byte self.old.block.bytes }
        ensures until { SkipsUntil R.remaining P.rules byte self.old result self.new }
    {
        self.skip_until_slowly(byte)
    }

    // The same where the byte is not buffered.
    #[cold]
    #[inline(never)]
    fn skip_until_slowly(&mut self, byte: u8) -> io::Result<usize>
        requires plain { Lacks byte self.old.block.bytes }
        ensures until { SkipsUntil R.remaining P.rules byte self.old result self.new }
    {
        let mut tally = Tally { total: 0 };
        self.hand_until(byte, &mut tally)?;
        Ok(tally.total)
    }

    // Appends the first `n` bytes that are buffered to `out`, and drops them.
    #[inline(always)]
    fn append_first<A: Allocator>(&mut self, n: usize, out: &mut Vec<u8, A>) -> io::Result<()>
        requires within { n ≤ length self.old.block.bytes }
        requires some { 0 < n }
        ensures appends { AppendsFirst R.remaining P.rules n self.old out.old.items result out.new.items self.new }
        ensures full { OnErr result (vec_capacity out.old < length out.new.items + n) }
    {
        let shown = self.buf.buf();
        out.extend_from_slice(&shown[..n])?;
        self.consume_exact(n);
        Ok(())
    }

    // Drops the first `n` bytes that are buffered.
    #[inline(always)]
    pub(super) fn drop_first(&mut self, n: usize)
        requires within { n ≤ length self.old.block.bytes }
        ensures front { HandedFront R.remaining P.rules self.old (take n self.old.block.bytes) self.new }
        ensures dropped { DropsFirst P.rules n self.old self.new }
        ensures left { self.new.block.bytes ≡ drop n self.old.block.bytes }
    {
        if n == 0 {
            let _ = &self.buf;
            return;
        }
        self.consume_exact(n);
    }

    // Fills, and again where that was interrupted.
    pub(super) fn fill_retried(&mut self) -> io::Result<()>
        ensures retried { FillRetried R.remaining P.rules self.old result self.new }
    {
        retried(&Filling, self)
    }
}

// A fill.
#[derive(Clone, Copy)]
struct Filling;

impl<R: TellRead, P: ReaderPolicy> Attempt<BufReader<R, P>> for Filling {
    type Answer = ();

    ghost may = { λ _ _. ⊤ };

    ghost step = { λ _. OneFill R.remaining P.rules };

    fn attempt(&self, reader: &mut BufReader<R, P>) -> io::Result<()>
        ensures in_order { ReadsInOrder reader.old [] reader.new }
        ensures step { OneFill R.remaining P.rules reader.old result reader.new }
    {
        reader.fill()
    }

    ghost again = { λ _ _ _ _ _ _. tt };
}

// Where the byte stands first.
#[inline(always)]
pub(super) fn first_of(byte: u8, bytes: &[u8]) -> Option<usize>
    ensures found { IfSome result (λ at. FirstAt byte at bytes.now) }
    ensures none { IfNone result (Lacks byte bytes.now) }
{
    match memchr(byte, bytes) {
        Some(at) => Some(at),
        None => None,
    }
}
