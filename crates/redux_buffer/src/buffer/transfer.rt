//! What a buffer reads from and writes to a stream.
ghost use Rattle.std.specs.Prelude.{◌≡◌, ℕ, ◌+◌, ◌<◌, ◌≤◌, ◌⊎◌, ◌++◌, length, min, take, drop, Ok, IfOk, IfErr, MatchResult, OnOk, OnErr, ⊤};
ghost use Rattle.std.specs.Io.{WritesAtMost};
ghost use Rattle.std.specs.Io.KnownBytes.{IsAtEnd};
ghost use Rattle.redux_buffer.specs.Block.{IsBlock, LeavesBytes, OnlyRingMoves, usable};
ghost use Rattle.redux_buffer.specs.GivesRemaining.{GivesRemaining};
ghost use Rattle.redux_buffer.specs.Retried.{Retried};
ghost use Rattle.redux_buffer.specs.Transfer.{Offers, ReadsFrom, WritesTo, WritesRetried, Sends, FailedRow};

use crate::buffer::Buffer;
use crate::retry::{Attempt, retried};
use crate::tell::{TellRead, TellWrite};
use std::io;
use std::io::ErrorKind;

impl Buffer {
    /// Reads once, into all the space that can be written, and returns how many bytes came. Returns `Ok(0)` and doesn't
    /// ask the reader where there is no such space. A fault of the reader leaves the bytes.
    pub fn read_from<R: TellRead>(&mut self, rdr: &mut R) -> io::Result<usize>
        ensures came { IfOk result (λ n. (take (length self.old.bytes) self.new.bytes ≡ self.old.bytes)
            × (length self.new.bytes ≡ length self.old.bytes + n)) }
        ensures not_asked { usable self.old ≡ 0 → rdr.new ≡ rdr.old }
        ensures err { OnErr result (LeavesBytes self.old self.new) }
        ensures end { result ≡ Ok 0 → 0 < usable self.old → IsAtEnd (R.remaining rdr.new) }
        ensures known { GivesRemaining (R.remaining rdr.old) (R.log rdr.old).reads
            (R.remaining rdr.new) (R.log rdr.new).reads }
        ensures read { ReadsFrom self.old (R.log rdr.old) result self.new (R.log rdr.new) }
        ensures whole { IsBlock self.new }
    {
        if self.usable_space() == 0 {
            return Ok(0);
        }
        let n = rdr.read_told(self.imp.write_buf())?;
        self.imp.bytes_written(n);
        Ok(n)
    }

    /// Writes all bytes once, drops those that the writer took, and returns how many those are. Returns `Ok(0)` and
    /// doesn't ask the writer where the buffer is empty. A fault of the writer changes nothing.
    pub fn write_to<W: TellWrite>(&mut self, wrt: &mut W) -> io::Result<usize>
        ensures left { MatchResult result (λ n. self.new.bytes ≡ drop n self.old.bytes)
            (λ _. self.new.bytes ≡ self.old.bytes) }
        ensures not_asked { length self.old.bytes ≡ 0 → wrt.new ≡ wrt.old }
        ensures moved { OnlyRingMoves self.old self.new }
        ensures trace { W.trace wrt.old wrt.new }
        ensures wrote { WritesTo self.old (W.log wrt.old) result self.new (W.log wrt.new) }
        ensures whole { IsBlock self.new }
    {
        if self.is_empty() {
            return Ok(0);
        }
        let n = wrt.write_told(self.buf())?;
        self.consume(n);
        Ok(n)
    }

    /// Writes the first `max` bytes, or all where there are fewer, by as many writes as it takes. Each write offers all
    /// that is left of them.
    ///
    /// 64 `Interrupted` in a row are retried, and the 65th is returned; a write that takes bytes ends the row. A write
    /// that takes nothing is returned as `WriteZero`. At any fault the buffer has lost just what the writer took.
    #[inline(never)]
    pub fn write_max<W: TellWrite>(&mut self, max: usize, wrt: &mut W) -> io::Result<()>
        ensures went { (n : ℕ) × (n ≤ max) × (self.new.bytes ≡ drop n self.old.bytes)
            × ((W.log wrt.new).writes.received ≡ (W.log wrt.old).writes.received ++ take n self.old.bytes)
            × OnOk result (n ≡ min max (length self.old.bytes)) }
        ensures idle { max ≡ 0 ⊎ (length self.old.bytes ≡ 0)
            → (result ≡ Ok tt) × (wrt.new ≡ wrt.old) × (self.new ≡ self.old) }
        ensures trace { W.trace wrt.old wrt.new }
        ensures sent { Sends max self.old (W.log wrt.old) result self.new (W.log wrt.new) }
        ensures row { IfErr result (λ e. FailedRow W.log W.trace e wrt.old wrt.new) }
        ensures whole { IsBlock self.new }
    {
        let mut left = max.min(self.len());
        while left > 0 {
            // By a `match`, since a `?` copies the answer, which has 96 bytes.
            match write_retried(wrt, &self.buf()[..left]) {
                Ok(0) => return Err(io::Error::from(ErrorKind::WriteZero)),
                Ok(n) => {
                    self.consume(n);
                    left -= n;
                }
                Err(e) => return Err(e),
            }
        }
        Ok(())
    }

    /// Writes all bytes, as [`write_max`](Buffer::write_max) does.
    pub fn write_all<W: TellWrite>(&mut self, wrt: &mut W) -> io::Result<()>
        ensures went { (n : ℕ) × (self.new.bytes ≡ drop n self.old.bytes)
            × ((W.log wrt.new).writes.received ≡ (W.log wrt.old).writes.received ++ take n self.old.bytes)
            × OnOk result (n ≡ length self.old.bytes) }
        ensures idle { length self.old.bytes ≡ 0
            → (result ≡ Ok tt) × (wrt.new ≡ wrt.old) × (self.new ≡ self.old) }
        ensures trace { W.trace wrt.old wrt.new }
        ensures sent { Sends (length self.old.bytes) self.old (W.log wrt.old) result self.new (W.log wrt.new) }
        ensures row { IfErr result (λ e. FailedRow W.log W.trace e wrt.old wrt.new) }
        ensures whole { IsBlock self.new }
    {
        let len = self.len();
        self.write_max(len, wrt)
    }
}

// A write of these bytes.
#[derive(Clone, Copy)]
struct Offer<'a> {
    bytes: &'a [u8],
}

impl<W: TellWrite> Attempt<W> for Offer<'_> {
    type Answer = usize;

    ghost may = { λ _ _. ⊤ };

    ghost step = { λ offer. Offers W.log W.trace offer.bytes.now };

    #[inline(always)]
    fn attempt(&self, wrt: &mut W) -> io::Result<usize>
        ensures bound { WritesAtMost result self.now.bytes.now }
        ensures step { Offers W.log W.trace self.now.bytes.now wrt.old result wrt.new }
    {
        wrt.write_told(self.bytes)
    }

    ghost again = { λ _ _ _ _ _ _. tt };
}

// One write, asked again where it was interrupted.
#[inline(always)]
fn write_retried<W: TellWrite>(wrt: &mut W, bytes: &[u8]) -> io::Result<usize>
    ensures bound { WritesAtMost result bytes.now }
    ensures retried { Retried (Offers W.log W.trace bytes.now) wrt.old result wrt.new }
    ensures wrote { WritesRetried bytes.now (W.log wrt.old) result (W.log wrt.new) }
    ensures trace { W.trace wrt.old wrt.new }
{
    retried(&Offer { bytes }, wrt)
}
