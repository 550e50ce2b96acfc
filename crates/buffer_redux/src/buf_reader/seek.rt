//! Seeks of the buffered reader.
ghost use Rattle.std.specs.Prelude.{◌≡◌, ℕ, pos, ◌+◌, ◌^◌, ◌<◌, ◌≤◌, length, IfSome, IfOk, MatchResult, Result, Ok, Err};
ghost use Rattle.std.specs.Io.KnownBytes.{Keeps};
ghost use Rattle.std.specs.IoError.{error_kind};
ghost use Rattle.std.specs.declared.io.Error.{Error};
ghost use Rattle.std.specs.declared.io.ErrorKind.TheVariants.{InvalidData};
ghost use Rattle.std.specs.declared.io.traits.SeekFrom.TheVariants.{Current, Start};
ghost use Rattle.std.specs.Io.Seek.{MovesBy, MovesTo, SeekMoves, StaysAt};
ghost use Rattle.redux_buffer.specs.Block.{IsBlock, ConsumesFirst, OnlyRingMoves};
ghost use Rattle.redux_buffer.specs.StreamLog.{with_fault, SeekTells};
ghost use Rattle.buffer_redux.specs.Seek.{plan_for, reader_position, Seeks, SeeksOnce, SeeksTo, SeekLeaves};
ghost use Rattle.buffer_redux.specs.Sparing.{Spared};
ghost use Rattle.buffer_redux.specs.Buffered.{with_block};

use crate::buf_reader::BufReader;
use redux_buffer::tell::TellSeek;
use std::io;
use std::io::{ErrorKind, Seek, SeekFrom};

/// Which seeks of the inner reader one seek of a [`BufReader`] is.
///
/// ```
/// let plan = seek_plan(SeekFrom::Current(1), 4);
/// assert!(rt; matches!(plan, SeekPlan::One(SeekFrom::Current(-3))));
/// ```
#[derive(Clone, Copy, Debug)]
pub enum SeekPlan {
    /// One seek.
    One(SeekFrom),
    /// A seek by the first offset from where the inner reader is, and one by the second from there.
    Two(i64, i64),
}

/// The plan of a seek to `to` with `len` bytes buffered, which the inner reader is ahead by. An offset from the current
/// position is so many less; where an `i64` has no such number, the inner reader goes back by `len` first.
///
/// `len` is at most 2^62, as is the capacity of every buffer.
pub fn seek_plan(to: SeekFrom, len: usize) -> SeekPlan
    requires { len ≤ 2 ^ 62 }
    ensures { result ≡ plan_for to len }
{
    let SeekFrom::Current(offset) = to else {
        return SeekPlan::One(to);
    };
    let ahead = len as i64;
    match offset.checked_sub(ahead) {
        Some(rest) => SeekPlan::One(SeekFrom::Current(rest)),
        None => SeekPlan::Two(-ahead, offset),
    }
}

impl<R: TellSeek, P> BufReader<R, P> {
    // Empties the buffer where the inner reader sought, and leaves it where that failed.
    fn seek_once(&mut self, to: SeekFrom) -> io::Result<u64>
        ensures moves { SeekMoves (R.stream_position self.old.inner)
            (R.stream_position self.new.inner) (R.stream_bytes self.old.inner) to result }
        ensures bytes { Keeps (R.stream_bytes self.old.inner) (R.stream_bytes self.new.inner) }
        ensures seeks { SeeksOnce R.readies to self.old result self.new }
        ensures whole { IsBlock self.new.block }
    {
        let position = self.inner.seek_told(to)?;
        self.buf.clear();
        Ok(position)
    }

    // A relative seek that leaves the buffer.
    #[cold]
    #[inline(never)]
    fn seek_far(&mut self, offset: i64) -> io::Result<()>
        ensures moves { MovesBy (reader_position R.stream_position self.old)
            (reader_position R.stream_position self.new) offset result }
        ensures bytes { Keeps (R.stream_bytes self.old.inner) (R.stream_bytes self.new.inner) }
        ensures far { SeeksTo R.readies (Current offset) self.old result self.new }
        ensures spared { (keep : ℕ) → Spared keep self.old self.new }
        ensures whole { IsBlock self.new.block }
    {
        self.seek(SeekFrom::Current(offset))?;
        Ok(())
    }

    #[inline(always)]
    fn seek_far_apart(&mut self, offset: i64) -> io::Result<()>
        ensures moves { MovesBy (reader_position R.stream_position self.old)
            (reader_position R.stream_position self.new) offset result }
        ensures bytes { Keeps (R.stream_bytes self.old.inner) (R.stream_bytes self.new.inner) }
        ensures far { SeeksTo R.readies (Current offset) self.old result self.new }
        ensures spared { (keep : ℕ) → Spared keep self.old self.new }
        ensures whole { IsBlock self.new.block }
    {
        self.seek_far(offset)
    }
}

impl<R: TellSeek, P> Seek for BufReader<R, P> {
    ghost stream_position = { reader_position R.stream_position };

    ghost stream_bytes = { λ r. R.stream_bytes r.inner };

    /// Seeks as [`seek_plan`] says, and returns what the last seek returned. The policy is not asked.
    ///
    /// An Ok seek drops the buffered bytes. A fault is returned at once: one of the first seek leaves the buffer, one of
    /// the second leaves it empty.
    fn seek(&mut self, to: SeekFrom) -> io::Result<u64>
        ensures moves { SeekMoves (reader_position R.stream_position self.old)
            (reader_position R.stream_position self.new) (R.stream_bytes self.old.inner) to result }
        ensures bytes { Keeps (R.stream_bytes self.old.inner) (R.stream_bytes self.new.inner) }
        ensures seeks { Seeks R.readies (plan_for to (length self.old.block.bytes)) self.old result self.new }
        ensures leaves { SeekLeaves self.old result self.new }
        ensures spared { (keep : ℕ) → Spared keep self.old self.new }
        ensures caused { self.new.log.seeks.faults ≡ with_fault self.old.log.seeks.faults result }
        ensures whole { IsBlock self.new.block }
    {
        match seek_plan(to, self.buf.len()) {
            SeekPlan::One(to) => self.seek_once(to),
            SeekPlan::Two(back, offset) => {
                self.seek_once(SeekFrom::Current(back))?;
                self.seek_once(SeekFrom::Current(offset))
            }
        }
    }

    /// A [`seek`](Seek::seek) to the first byte.
    fn rewind(&mut self) -> io::Result<()>
        ensures moves { MovesTo (reader_position R.stream_position self.old)
            (reader_position R.stream_position self.new) 0 result }
        ensures bytes { Keeps (R.stream_bytes self.old.inner) (R.stream_bytes self.new.inner) }
        ensures seeks { SeeksTo R.readies (Start 0) self.old result self.new }
        ensures spared { (keep : ℕ) → Spared keep self.old self.new }
        ensures caused { self.new.log.seeks.faults ≡ with_fault self.old.log.seeks.faults result }
        ensures whole { IsBlock self.new.block }
    {
        self.seek(SeekFrom::Start(0))?;
        Ok(())
    }

    /// Goes on by `offset` bytes, or back by as many. Forward within what is buffered it drops just those bytes and asks
    /// nobody; else it is a [`seek`](Seek::seek). The policy is not asked.
    #[inline(always)]
    fn seek_relative(&mut self, offset: i64) -> io::Result<()>
        ensures moves { MovesBy (reader_position R.stream_position self.old)
            (reader_position R.stream_position self.new) offset result }
        ensures bytes { Keeps (R.stream_bytes self.old.inner) (R.stream_bytes self.new.inner) }
        ensures near { (n : ℕ) → offset ≡ pos n → n ≤ length self.old.block.bytes → (result ≡ Ok tt)
            × ConsumesFirst n self.old.block self.new.block × OnlyRingMoves self.old.block self.new.block
            × (self.new ≡ with_block self.old self.new.block) }
        ensures far { ¬ ((n : ℕ) × (offset ≡ pos n) × (n ≤ length self.old.block.bytes))
            → SeeksTo R.readies (Current offset) self.old result self.new }
        ensures spared { (keep : ℕ) → Spared keep self.old self.new }
        ensures caused { self.new.log.seeks.faults ≡ with_fault self.old.log.seeks.faults result }
        ensures whole { IsBlock self.new.block }
    {
        if offset >= 0 && offset as usize <= self.buf.len() {
            self.buf.consume(offset as usize);
            return Ok(());
        }
        self.seek_far_apart(offset)
    }

    /// Where it stands: as the inner reader says, less what is buffered, which stays. `InvalidData` where the inner reader
    /// says less than that.
    fn stream_position(&mut self) -> io::Result<u64>
        ensures value { IfSome (reader_position R.stream_position self.old) (λ at. IfOk result (λ n. n ≡ at)) }
        ensures stays { StaysAt (reader_position R.stream_position self.old)
            (reader_position R.stream_position self.new) }
        ensures bytes { Keeps (R.stream_bytes self.old.inner) (R.stream_bytes self.new.inner) }
        ensures asks { (place : Result ℕ Error) × SeekTells R.readies self.old.log (Current (pos 0)) place self.new.log
            × MatchResult place (λ at. MatchResult result (λ n. n + length self.old.block.bytes ≡ at)
            (λ e. (at < length self.old.block.bytes) × (error_kind e ≡ InvalidData))) (λ e. result ≡ Err e) }
        ensures others { self.new ≡ record self.old { inner = self.new.inner; log = self.new.log } }
        ensures whole { IsBlock self.new.block }
    {
        let at = self.inner.seek_told(SeekFrom::Current(0))?;
        match at.checked_sub(self.buf.len() as u64) {
            Some(n) => Ok(n),
            None => Err(io::Error::from(ErrorKind::InvalidData)),
        }
    }
}
