//! A stream that goes wrong at one call.
ghost use Rattle.std.specs.Prelude.{◌≡◌, ◌<◌, ℕ, None, Ok, IfOk, OnErr, length, take, drop};
ghost use Rattle.std.specs.Io.{ReadsAtMost, WritesAtMost};
ghost use Rattle.std.specs.Io.KnownBytes.{Consumes, IsAtEnd, Keeps, ReadConsumes, WriteAppends};
ghost use Rattle.std.specs.Io.Seek.{SeekMoves};

use crate::Answer;
use std::io;
use std::io::{ErrorKind, Read, Seek, SeekFrom, Write};

/// A stream whose call after the first `before` answers as named, in place of the stream inside, to which all others go
/// on. Reads, writes, flushes and seeks are counted together, so that a test can let each call of a run fail in turn.
///
/// A fault is returned without a call of the stream inside, and so is the `Ok(0)` of `Serve(0)`. `Interrupt` is this call
/// and the next ones, as many as it says, and `ServeEach` limits all calls from this one on. To a flush or a seek, which
/// serve no bytes, neither `Serve` nor `ServeEach` does anything.
///
/// ```
/// let once = Answer::Fail(ErrorKind::TimedOut);
/// let mut reader = FaultAt::new(b"abc".as_slice(), 1, once);
/// let mut out = [0; 1];
/// assert!(rt; reader.read(&mut out)? == 1);
/// assert!(rt; reader.read(&mut out).is_err());
/// assert!(rt; reader.read(&mut out)? == 1);
/// assert!(rt; reader.calls() == 3);
/// ```
#[derive(Debug, Drop)]
pub struct FaultAt<S> {
    stream: S,
    before: usize,
    answer: Answer,
    calls: usize,
}

impl<S> FaultAt<S> {
    ghost use Rattle.redux_script.specs.FaultAt.{FaultProgress, fault_progress, fault_stream, fault_reply, with_call};
    ghost use Rattle.redux_script.specs.Script.{Replies};

    /// `stream`, but for the call after the first `before`, which answers by `answer`.
    pub fn new(stream: S, before: usize, answer: Answer) -> FaultAt<S>
        ensures stream { fault_stream result ≡ stream }
        ensures progress { fault_progress result ≡ record { before = before; answer = answer; calls = 0 } }
    {
        FaultAt {
            stream,
            before,
            answer,
            calls: 0,
        }
    }

    /// How many calls were made. The count stops at `usize::MAX`.
    pub fn calls(&self) -> usize
        ensures { result ≡ (fault_progress self.now).calls }
    {
        self.calls
    }

    /// The stream inside.
    pub fn get_ref(&self) -> &S
        ensures { result.now ≡ fault_stream self.now }
    {
        &self.stream
    }

    // Counts a call that offers so many bytes, and answers how many of them go on to the stream inside.
    fn next(&mut self, offered: usize) -> io::Result<usize>
        ensures counted { fault_progress self.new ≡ with_call (fault_progress self.old) }
        ensures stream { fault_stream self.new ≡ fault_stream self.old }
        ensures reply { Replies (fault_reply (fault_progress self.old)) offered result }
    {
        let calls = self.calls;
        self.calls = calls.saturating_add(1);
        if calls < self.before {
            return Ok(offered);
        }
        let since = calls - self.before;
        match self.answer {
            Answer::Serve(n) if since == 0 => Ok(n.min(offered)),
            Answer::Fail(kind) if since == 0 => Err(io::Error::from(kind)),
            Answer::Interrupt(times) if since < times => {
                Err(io::Error::from(ErrorKind::Interrupted))
            }
            Answer::ServeEach(n) => Ok(n.min(offered)),
            _ => Ok(offered),
        }
    }
}

// What is left is not told as `remaining`, since an answer `Ok(0)` need not be the end.
impl<S: Read> Read for FaultAt<S> {
    ghost use Rattle.redux_script.specs.FaultAt.{fault_progress, fault_stream, fault_reply, with_call, ServesWithin, FailsBy};
    ghost use Rattle.redux_script.specs.Script.Reply.{Fails, Serves};

    fn read(&mut self, buf: &mut [u8]) -> io::Result<usize>
        ensures bound { ReadsAtMost result buf.new }
        ensures bytes { ReadConsumes None None result buf.new }
        ensures counted { fault_progress self.new ≡ with_call (fault_progress self.old) }
        ensures within { ServesWithin (fault_reply (fault_progress self.old)) result }
        ensures nothing { fault_reply (fault_progress self.old) ≡ Serves 0 → 0 < length buf.old
            → (result ≡ Ok 0) × (fault_stream self.new ≡ fault_stream self.old) }
        ensures fails { FailsBy (fault_reply (fault_progress self.old)) (fault_stream self.old) result (fault_stream self.new) }
        ensures given { IfOk result (λ n. Consumes (S.remaining (fault_stream self.old))
            (S.remaining (fault_stream self.new)) (take n buf.new)) }
        ensures err { OnErr result (Keeps (S.remaining (fault_stream self.old)) (S.remaining (fault_stream self.new))) }
        ensures end { result ≡ Ok 0 → 0 < length buf.old → (most : ℕ)
            → fault_reply (fault_progress self.old) ≡ Serves most → 0 < most → IsAtEnd (S.remaining (fault_stream self.new)) }
        ensures untouched { (kind : ErrorKind) → fault_reply (fault_progress self.old) ≡ Fails kind → buf.new ≡ buf.old }
        ensures beyond { (most : ℕ) → fault_reply (fault_progress self.old) ≡ Serves most
            → drop most buf.new ≡ drop most buf.old }
    {
        let most = self.next(buf.len())?;
        if most == 0 && !buf.is_empty() {
            return Ok(0);
        }
        self.stream.read(&mut buf[..most])
    }
}

impl<S: Write> Write for FaultAt<S> {
    ghost use Rattle.redux_script.specs.FaultAt.{fault_progress, fault_stream, fault_reply, with_call, ServesWithin, FailsBy};
    ghost use Rattle.redux_script.specs.Script.Reply.{Serves};

    ghost contents = { λ w. S.contents w.stream };

    fn write(&mut self, buf: &[u8]) -> io::Result<usize>
        ensures bound { WritesAtMost result buf.now }
        ensures bytes { WriteAppends (S.contents (fault_stream self.old)) (S.contents (fault_stream self.new)) result buf.now }
        ensures counted { fault_progress self.new ≡ with_call (fault_progress self.old) }
        ensures within { ServesWithin (fault_reply (fault_progress self.old)) result }
        ensures nothing { fault_reply (fault_progress self.old) ≡ Serves 0 → 0 < length buf.now
            → (result ≡ Ok 0) × (fault_stream self.new ≡ fault_stream self.old) }
        ensures fails { FailsBy (fault_reply (fault_progress self.old)) (fault_stream self.old) result (fault_stream self.new) }
    {
        let most = self.next(buf.len())?;
        if most == 0 && !buf.is_empty() {
            return Ok(0);
        }
        self.stream.write(&buf[..most])
    }

    fn flush(&mut self) -> io::Result<()>
        ensures bytes { Keeps (S.contents (fault_stream self.old)) (S.contents (fault_stream self.new)) }
        ensures counted { fault_progress self.new ≡ with_call (fault_progress self.old) }
        ensures fails { FailsBy (fault_reply (fault_progress self.old)) (fault_stream self.old) result (fault_stream self.new) }
    {
        self.next(0)?;
        self.stream.flush()
    }
}

impl<S: Seek> Seek for FaultAt<S> {
    ghost use Rattle.redux_script.specs.FaultAt.{fault_progress, fault_stream, fault_reply, with_call, FailsBy};

    ghost stream_position = { λ s. S.stream_position s.stream };

    ghost stream_bytes = { λ s. S.stream_bytes s.stream };

    fn seek(&mut self, to: SeekFrom) -> io::Result<u64>
        ensures moves { SeekMoves (S.stream_position (fault_stream self.old)) (S.stream_position (fault_stream self.new))
            (S.stream_bytes (fault_stream self.old)) to result }
        ensures bytes { Keeps (S.stream_bytes (fault_stream self.old)) (S.stream_bytes (fault_stream self.new)) }
        ensures counted { fault_progress self.new ≡ with_call (fault_progress self.old) }
        ensures fails { FailsBy (fault_reply (fault_progress self.old)) (fault_stream self.old) result (fault_stream self.new) }
    {
        self.next(0)?;
        self.stream.seek(to)
    }
}
