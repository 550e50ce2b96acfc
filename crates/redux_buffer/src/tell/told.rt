//! A stream of std that tells of its calls.
ghost use Rattle.std.specs.Prelude.{◌≡◌};
ghost use Rattle.std.specs.Borrow.{sem, Lends};
ghost use Rattle.std.specs.Io.{ReadsAtMost, WritesAtMost};
ghost use Rattle.std.specs.Io.KnownBytes.{Keeps, ReadConsumes, WriteAppends};
ghost use Rattle.std.specs.Io.Seek.{SeekMoves};
ghost use Rattle.redux_buffer.specs.StreamLog.{no_calls, after_read, after_write, after_flush, after_seek};
ghost use Rattle.redux_buffer.specs.LogGrows.{WritesGoOn-of};
ghost use Rattle.redux_buffer.specs.contracts.tell.told.Told.{the_row};

use crate::tell::log::{Call, CallLog};
use crate::tell::streams::{Tell, TellRead, TellSeek, TellWrite};
use std::io::{Read, Seek, SeekFrom, Write};
use std::{fmt, io};

/// Tells of the calls that go through it to a stream of std. It takes no more room than the stream.
///
/// ```
/// let mut file = Told::new(Vec::<u8>::new(alloc));
/// assert!(rt; file.write_told(b"abc")? == 3);
/// assert!(rt; file.into_inner().as_slice() == b"abc".as_slice());
/// ```
pub struct Told<S> {
    stream: S,
    calls: CallLog,
}

impl<S> Told<S> {
    ghost use Rattle.redux_buffer.specs.Told.{told_stream, told_log, with_stream};

    /// Begins to tell of `stream`, of which no call is known yet.
    pub fn new(stream: S) -> Told<S>
        ensures stream { told_stream result ≡ stream }
        ensures log { told_log result ≡ no_calls }
    {
        Told {
            stream,
            calls: CallLog::new(),
        }
    }

    /// The stream.
    pub fn get_ref(&self) -> &S
        ensures { result.now ≡ told_stream self.now }
    {
        &self.stream
    }

    /// The stream, for changes. What it is asked through this is not told.
    pub fn get_mut(&mut self) -> &mut S
        ensures* writes_back { sem 𝓛 (Lends (the_row S.row) S.row self.entry result (with_stream self.old)) }
        ensures value { result.now ≡ told_stream self.old }
    {
        &mut self.stream
    }

    /// The stream; what it told is forgotten.
    pub fn into_inner(self) -> S
        ensures { result ≡ told_stream self }
    {
        let Told { stream, calls: _ } = self;
        stream
    }
}

impl<S: Drop> Drop for Told<S> {
    fn drop(self) {
        let Told {
            stream: _,
            calls: _,
        } = self;
    }
}

impl<S: fmt::Debug> fmt::Debug for Told<S> {
    fn fmt<W: fmt::Write>(&self, f: &mut fmt::Formatter<W>) -> fmt::Result {
        f.debug_struct("Told")
            .field("stream", &self.stream)
            .finish()
    }
}

impl<S> Tell for Told<S> {
    ghost log = { λ s. s.calls.log };
}

// The log is set by the calls below alone, so each repeats what its call of the stream ensures.
impl<S: Read> TellRead for Told<S> {
    ghost use Rattle.redux_buffer.specs.Told.{told_stream, told_log};

    ghost remaining = { λ t. S.remaining t.stream };

    fn read_told(&mut self, buf: &mut [u8]) -> io::Result<usize>
        ensures bound { ReadsAtMost result buf.new }
        ensures told { told_log self.new ≡ after_read (told_log self.old) buf.new result }
        ensures bytes { ReadConsumes (S.remaining (told_stream self.old))
            (S.remaining (told_stream self.new)) result buf.new }
    {
        let answer = self.stream.read(buf);
        self.calls.note(&Call::Read(buf, &answer));
        // Answered by the parts: a whole answer is copied whole.
        match answer {
            Ok(n) => Ok(n),
            Err(e) => Err(e),
        }
    }
}

impl<S: Write> TellWrite for Told<S> {
    ghost use Rattle.redux_buffer.specs.Told.{told_stream, told_log, ToldWrites, ToldWrites-none, ToldWrites-joins};

    ghost trace = { ToldWrites S.contents };

    fn write_told(&mut self, buf: &[u8]) -> io::Result<usize>
        ensures bound { WritesAtMost result buf.now }
        ensures told { told_log self.new ≡ after_write (told_log self.old) buf.now result }
        ensures trace { ToldWrites S.contents self.old self.new }
        ensures passed_on { WriteAppends (S.contents (told_stream self.old))
            (S.contents (told_stream self.new)) result buf.now }
    {
        let answer = self.stream.write(buf);
        self.calls.note(&Call::Write(buf, &answer));
        // Answered by the parts, as in `read_told`.
        match answer {
            Ok(taken) => Ok(taken),
            Err(fault) => Err(fault),
        }
    }

    fn flush_told(&mut self) -> io::Result<()>
        ensures told { told_log self.new ≡ after_flush (told_log self.old) result }
        ensures trace { ToldWrites S.contents self.old self.new }
        ensures passed_on { Keeps (S.contents (told_stream self.old))
            (S.contents (told_stream self.new)) }
    {
        let answer = self.stream.flush();
        self.calls.note(&Call::Flush(&answer));
        answer
    }

    ghost trace_none = { ToldWrites-none S.contents };

    ghost trace_joins = { ToldWrites-joins S.contents };

    ghost trace_grows = { λ s t trace. WritesGoOn-of s.calls.log t.calls.log trace.grows };
}

impl<S: Seek> TellSeek for Told<S> {
    ghost use Rattle.redux_buffer.specs.Told.{told_stream, told_log};

    ghost stream_position = { λ t. S.stream_position t.stream };

    ghost stream_bytes = { λ t. S.stream_bytes t.stream };

    fn seek_told(&mut self, to: SeekFrom) -> io::Result<u64>
        ensures told { told_log self.new ≡ after_seek (told_log self.old) to result }
        ensures moves { SeekMoves (S.stream_position (told_stream self.old))
            (S.stream_position (told_stream self.new)) (S.stream_bytes (told_stream self.old)) to result }
        ensures bytes { Keeps (S.stream_bytes (told_stream self.old)) (S.stream_bytes (told_stream self.new)) }
    {
        let answer = self.stream.seek(to);
        self.calls.note(&Call::Seek(to, &answer));
        // Answered by the parts, as in `read_told`.
        match answer {
            Ok(at) => Ok(at),
            Err(refusal) => Err(refusal),
        }
    }
}
