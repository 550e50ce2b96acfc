//! Streams in memory, which hand on what std says of a slice and of a vector alone: why a call of them fails.
ghost use Rattle.std.specs.Prelude.{◌≡◌, ◌+◌, ◌<◌, Ok, Some, [], length, min, vec_items, IfErr, IfOk, IsOk, OnErr};
ghost use Rattle.std.specs.Io.{ReadsAtMost, WritesAtMost};
ghost use Rattle.std.specs.Io.KnownBytes.{ReadConsumes};
ghost use Rattle.std.specs.List.{All};
ghost use Rattle.redux_buffer.specs.StreamLog.{no_calls, after_read, after_write, after_flush};
ghost use Rattle.redux_buffer.specs.Faults.{IsMemory};
ghost use Rattle.redux_buffer.specs.LogGrows.{WriteLogGrows, WriteLogGrows-none, WriteLogGrows-joins, WritesGoOn-of};

use crate::tell::log::{Call, CallLog};
use crate::tell::streams::{Tell, TellRead, TellWrite};
use std::alloc::Global;
use std::io::{Read, Write};
use std::{fmt, io};

/// Reads a slice from its front, and tells of the calls. No read fails.
pub struct MemoryReader<'a> {
    bytes: &'a [u8],
    calls: CallLog,
    ghost faultless: { calls.log.reads.faults ≡ [] },
}

impl<'a> MemoryReader<'a> {
    ghost use Rattle.redux_buffer.specs.Memory.{bytes_left, reader_log};

    /// A reader of `bytes`.
    pub fn new(bytes: &'a [u8]) -> MemoryReader<'a>
        ensures bytes { bytes_left result ≡ bytes.now }
        ensures log { reader_log result ≡ no_calls }
    {
        MemoryReader {
            bytes,
            calls: CallLog::new(),
        }
    }
}

impl Tell for MemoryReader<'_> {
    ghost log = { λ r. r.calls.log };
}

impl TellRead for MemoryReader<'_> {
    ghost use Rattle.redux_buffer.specs.Memory.{bytes_left, reader_log};

    ghost remaining = { λ r. Some r.bytes.now };

    fn read_told(&mut self, buf: &mut [u8]) -> io::Result<usize>
        ensures bound { ReadsAtMost result buf.new }
        ensures told { reader_log self.new ≡ after_read (reader_log self.old) buf.new result }
        ensures bytes { ReadConsumes (Some (bytes_left self.old)) (Some (bytes_left self.new)) result buf.new }
        ensures count { result ≡ Ok (min (length (bytes_left self.old)) (length buf.new)) }
    {
        let answer = self.bytes.read(buf);
        self.calls.note(&Call::Read(buf, &answer));
        answer
    }
}

/// Writes behind the bytes of a vector, which is empty at first, and tells of the calls. A write fails for want of memory
/// alone, where the vector has no room for it.
pub struct MemoryWriter {
    bytes: Vec<u8>,
    calls: CallLog,
    ghost held: { vec_items bytes ≡ calls.log.writes.received },
    ghost wants_memory: { All IsMemory calls.log.writes.faults },
    ghost takes_some: { calls.log.writes.zero_writes ≡ 0 },
}

impl MemoryWriter {
    ghost use Rattle.redux_buffer.specs.Memory.{room_held, writer_log};

    /// A writer behind no bytes. It takes no memory yet.
    pub fn new(alloc: Global) -> MemoryWriter
        ensures log { writer_log result ≡ no_calls }
        ensures none { room_held result ≡ 0 }
    {
        MemoryWriter {
            bytes: Vec::new(alloc),
            calls: CallLog::new(),
        }
    }

    /// All bytes that were written.
    pub fn into_vec(self) -> Vec<u8>
        ensures { vec_items result ≡ (writer_log self).writes.received }
    {
        let MemoryWriter { bytes, calls: _ } = self;
        bytes
    }
}

impl Tell for MemoryWriter {
    ghost log = { λ w. w.calls.log };
}

impl TellWrite for MemoryWriter {
    ghost use Rattle.redux_buffer.specs.Memory.{room_held, writer_log};

    ghost trace = { λ s t. WriteLogGrows s.calls.log.writes t.calls.log.writes };

    fn write_told(&mut self, buf: &[u8]) -> io::Result<usize>
        ensures bound { WritesAtMost result buf.now }
        ensures told { writer_log self.new ≡ after_write (writer_log self.old) buf.now result }
        ensures count { IfOk result (λ n. n ≡ length buf.now) }
        ensures memory { IfErr result IsMemory }
        ensures full { OnErr result (room_held self.old < length (writer_log self.old).writes.received + length buf.now) }
    {
        let answer = match self.bytes.extend_from_slice(buf) {
            Ok(()) => Ok(buf.len()),
            Err(e) => Err(io::Error::from(e)),
        };
        self.calls.note(&Call::Write(buf, &answer));
        answer
    }

    // A flush of memory never fails.
    fn flush_told(&mut self) -> io::Result<()>
        ensures told { writer_log self.new ≡ after_flush (writer_log self.old) result }
        ensures ok { IsOk result }
    {
        let answer = self.bytes.flush();
        self.calls.note(&Call::Flush(&answer));
        answer
    }

    ghost trace_none = { λ s. WriteLogGrows-none s.calls.log.writes };

    ghost trace_joins = { λ a b c p q. WriteLogGrows-joins a.calls.log.writes b.calls.log.writes c.calls.log.writes p q };

    ghost trace_grows = { λ s t grows. WritesGoOn-of s.calls.log t.calls.log grows };
}

impl Drop for MemoryReader<'_> {
    fn drop(self) {
        let MemoryReader { bytes: _, calls: _ } = self;
    }
}

impl Drop for MemoryWriter {
    fn drop(self) {
        let MemoryWriter { bytes: _, calls: _ } = self;
    }
}

impl fmt::Debug for MemoryReader<'_> {
    fn fmt<W: fmt::Write>(&self, f: &mut fmt::Formatter<W>) -> fmt::Result {
        f.debug_struct("MemoryReader")
            .field("bytes", &self.bytes)
            .finish()
    }
}

impl fmt::Debug for MemoryWriter {
    fn fmt<W: fmt::Write>(&self, f: &mut fmt::Formatter<W>) -> fmt::Result {
        f.debug_struct("MemoryWriter")
            .field("bytes", &self.bytes)
            .finish()
    }
}
