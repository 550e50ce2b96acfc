//! A buffered writer as a stream that tells of its own calls.
ghost use Rattle.std.specs.Prelude.{◌≡◌, [], ◌++◌, None, OnOk};
ghost use Rattle.std.specs.Io.{WritesAtMost};
ghost use Rattle.std.specs.Io.KnownBytes.{Keeps};
ghost use Rattle.std.specs.Io.Seek.{SeekMoves};
ghost use Rattle.redux_buffer.specs.Block.{IsBlock};
ghost use Rattle.redux_buffer.specs.StreamLog.{after_write, after_flush, SeekTells};
ghost use Rattle.buffer_redux.specs.BufWriter.{Writes, WasFlushed, WasSought};
ghost use Rattle.buffer_redux.specs.Buffered.{with_calls};
ghost use Rattle.buffer_redux.specs.WriterTells.{writer_log, flushes_received, WriterCalled, WriterWent, WriterWent-none, WriterWent-joins, WriterWent-grows};

use crate::buf_writer::BufWriter;
use crate::policy::WriterPolicy;
use redux_buffer::tell::{Call, Tell, TellSeek, TellWrite};
use std::io;
use std::io::{Seek, SeekFrom, Write};

impl<W: TellWrite, P> Tell for BufWriter<W, P> {
    ghost log = { writer_log };
}

impl<W: TellWrite, P: WriterPolicy> TellWrite for BufWriter<W, P> {
    ghost trace = { WriterWent W.trace P.rules };

    ghost call = { WriterCalled W.log W.trace P.rules };

    fn write_told(&mut self, buf: &[u8]) -> io::Result<usize>
        ensures bound { WritesAtMost result buf.now }
        ensures told { writer_log self.new ≡ after_write (writer_log self.old) buf.now result }
        ensures trace { WriterWent W.trace P.rules self.old self.new }
        ensures call { WriterCalled W.log W.trace P.rules self.old self.new }
        ensures steps { Writes P.rules self.old buf.now result self.new }
        ensures whole { IsBlock self.new.block }
    {
        let answer = self.write(buf);
        self.calls.note(&Call::Write(buf, &answer));
        answer
    }

    fn flush_told(&mut self) -> io::Result<()>
        ensures all { OnOk result ((self.new.block.bytes ≡ [])
            × (self.new.log.writes.received ≡ self.old.log.writes.received ++ self.old.block.bytes)
            × (self.new.log.writes.flushed ≡ self.new.log.writes.received)) }
        ensures told { writer_log self.new ≡ after_flush (writer_log self.old) result }
        ensures trace { WriterWent W.trace P.rules self.old self.new }
        ensures call { WriterCalled W.log W.trace P.rules self.old self.new }
        ensures flushed { WasFlushed W.log W.trace self.old result (with_calls self.new self.old.own_calls) }
    {
        let answer = self.flush();
        self.calls.note(&Call::Flush(&answer));
        answer
    }

    ghost trace_none = { WriterWent-none W.trace P.rules W.trace_none };

    ghost trace_joins = { WriterWent-joins W.trace P.rules W.trace_joins };

    ghost trace_grows = { WriterWent-grows W.trace P.rules };
}

// A seek is told as one; the flush before it shows in what is flushed.
impl<W: TellWrite + TellSeek, P: WriterPolicy> TellSeek for BufWriter<W, P> {
    ghost readies = { flushes_received };

    fn seek_told(&mut self, to: SeekFrom) -> io::Result<u64>
        ensures all { OnOk result ((self.new.block.bytes ≡ [])
            × (self.new.log.writes.received ≡ self.old.log.writes.received ++ self.old.block.bytes)
            × (self.new.log.writes.flushed ≡ self.new.log.writes.received)) }
        ensures told { SeekTells flushes_received (writer_log self.old) to result (writer_log self.new) }
        ensures moves { SeekMoves None None None to result }
        ensures bytes { Keeps None None }
        ensures sought { WasSought W.log W.trace W.readies self.old to result
            (with_calls self.new self.old.own_calls) }
    {
        let answer = self.seek(to);
        self.calls.note(&Call::Seek(to, &answer));
        answer
    }
}
