//! A line writer as a stream that tells of its own calls.
ghost use Rattle.std.specs.Prelude.{◌≡◌, [], ◌++◌, OnOk};
ghost use Rattle.std.specs.Io.{WritesAtMost};
ghost use Rattle.redux_buffer.specs.Block.{IsBlock};
ghost use Rattle.redux_buffer.specs.StreamLog.{after_write, after_flush};
ghost use Rattle.buffer_redux.specs.BufWriter.{Writes, WasFlushed};
ghost use Rattle.buffer_redux.specs.Buffered.{with_calls};
ghost use Rattle.buffer_redux.specs.LineWriter.{line_rules};
ghost use Rattle.buffer_redux.specs.WriterTells.{writer_log, WriterCalled, WriterWent, WriterWent-none, WriterWent-joins, WriterWent-grows};

use crate::line_writer::LineWriter;
use redux_buffer::tell::{Tell, TellWrite};
use std::io;

impl<W: TellWrite> Tell for LineWriter<W> {
    ghost log = { writer_log };
}

// A `LineWriter` tells what the writer inside it tells.
impl<W: TellWrite> TellWrite for LineWriter<W> {
    ghost trace = { WriterWent W.trace line_rules };

    ghost call = { WriterCalled W.log W.trace line_rules };

    fn write_told(&mut self, buf: &[u8]) -> io::Result<usize>
        ensures bound { WritesAtMost result buf.now }
        ensures told { writer_log self.new ≡ after_write (writer_log self.old) buf.now result }
        ensures trace { WriterWent W.trace line_rules self.old self.new }
        ensures call { WriterCalled W.log W.trace line_rules self.old self.new }
        ensures steps { Writes line_rules self.old buf.now result self.new }
        ensures whole { IsBlock self.new.block }
    {
        self.writer.write_told(buf)
    }

    fn flush_told(&mut self) -> io::Result<()>
        ensures all { OnOk result ((self.new.block.bytes ≡ [])
            × (self.new.log.writes.received ≡ self.old.log.writes.received ++ self.old.block.bytes)
            × (self.new.log.writes.flushed ≡ self.new.log.writes.received)) }
        ensures told { writer_log self.new ≡ after_flush (writer_log self.old) result }
        ensures trace { WriterWent W.trace line_rules self.old self.new }
        ensures call { WriterCalled W.log W.trace line_rules self.old self.new }
        ensures flushed { WasFlushed W.log W.trace self.old result (with_calls self.new self.old.own_calls) }
    {
        self.writer.flush_told()
    }

    ghost trace_none = { WriterWent-none W.trace line_rules W.trace_none };

    ghost trace_joins = { WriterWent-joins W.trace line_rules W.trace_joins };

    ghost trace_grows = { WriterWent-grows W.trace line_rules };
}
