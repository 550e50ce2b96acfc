//! Seeks of the buffered writer.
ghost use Rattle.std.specs.Prelude.{None, ◌≡◌, pos, [], ◌++◌, OnOk};
ghost use Rattle.std.specs.Io.KnownBytes.{Keeps};
ghost use Rattle.std.specs.Io.Seek.{SeekMoves};
ghost use Rattle.std.specs.declared.io.traits.SeekFrom.TheVariants.{Current, Start};
ghost use Rattle.buffer_redux.specs.BufWriter.{WasSought};
ghost use Rattle.buffer_redux.specs.Seek.{WithoutPlace};

use crate::buf_writer::BufWriter;
use crate::policy::WriterPolicy;
use redux_buffer::tell::{TellSeek, TellWrite};
use std::io;
use std::io::{Seek, SeekFrom, Write};

/// Flushes, and then asks the inner writer to seek to the same place. Where the flush fails, its error is returned, and no
/// seek is made.
impl<W: TellWrite + TellSeek, P: WriterPolicy> Seek for BufWriter<W, P> {
    fn seek(&mut self, to: SeekFrom) -> io::Result<u64>
        ensures all { OnOk result ((self.new.block.bytes ≡ [])
            × (self.new.log.writes.received ≡ self.old.log.writes.received ++ self.old.block.bytes)
            × (self.new.log.writes.flushed ≡ self.new.log.writes.received)) }
        ensures moves { SeekMoves None None None to result }
        ensures bytes { Keeps None None }
        ensures sought { WasSought W.log W.trace W.readies self.old to result self.new }
    {
        self.flush()?;
        self.inner.seek_told(to)
    }

    /// A [`seek`](Seek::seek) to the first byte.
    fn rewind(&mut self) -> io::Result<()>
        ensures all { OnOk result ((self.new.block.bytes ≡ [])
            × (self.new.log.writes.received ≡ self.old.log.writes.received ++ self.old.block.bytes)
            × (self.new.log.writes.flushed ≡ self.new.log.writes.received)) }
        ensures sought { WithoutPlace (λ place. WasSought W.log W.trace W.readies self.old (Start 0) place self.new) result }
    {
        self.seek(SeekFrom::Start(0))?;
        Ok(())
    }

    /// A [`seek`](Seek::seek) by `offset` bytes from where the inner writer stands.
    fn seek_relative(&mut self, offset: i64) -> io::Result<()>
        ensures all { OnOk result ((self.new.block.bytes ≡ [])
            × (self.new.log.writes.received ≡ self.old.log.writes.received ++ self.old.block.bytes)
            × (self.new.log.writes.flushed ≡ self.new.log.writes.received)) }
        ensures sought { WithoutPlace
            (λ place. WasSought W.log W.trace W.readies self.old (Current offset) place self.new) result }
    {
        self.seek(SeekFrom::Current(offset))?;
        Ok(())
    }

    /// A [`seek`](Seek::seek) to where the inner writer stands, which tells the place.
    fn stream_position(&mut self) -> io::Result<u64>
        ensures all { OnOk result ((self.new.block.bytes ≡ [])
            × (self.new.log.writes.received ≡ self.old.log.writes.received ++ self.old.block.bytes)
            × (self.new.log.writes.flushed ≡ self.new.log.writes.received)) }
        ensures sought { WasSought W.log W.trace W.readies self.old (Current (pos 0)) result self.new }
    {
        self.seek(SeekFrom::Current(0))
    }
}
