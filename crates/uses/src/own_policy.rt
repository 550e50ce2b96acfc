//! A policy of one's own that claims a minimum, and what follows of the claim for whoever fills under it.
ghost use Rattle.std.specs.Prelude.{◌≡◌, ◌+◌, ◌≤◌, ◌↔◌, [], Ok, false, IfOk, IsTrue, is_ok, length};
ghost use Rattle.buffer_redux.specs.BufReader.{FillsToMinimum, RanDry, ReadErrorCaused, ReadsInOrder};
ghost use Rattle.uses.specs.OwnPolicy.{sixteen_rules};

use buffer_redux::policy::{DoRead, ReaderPolicy};
use buffer_redux::tell::TellRead;
use buffer_redux::{BufReader, Buffer};
use std::io;
use std::io::BufRead;

/// Has sixteen bytes in sight, as far as there are so many. It fails only where a buffer that is too small for them can't grow.
#[derive(Drop)]
pub struct HeaderFirst;

impl ReaderPolicy for HeaderFirst {
    ghost rules = { sixteen_rules };

    fn before_read(&mut self, buffer: &mut Buffer) -> io::Result<DoRead> {
        if buffer.len() >= 16 {
            return Ok(DoRead(false));
        }
        if buffer.capacity() < 16 {
            buffer.reserve(16)?;
        } else {
            buffer.make_room();
        }
        Ok(DoRead(true))
    }

    fn after_consume(&mut self, _buffer: &mut Buffer, _amt: usize) {}
}

/// Whether sixteen bytes are in sight; if not, the stream has ended. They stay in the reader; where they are there, nobody
/// is asked.
pub fn sees_header<R: TellRead>(reader: &mut BufReader<R, HeaderFirst>) -> io::Result<bool>
    ensures seen { IfOk result (λ seen. IsTrue seen ↔ 16 ≤ length reader.new.block.bytes) }
    ensures ended { result ≡ Ok false → RanDry reader.old reader.new }
    ensures ahead { FillsToMinimum 16 reader.old (is_ok result) reader.new }
    ensures once { reader.new.log.reads.zero_reads ≤ reader.old.log.reads.zero_reads + 1 }
    ensures caused { ReadErrorCaused sixteen_rules reader.old result reader.new }
    ensures kept { ReadsInOrder reader.old [] reader.new }
    ensures still { 16 ≤ length reader.old.block.bytes → reader.new.block ≡ reader.old.block }
{
    Ok(reader.fill_buf()?.len() >= 16)
}
