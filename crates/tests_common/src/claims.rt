//! Policies with exact tables, each claim once.
ghost use Rattle.tests_common.specs.Halves.{halves_read_rules, halves_write_rules};
ghost use Rattle.tests_common.specs.Header.{header_rules};

use buffer_redux::Buffer;
use buffer_redux::policy::{DoRead, FlushAmt, ReaderPolicy, WriterPolicy, flush_when_full};
use std::io;

/// Keeps a header of sixteen bytes in sight. A buffer that is too small for one grows to hold three at once, since from
/// then on it moves no more bytes than are read.
#[derive(Drop)]
pub struct Header;

impl ReaderPolicy for Header {
    ghost rules = { header_rules };

    fn before_read(&mut self, buffer: &mut Buffer) -> io::Result<DoRead> {
        if buffer.len() >= 16 {
            return Ok(DoRead(false));
        }
        if buffer.capacity() < 16 {
            buffer.reserve(48)?;
        } else if buffer.usable_space() < 16 {
            buffer.make_room();
        }
        Ok(DoRead(true))
    }

    fn after_consume(&mut self, _buffer: &mut Buffer, _amt: usize) {}
}

/// Reads until more than half of the buffer is full, and flushes where more than half of it is.
#[derive(Drop)]
pub struct Halves;

impl ReaderPolicy for Halves {
    ghost rules = { halves_read_rules };

    fn before_read(&mut self, buffer: &mut Buffer) -> io::Result<DoRead> {
        Ok(DoRead(2 * buffer.len() <= buffer.capacity()))
    }

    fn after_consume(&mut self, _buffer: &mut Buffer, _amt: usize) {}
}

impl WriterPolicy for Halves {
    ghost rules = { halves_write_rules };

    fn before_write(&mut self, buf: &mut Buffer, incoming: usize) -> io::Result<FlushAmt> {
        Ok(flush_when_full(buf, incoming))
    }

    fn after_write(&mut self, buf: &Buffer) -> FlushAmt {
        if 2 * buf.len() <= buf.capacity() {
            return FlushAmt(0);
        }
        FlushAmt(buf.len())
    }
}
