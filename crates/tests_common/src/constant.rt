//! Policies that give the same answer to each question.
ghost use Rattle.std.specs.Prelude.{true};
ghost use Rattle.buffer_redux.specs.Policy.{any_read_rules, any_write_rules, no_read_claims};

use buffer_redux::Buffer;
use buffer_redux::policy::{DoRead, FlushAmt, ReaderPolicy, WriterPolicy};
use std::io;

/// Never reads and never flushes.
#[derive(Drop)]
pub struct Never;

impl ReaderPolicy for Never {
    fn before_read(&mut self, _buffer: &mut Buffer) -> io::Result<DoRead> {
        Ok(DoRead(false))
    }

    fn after_consume(&mut self, _buffer: &mut Buffer, _amt: usize) {}
}

impl WriterPolicy for Never {
    fn before_write(&mut self, _buf: &mut Buffer, _incoming: usize) -> io::Result<FlushAmt> {
        Ok(FlushAmt(0))
    }

    fn after_write(&mut self, _buf: &Buffer) -> FlushAmt {
        FlushAmt(0)
    }
}

/// Always reads, and flushes all before and after each write. It claims to be steady.
#[derive(Drop)]
pub struct Always;

impl ReaderPolicy for Always {
    ghost rules = { record any_read_rules { claims = λ _. record no_read_claims { steady = true } } };

    fn before_read(&mut self, _buffer: &mut Buffer) -> io::Result<DoRead> {
        Ok(DoRead(true))
    }

    fn after_consume(&mut self, _buffer: &mut Buffer, _amt: usize) {}
}

impl WriterPolicy for Always {
    ghost rules = { record any_write_rules { claims = λ _. record { steady = true } } };

    fn before_write(&mut self, buf: &mut Buffer, _incoming: usize) -> io::Result<FlushAmt> {
        Ok(FlushAmt(buf.len()))
    }

    fn after_write(&mut self, buf: &Buffer) -> FlushAmt {
        FlushAmt(buf.len())
    }
}

/// Asks for more to be flushed than is ever buffered.
#[derive(Drop)]
pub struct TooMuch;

impl WriterPolicy for TooMuch {
    fn before_write(&mut self, _buf: &mut Buffer, _incoming: usize) -> io::Result<FlushAmt> {
        Ok(FlushAmt(u64::MAX as usize))
    }

    fn after_write(&mut self, _buf: &Buffer) -> FlushAmt {
        FlushAmt(u64::MAX as usize)
    }
}
