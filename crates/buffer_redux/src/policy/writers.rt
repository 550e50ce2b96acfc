//! Policies of writers that flush by the bytes, or by how many are buffered.
ghost use Rattle.buffer_redux.specs.Policy.{Lawful};
ghost use Rattle.buffer_redux.specs.WriterPolicies.{EnsuresCapacity, at_least_rules, exact_rules, flush_on_rules};

use crate::policy::{FlushAmt, WriterPolicy, flush_when_full};
use memchr::memrchr;
use redux_buffer::Buffer;
use std::io;

/// Sends as std does before a write, and after it through the last such byte that is buffered, for which each write
/// searches all that is.
///
/// ```
/// let mut writer = BufWriter::new(alloc, Told::new(Vec::new(alloc)))?.set_policy(FlushOn(b';'));
/// writer.write_all(b"a;b;c")?;
/// assert!(rt; writer.get_ref().get_ref().as_slice() == b"a;b;".as_slice());
/// ```
#[derive(Debug, Default, Drop)]
pub struct FlushOn(pub u8);

impl WriterPolicy for FlushOn {
    ghost rules = { flush_on_rules (λ p. p.0) };

    fn before_write(&mut self, buf: &mut Buffer, incoming: usize) -> io::Result<FlushAmt> {
        Ok(flush_when_full(buf, incoming))
    }

    fn after_write(&mut self, buf: &Buffer) -> FlushAmt {
        match memrchr(self.0, buf.buf()) {
            Some(last) => FlushAmt(last + 1),
            None => FlushAmt(0),
        }
    }
}

/// Sends as std does before a write, and after it through the last newline, the byte 10, that is buffered:
/// `FlushOn(b'\n')`.
///
/// ```
/// let mut writer = BufWriter::new(alloc, Told::new(Vec::new(alloc)))?.set_policy(FlushOnNewline);
/// writer.write_all(b"a\nb")?;
/// assert!(rt; writer.get_ref().get_ref().as_slice() == b"a\n".as_slice());
/// ```
#[derive(Debug, Default, Drop)]
pub struct FlushOnNewline;

impl WriterPolicy for FlushOnNewline {
    ghost rules = { flush_on_rules (λ p. 10) };

    fn before_write(&mut self, buf: &mut Buffer, incoming: usize) -> io::Result<FlushAmt> {
        Ok(flush_when_full(buf, incoming))
    }

    fn after_write(&mut self, buf: &Buffer) -> FlushAmt {
        FlushOn(b'\n').after_write(buf)
    }
}

// Reserves what a capacity of `capacity` lacks.
fn ensure_capacity(buf: &mut Buffer, capacity: usize) -> io::Result<()>
    ensures ensured { EnsuresCapacity capacity buf.old result buf.new }
    ensures law { Lawful buf.old buf.new }
{
    let present = buf.capacity();
    if present < capacity {
        buf.reserve(capacity - present)?;
    }
    Ok(())
}

/// Sends as std does before a write, and after it all that is buffered, where that is at least so many bytes.
///
/// Before a write it reserves what the buffer's capacity lacks of so many bytes. That does nothing where as much can be
/// written already, so the capacity may stay below the number. A refusal is an `Err` of the kind of its
/// [`GrowError`](crate::GrowError); the buffer is then as it was, and nothing was sent.
///
/// ```
/// let mut writer = BufWriter::new(alloc, Told::new(Vec::new(alloc)))?.set_policy(FlushAtLeast(3));
/// writer.write_all(b"ab")?;
/// assert!(rt; writer.buf_len() == 2);
/// writer.write_all(b"cd")?;
/// assert!(rt; writer.buf_len() == 0);
/// ```
#[derive(Debug, Default, Drop)]
pub struct FlushAtLeast(pub usize);

impl WriterPolicy for FlushAtLeast {
    ghost rules = { at_least_rules (λ p. p.0) };

    fn before_write(&mut self, buf: &mut Buffer, incoming: usize) -> io::Result<FlushAmt> {
        ensure_capacity(buf, self.0)?;
        Ok(flush_when_full(buf, incoming))
    }

    fn after_write(&mut self, buf: &Buffer) -> FlushAmt {
        FlushAmt(buf.len().max(self.0))
    }
}

/// Sends exactly so many bytes, before a write and after it, where at least so many are buffered.
///
/// Before a write it reserves what the buffer's capacity lacks of so many bytes, as [`FlushAtLeast`] does, and makes room
/// where fewer are buffered and the incoming ones don't fit behind them. A refusal is an `Err` of the kind of its
/// [`GrowError`](crate::GrowError); the buffer is then as it was, and nothing was sent.
///
/// ```
/// let mut writer = BufWriter::new(alloc, Told::new(Vec::new(alloc)))?.set_policy(FlushExact(3));
/// writer.write_all(b"abcd")?;
/// assert!(rt; writer.get_ref().get_ref().as_slice() == b"abc".as_slice());
/// assert!(rt; writer.buf_len() == 1);
/// ```
#[derive(Debug, Default, Drop)]
pub struct FlushExact(pub usize);

impl WriterPolicy for FlushExact {
    ghost rules = { exact_rules (λ p. p.0) };

    fn before_write(&mut self, buf: &mut Buffer, incoming: usize) -> io::Result<FlushAmt> {
        ensure_capacity(buf, self.0)?;
        if incoming > buf.usable_space() && buf.len() < self.0 {
            buf.make_room();
        }
        Ok(FlushAmt(self.0))
    }

    fn after_write(&mut self, _buf: &Buffer) -> FlushAmt {
        FlushAmt(self.0)
    }
}
