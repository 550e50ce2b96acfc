//! Policies: when a `BufReader` reads into its buffer, and when a `BufWriter` flushes its own.
//!
//! A policy sees the buffer, may make room in it, grow it and set its limit. It leaves the bytes, the kind and the consumed
//! count, and lowers no capacity: that law is part of both traits, so a body that breaks it is refused. A policy of yours is
//! a type with the calls of a trait:
//!
//! ```
//! /// Reads whenever there is room, for a source whose calls are dear.
//! #[derive(Drop)]
//! struct Eager;
//!
//! impl ReaderPolicy for Eager {
//!     fn before_read(&mut self, buffer: &mut Buffer) -> io::Result<DoRead> {
//!         buffer.make_room();
//!         Ok(DoRead(true))
//!     }
//!
//!     fn after_consume(&mut self, _buffer: &mut Buffer, _amt: usize) {}
//! }
//! ```
//!
//! `reader.set_policy(Eager)` puts a reader under it. Beside the law a policy may have `rules`: two tables, which say
//! exactly what its calls return and change, and claims, which readers and writers rest further promises on.
ghost use Rattle.std.specs.Prelude.{◌≡◌, ◌==◌, length};
ghost use Rattle.buffer_redux.specs.Policy.{ReadRules, WriteRules, any_read_rules, any_write_rules};
ghost use Rattle.buffer_redux.specs.Policy.{std_read_rules, std_write_rules, amount_when_full};
ghost use Rattle.buffer_redux.specs.Policy.{BeforeRead, AfterConsume, BeforeWrite, AfterWrite};

mod min_buffered;
mod writers;

pub use min_buffered::MinBuffered;
use redux_buffer::Buffer;
use std::io;
pub use writers::{FlushAtLeast, FlushExact, FlushOn, FlushOnNewline};

/// Whether a `BufReader` is to read into its buffer.
#[derive(Clone, Copy, Debug)]
pub struct DoRead(pub bool);

/// How many bytes a `BufWriter` is to send, without a flush of the inner writer: none at 0, and none where fewer are buffered.
#[derive(Clone, Copy, Debug)]
pub struct FlushAmt(pub usize);

/// When a `BufReader` reads.
pub trait ReaderPolicy {
    // What the calls may return and change beside the law, and what the policy claims.
    ghost rules: { ReadRules Self } = { any_read_rules };

    /// Asked in every fill before each read into the buffer, and again after one that gave bytes. A fill reads only where this
    /// says so and leaves usable space. `read_into_buf`, `peek`, and `read_line` behind a part of a character, don't ask, nor
    /// does a `read` that goes past an empty buffer. An `Err` ends the reader's read or fill; of the kind `Interrupted` that may
    /// be made again, as where the stream was interrupted.
    ///
    /// [`read_when_empty`] is the original's default.
    fn before_read(&mut self, buffer: &mut Buffer) -> io::Result<DoRead>
        ensures { BeforeRead rules self.old buffer.old result self.new buffer.new };

    /// Told that `amt` bytes were consumed just now. A seek, also `seek_relative` forward within what is buffered, isn't told. A
    /// policy that doesn't care has an empty body.
    fn after_consume(&mut self, buffer: &mut Buffer, amt: usize)
        ensures { AfterConsume rules self.old buffer.old amt self.new buffer.new };
}

/// When a `BufWriter` sends what is buffered. No call of a policy flushes the inner writer.
pub trait WriterPolicy {
    // What the calls may return and change beside the law, and what the policy claims.
    ghost rules: { WriteRules Self } = { any_write_rules };

    /// Asked before `incoming` bytes are written, for the amount to send first. An `Err` ends the writer's write; of the kind
    /// `Interrupted` that may be made again, as where the stream was interrupted.
    ///
    /// [`flush_when_full`] is the original's default.
    fn before_write(&mut self, buf: &mut Buffer, incoming: usize) -> io::Result<FlushAmt>
        ensures { BeforeWrite rules self.old buf.old incoming result self.new buf.new };

    /// Asked after bytes were written, for the amount to send then: `FlushAmt(0)` where that is nothing. A fault of that send
    /// isn't returned, and what wasn't sent stays buffered.
    fn after_write(&mut self, buf: &Buffer) -> FlushAmt
        ensures { AfterWrite rules self.old buf.now result self.new };
}

/// What std's `BufReader` does: read only where nothing is buffered.
pub fn read_when_empty(buffer: &Buffer) -> DoRead
    ensures { result.0 ≡ (length buffer.now.bytes == 0) }
{
    DoRead(buffer.is_empty())
}

/// What std's `BufWriter` does: send all that is buffered where the incoming bytes don't fit behind it.
pub fn flush_when_full(buf: &Buffer, incoming: usize) -> FlushAmt
    ensures { result.0 ≡ amount_when_full buf.now incoming }
{
    if incoming > buf.usable_space() {
        amount_of_all(buf)
    } else {
        FlushAmt(0)
    }
}

// Apart, so that it isn't computed where the bytes fit.
#[cold]
#[inline(never)]
fn amount_of_all(buf: &Buffer) -> FlushAmt
    ensures { result.0 ≡ length buf.now.bytes }
{
    FlushAmt(buf.len())
}

/// What the types of `std::io` do: a reader reads only where nothing is buffered, a writer sends only where the incoming bytes
/// don't fit. It neither grows the buffer nor makes room.
#[derive(Debug, Default, Drop)]
pub struct StdPolicy;

impl ReaderPolicy for StdPolicy {
    ghost rules = { std_read_rules };

    fn before_read(&mut self, buffer: &mut Buffer) -> io::Result<DoRead> {
        Ok(read_when_empty(buffer))
    }

    fn after_consume(&mut self, _buffer: &mut Buffer, _amt: usize) {}
}

impl WriterPolicy for StdPolicy {
    ghost rules = { std_write_rules };

    fn before_write(&mut self, buf: &mut Buffer, incoming: usize) -> io::Result<FlushAmt> {
        // Asked as a `BufWriter` asks before, whose test then is the only one.
        if incoming < buf.usable_space() {
            return Ok(FlushAmt(0));
        }
        Ok(flush_when_full(buf, incoming))
    }

    fn after_write(&mut self, _buf: &Buffer) -> FlushAmt {
        FlushAmt(0)
    }
}
