//! A policy that looks ahead.
ghost use Rattle.std.specs.Prelude.{◌≡◌};
ghost use Rattle.buffer_redux.specs.MinBuffered.{min_read_rules};

use crate::policy::{DoRead, ReaderPolicy};
use redux_buffer::Buffer;
use std::io;

/// Reads until this many bytes are buffered, or the source gives none.
///
/// With 0 it never reads into the buffer. Where the capacity is too small for them it reserves what that lacks, which grows the
/// buffer once so much isn't usable; a growth that is refused is an `Err` of the kind that the
/// [`GrowError`](crate::GrowError) becomes, and leaves the buffer as it is. Else it makes room where that many bytes don't fit
/// behind those that are there and would fit then, or where nothing can be written.
///
/// With three times this number as its capacity, a plain buffer that was empty has moved since then no more bytes than the
/// reader was given, unless its owner makes room or peeks at more: see `play_sparing` of the crate `redux_play`.
///
/// ```
/// let slow = ScriptReader::new(alloc, b"abcdefgh", &[Answer::ServeEach(2)])?;
/// let mut reader = BufReader::new(alloc, Told::new(slow))?.set_policy(MinBuffered(5));
/// assert!(rt; reader.fill_buf()? == b"abcdef".as_slice());
/// ```
#[derive(Debug, Drop)]
pub struct MinBuffered(pub usize);

impl MinBuffered {
    /// Another number of bytes, from the next call on.
    pub fn set_min(&mut self, min: usize)
        ensures number { self.new ≡ record { 0 = min } }
    {
        self.0 = min;
    }
}

impl ReaderPolicy for MinBuffered {
    ghost rules = { min_read_rules };

    fn before_read(&mut self, buffer: &mut Buffer) -> io::Result<DoRead> {
        let min = self.0;
        if buffer.len() >= min {
            return Ok(DoRead(false));
        }
        let (capacity, usable) = (buffer.capacity(), buffer.usable_space());
        if capacity < min {
            buffer.reserve(min - capacity)?;
        } else if usable == 0 || (usable < min && buffer.free_space() >= min) {
            buffer.make_room();
        }
        Ok(DoRead(true))
    }

    fn after_consume(&mut self, _buffer: &mut Buffer, _amt: usize) {}
}
