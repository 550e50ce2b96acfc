//! Parts that are taken in together.
ghost use Rattle.std.specs.Prelude.{◌≡◌, ◌≤◌, [], length, map, min, OnErr, OnOk};
ghost use Rattle.std.specs.List.{concat};
ghost use Rattle.redux_buffer.specs.Block.{Extends, IsBlock, usable};
ghost use Rattle.buffer_redux.specs.BufWriter.{WritesInOrder};
ghost use Rattle.buffer_redux.specs.WriteParts.{MakesPlace, PutsIn, WritesParts};

use crate::buf_writer::BufWriter;
use crate::policy::StdPolicy;
use redux_buffer::Buffer;
use redux_buffer::tell::TellWrite;
use std::io;

impl<W: TellWrite> BufWriter<W, StdPolicy> {
    /// Takes the parts in, one behind another: all of them, or nothing. Where they don't fit behind what is buffered, that is
    /// sent before, and where they are more than the capacity, the buffer grows.
    ///
    /// An `Err` is that of the send; or the growth was refused, of the kind `InvalidInput` past the limit and `OutOfMemory` for
    /// want of memory. No part was taken in then.
    ///
    /// ```
    /// let mut writer = BufWriter::with_capacity(alloc, 4, Told::new(Vec::new(alloc)))?;
    /// writer.write_parts(&[b"$2", b"\r\n", b"hi"])?;
    /// assert!(rt; writer.buffer() == b"$2\r\nhi".as_slice());
    /// ```
    pub fn write_parts(&mut self, parts: &[&[u8]]) -> io::Result<()>
        ensures in_order { OnOk result (WritesInOrder self.old (concat (map (λ part. part.now) parts.now)) self.new) }
        ensures none { OnErr result (WritesInOrder self.old [] self.new) }
        ensures parts { WritesParts W.log W.trace self.old (concat (map (λ part. part.now) parts.now)) result self.new }
    {
        let len = total(parts);
        if self.buf.usable_space() >= len {
            append_parts(&mut self.buf, parts);
            return Ok(());
        }
        match self.make_place(len) {
            Ok(()) => {
                append_parts(&mut self.buf, parts);
                Ok(())
            }
            Err(e) => Err(e),
        }
    }

    /// Copies bytes in behind those that are buffered, where they fit in the usable space; all that is free is usable after
    /// [`make_room`](BufWriter::make_room). The inner writer isn't called.
    #[inline(always)]
    pub fn put(&mut self, bytes: &[u8])
        requires room { length bytes.now ≤ usable self.old.block }
        ensures added { Extends bytes.now self.old.block self.new.block }
        ensures put { PutsIn self.old bytes.now self.new }
    {
        self.buf.append(bytes);
    }

    // Sends all that is buffered, and then makes room for so many bytes.
    #[cold]
    #[inline(never)]
    fn make_place(&mut self, len: usize) -> io::Result<()>
        ensures { MakesPlace W.log W.trace len self.old result self.new }
    {
        if let Err(e) = self.send() {
            return Err(e);
        }
        match self.reserve(len) {
            Ok(()) => Ok(()),
            Err(e) => Err(io::Error::from(e)),
        }
    }
}

// Copies the parts in, for which there is room.
#[inline(always)]
fn append_parts(buf: &mut Buffer, parts: &[&[u8]])
    requires room { length (concat (map (λ part. part.now) parts.now)) ≤ usable buf.old }
    requires whole { IsBlock buf.old }
    ensures added { Extends (concat (map (λ part. part.now) parts.now)) buf.old buf.new }
    ensures whole { IsBlock buf.new }
{
    for part in parts {
        buf.append(part);
    }
}

// How many bytes the parts have, or the greatest number where that is more.
#[inline(always)]
fn total(parts: &[&[u8]]) -> usize
    ensures { result ≡ min (length (concat (map (λ part. part.now) parts.now))) 18446744073709551615 }
{
    let mut len: usize = 0;
    for part in parts {
        len = len.saturating_add(part.len());
    }
    len
}
