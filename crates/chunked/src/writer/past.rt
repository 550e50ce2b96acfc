//! Writes of what doesn't fit behind what is buffered, and of what goes on in a chunk.
ghost use Rattle.std.specs.Prelude.{◌≡◌, ◌^◌, ◌<◌, ◌≤◌, ◌+◌, ◌⊎◌, length};
ghost use Rattle.std.specs.Io.{WritesAtMost};
ghost use Rattle.buffer_redux.specs.WriteParts.{room};
ghost use Rattle.chunked.specs.ChunkedWriter.{CopiesSizeLine, IsChunkedWriter, WentOn, WritesChunk, around};

use crate::chunk::{AROUND, end_chunk, make_space, put_chunk, put_line, take_part};
use crate::writer::ChunkedWriter;
use buffer_redux::tell::{Call, TellWrite};
use std::io;

// The most bytes of payload that a chunk may have.
const MAX_SIZE: usize = (1 << 62) - 1;

impl<W: TellWrite> ChunkedWriter<W> {
    // Inlined, so that the compiler clears its answer only behind the tests of `write`.
    #[inline(always)]
    pub(super) fn write_apart(&mut self, payload: &[u8]) -> io::Result<usize>
        requires some { 0 < length payload.now }
        requires outside { (0 < self.old.due) ⊎ (room self.old.writer < around + length payload.now) }
        ensures bound { WritesAtMost result payload.now }
        ensures writes { WritesChunk W.log W.trace self.old payload.now result self.new }
    {
        match self.write_cold(payload) {
            Ok(count) => Ok(count),
            Err(e) => Err(e),
        }
    }

    #[cold]
    #[inline(never)]
    fn write_cold(&mut self, payload: &[u8]) -> io::Result<usize>
        requires some { 0 < length payload.now }
        requires outside { (0 < self.old.due) ⊎ (room self.old.writer < around + length payload.now) }
        ensures bound { WritesAtMost result payload.now }
        ensures writes { WritesChunk W.log W.trace self.old payload.now result self.new }
    {
        if self.due > 0 {
            return self.go_on(payload);
        }
        if AROUND + payload.len() <= self.writer.capacity() {
            return self.send_first(payload);
        }
        match self.begin(payload.len().min(MAX_SIZE)) {
            Ok(()) => self.go_on(payload),
            Err(e) => Err(e),
        }
    }

    // Sends all that is buffered, and takes the payload's chunk in.
    fn send_first(&mut self, payload: &[u8]) -> io::Result<usize>
        requires some { 0 < length payload.now }
        requires between { self.old.due ≡ 0 }
        requires full { room self.old.writer < around + length payload.now }
        requires fits { around + length payload.now ≤ self.old.writer.block.capacity }
        ensures bound { WritesAtMost result payload.now }
        ensures writes { WritesChunk W.log W.trace self.old payload.now result self.new }
    {
        match self.writer.send() {
            Ok(()) => {
                put_chunk(&mut self.writer, &mut self.wire, payload);
                self.calls.note(&Call::Write(payload, &Ok(payload.len())));
                Ok(payload.len())
            }
            Err(e) => Err(e),
        }
    }

    // Begins a chunk of so many bytes: its line goes in.
    fn begin(&mut self, size: usize) -> io::Result<()>
        requires some { 0 < size }
        requires small { size < 2 ^ 62 }
        requires between { self.old.due ≡ 0 }
        ensures begins { CopiesSizeLine W.log W.trace size self.old result self.new }
        ensures whole { IsChunkedWriter self.new }
    {
        match make_space(&mut self.writer, AROUND) {
            Ok(()) => {
                put_line(&mut self.writer, &mut self.wire, size as u64);
                self.due = size;
                Ok(())
            }
            Err(e) => Err(e),
        }
    }

    // Goes on in the chunk that was begun, and ends it behind the last byte.
    fn go_on(&mut self, payload: &[u8]) -> io::Result<usize>
        requires within { 0 < self.old.due }
        ensures bound { WritesAtMost result payload.now }
        ensures went { WentOn W.log W.trace self.old payload.now result self.new }
    {
        let part = &payload[..payload.len().min(self.due)];
        match take_part(&mut self.writer, &mut self.wire, part) {
            Ok(count) => {
                self.calls.note(&Call::Write(payload, &Ok(count)));
                self.due -= count;
                end_chunk(&mut self.writer, &mut self.wire, self.due);
                Ok(count)
            }
            Err(e) => Err(e),
        }
    }
}
