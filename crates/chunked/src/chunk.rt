//! What a chunk is made of, and how it goes into a buffered writer.
ghost use Rattle.std.specs.Prelude.{◌≡◌, ◌^◌, ◌<◌, ◌≤◌, ◌+◌, ◌-◌, ◌++◌, [], drop, length};
ghost use Rattle.std.specs.Io.{WritesAtMost};
ghost use Rattle.buffer_redux.specs.Block.{usable};
ghost use Rattle.buffer_redux.specs.StreamLog.{portion};
ghost use Rattle.buffer_redux.specs.WriteParts.{PutsIn, room};
ghost use Rattle.chunked.specs.Body.{line_end};
ghost use Rattle.chunked.specs.Chunk.{chunk, chunk_begun, chunk_end, size_digits};
ghost use Rattle.chunked.specs.ChunkedWriter.{MakesSpace, TakesSome, around};

use buffer_redux::BufWriter;
use buffer_redux::tell::{Call, CallLog, TellWrite};
use std::io;

const DIGITS: &[u8; 16] = b"0123456789abcdef";

// The most digits of a size.
const MAX_DIGITS: usize = 16;

const BLANK: [u8; 18] = *b"0000000000000000\r\n";

/// The most bytes of a chunk that are no payload: a size of 16 digits, and the ends of two lines.
pub(crate) const AROUND: usize = 20;

// The line of a size: its digits end at `MAX_DIGITS`, and the end of the line follows them.
#[derive(Drop)]
struct SizeLine {
    bytes: [u8; 18],
    start: usize,
    ghost in_range: { start ≤ 16 },
}

impl SizeLine {
    // The line of this size, which isn't 0.
    fn new(size: u64) -> SizeLine
        requires { size < 2 ^ 62 }
        ensures { drop result.start result.bytes ≡ size_digits size ++ line_end [] }
    {
        let mut bytes = BLANK;
        let mut start = MAX_DIGITS;
        let mut left = size;
        while left > 0 {
            start -= 1;
            bytes[start] = DIGITS[(left % 16) as usize];
            left /= 16;
        }
        SizeLine { bytes, start }
    }

    fn as_bytes(&self) -> &[u8]
        ensures { result.now ≡ drop self.now.start self.now.bytes }
    {
        &self.bytes[self.start..]
    }
}

/// Sends all that is buffered, without a flush of the inner writer, where fewer bytes than these fit behind it.
#[inline(always)]
pub(crate) fn make_space<W: TellWrite>(writer: &mut BufWriter<W>, bytes: usize) -> io::Result<()>
    ensures { MakesSpace W.log W.trace bytes writer.old result writer.new }
{
    if writer.capacity() - writer.buf_len() < bytes {
        return writer.send();
    }
    Ok(())
}

/// Copies bytes in, for which there is room, and notes them.
#[inline(always)]
pub(crate) fn put<W: TellWrite>(writer: &mut BufWriter<W>, wire: &mut CallLog, bytes: &[u8])
    requires { length bytes.now ≤ usable writer.old.block }
    ensures wire { wire.new.log.writes.received ≡ wire.old.log.writes.received ++ bytes.now }
    ensures put { PutsIn writer.old bytes.now writer.new }
    ensures usable { usable writer.new.block ≡ usable writer.old.block - length bytes.now }
{
    writer.put(bytes);
    wire.note(&Call::Write(bytes, &Ok(bytes.len())));
}

/// Copies the payload's chunk in, for which there is room, and notes it.
#[inline(always)]
pub(crate) fn put_chunk<W: TellWrite>(writer: &mut BufWriter<W>, wire: &mut CallLog, payload: &[u8])
    requires some { 0 < length payload.now }
    requires small { length payload.now < 2 ^ 62 }
    requires room { around + length payload.now ≤ room writer.old }
    ensures wire { wire.new.log.writes.received ≡ wire.old.log.writes.received ++ chunk payload.now }
    ensures put { PutsIn writer.old (chunk payload.now) writer.new }
{
    let line = SizeLine::new(payload.len() as u64);
    writer.make_room();
    put(writer, wire, line.as_bytes());
    put(writer, wire, payload);
    put(writer, wire, b"\r\n");
}

/// Copies the line of a chunk of so many bytes in, for which there is room, and notes it.
pub(crate) fn put_line<W: TellWrite>(writer: &mut BufWriter<W>, wire: &mut CallLog, size: u64)
    requires small { size < 2 ^ 62 }
    requires room { around ≤ room writer.old }
    ensures wire { wire.new.log.writes.received ≡ wire.old.log.writes.received ++ chunk_begun size [] }
    ensures put { PutsIn writer.old (chunk_begun size []) writer.new }
{
    let line = SizeLine::new(size);
    writer.make_room();
    put(writer, wire, line.as_bytes());
}

// Takes bytes of a payload in: into the buffer where they and the end of a line fit there, what it holds being sent first where
// they don't fit behind that; and else past it, by one write.
fn take<W: TellWrite>(writer: &mut BufWriter<W>, part: &[u8]) -> io::Result<usize>
    ensures bound { WritesAtMost result part.now }
    ensures takes { TakesSome W.log W.trace writer.old part.now result writer.new }
{
    match make_space(writer, part.len() + 2) {
        Ok(()) => {
            if writer.capacity() - writer.buf_len() < part.len() + 2 {
                return writer.get_mut().write_told(part);
            }
            writer.make_room();
            writer.put(part);
            Ok(part.len())
        }
        Err(e) => Err(e),
    }
}

/// Takes bytes of a payload in, and notes what was taken.
pub(crate) fn take_part<W: TellWrite>(
    writer: &mut BufWriter<W>,
    wire: &mut CallLog,
    part: &[u8],
) -> io::Result<usize>
    ensures bound { WritesAtMost result part.now }
    ensures takes { TakesSome W.log W.trace writer.old part.now result writer.new }
    ensures wire { wire.new.log.writes.received ≡ wire.old.log.writes.received ++ portion part.now result }
{
    let answer = take(writer, part);
    wire.note(&Call::Write(part, &answer));
    answer
}

/// Copies the end of the line behind a payload in, for which there is room, where no byte of it is due.
pub(crate) fn end_chunk<W: TellWrite>(writer: &mut BufWriter<W>, wire: &mut CallLog, due: usize)
    requires room { 2 ≤ room writer.old }
    ensures wire { wire.new.log.writes.received ≡ wire.old.log.writes.received ++ chunk_end due }
    ensures put { PutsIn writer.old (chunk_end due) writer.new }
{
    let _ = writer.capacity();
    if due == 0 {
        writer.make_room();
        put(writer, wire, b"\r\n");
    }
}
