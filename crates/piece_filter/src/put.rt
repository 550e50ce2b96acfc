//! Bytes that are taken in, all of them or none.
ghost use Rattle.std.specs.Prelude.{◌+◌, ◌<◌, ◌≤◌, [], ◌++◌, length, OnErr, OnOk};
ghost use Rattle.std.specs.Bool.{OnFalse, OnTrue};
ghost use Rattle.buffer_redux.specs.BufWriter.{WritesInOrder};
ghost use Rattle.piece_filter.specs.Puts.{Puts};

use buffer_redux::BufWriter;
use buffer_redux::tell::TellWrite;
use std::io;

/// Takes in the first bytes, and then the second: all of them, or nothing. Where they don't fit behind what is buffered, that is
/// sent before, once, and only where they are more than the capacity, the buffer grows, within its limit. Nothing is flushed.
///
/// An `Err` is that of the send, or the growth was refused, where nothing is buffered any more. It leaves the capacity as it was.
pub fn put_both<W: TellWrite>(
    writer: &mut BufWriter<W>,
    first: &[u8],
    second: &[u8],
) -> io::Result<()>
    ensures in_order { OnOk result (WritesInOrder writer.old (first.now ++ second.now) writer.new) }
    ensures none { OnErr result (WritesInOrder writer.old [] writer.new) }
    ensures puts { Puts writer.old (first.now ++ second.now) result writer.new }
{
    if lacks_room(writer, first.len(), second.len()) {
        if let Err(e) = writer.send() {
            return Err(e);
        }
    }
    writer.make_room();
    writer.write_parts(&[first, second])
}

// Whether so many bytes, and then so many, don't fit behind what is buffered, once that stands at the front.
#[inline(always)]
fn lacks_room<W: TellWrite>(writer: &BufWriter<W>, first: usize, second: usize) -> bool
    ensures fits { OnFalse result (length writer.now.block.bytes + (first + second) ≤ writer.now.block.capacity) }
    ensures full { OnTrue result (writer.now.block.capacity < length writer.now.block.bytes + (first + second)) }
{
    let room = writer.capacity() - writer.buf_len();
    room < first || room - first < second
}
