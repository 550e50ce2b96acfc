//! Replies.
ghost use Rattle.std.specs.Prelude.{decimal};
ghost use Rattle.std.specs.Fmt.{signed_decimal};
ghost use Rattle.buffer_redux.specs.WriteParts.{WritesParts};
ghost use Rattle.decoders.specs.TextWords.{bulk_string};
ghost use Rattle.resp.specs.Replies.{number_reply};

use buffer_redux::BufWriter;
use buffer_redux::tell::TellWrite;
use itoa::Buffer;
use std::io;

/// Writes all of these bytes, or none.
pub(crate) fn put<W: TellWrite>(writer: &mut BufWriter<W>, bytes: &[u8]) -> io::Result<()>
    ensures { WritesParts W.log W.trace writer.old bytes.now result writer.new }
{
    writer.write_parts(&[bytes])
}

/// Writes a bulk string.
pub(crate) fn put_bulk<W: TellWrite>(writer: &mut BufWriter<W>, bytes: &[u8]) -> io::Result<()>
    ensures { WritesParts W.log W.trace writer.old (bulk_string bytes.now) result writer.new }
{
    let mut buffer = Buffer::new();
    let len = buffer.format(bytes.len()).as_bytes();
    writer.write_parts(&[b"$", len, b"\r\n", bytes, b"\r\n"])
}

/// Writes how many there are.
pub(crate) fn put_count<W: TellWrite>(writer: &mut BufWriter<W>, count: usize) -> io::Result<()>
    ensures { WritesParts W.log W.trace writer.old (number_reply (decimal count)) result writer.new }
{
    let mut buffer = Buffer::new();
    put_number(writer, buffer.format(count).as_bytes())
}

/// Writes a number.
pub(crate) fn put_signed<W: TellWrite>(writer: &mut BufWriter<W>, number: i64) -> io::Result<()>
    ensures { WritesParts W.log W.trace writer.old (number_reply (signed_decimal number)) result writer.new }
{
    let mut buffer = Buffer::new();
    put_number(writer, buffer.format(number).as_bytes())
}

// Writes a number, of which these are the digits.
fn put_number<W: TellWrite>(writer: &mut BufWriter<W>, digits: &[u8]) -> io::Result<()>
    ensures { WritesParts W.log W.trace writer.old (number_reply digits.now) result writer.new }
{
    writer.write_parts(&[b":", digits, b"\r\n"])
}
