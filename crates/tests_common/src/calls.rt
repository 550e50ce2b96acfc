//! The calls of std on any stream. They promise nothing, since a test looks at each answer itself, and its proof is the shorter.
use std::io;
use std::io::{BufRead, ErrorKind, Read, Seek, SeekFrom, Write};

/// One read into these bytes.
pub fn read<R: Read>(reader: &mut R, out: &mut [u8]) -> io::Result<usize> {
    reader.read(out)
}

/// What is read to the end, behind what is there.
pub fn read_to_end<R: Read>(reader: &mut R, out: &mut Vec<u8>) -> io::Result<usize> {
    reader.read_to_end(out)
}

/// What a fill shows.
pub fn fill_buf<R: BufRead>(reader: &mut R) -> io::Result<&[u8]> {
    reader.fill_buf()
}

/// Drops so many bytes of what is buffered.
pub fn consume<R: BufRead>(reader: &mut R, amount: usize) {
    reader.consume(amount);
}

/// One write of these bytes.
pub fn write<W: Write>(writer: &mut W, bytes: &[u8]) -> io::Result<usize> {
    writer.write(bytes)
}

/// A write of all of these bytes.
pub fn write_all<W: Write>(writer: &mut W, bytes: &[u8]) -> io::Result<()> {
    writer.write_all(bytes)
}

/// A flush.
pub fn flush<W: Write>(writer: &mut W) -> io::Result<()> {
    writer.flush()
}

/// A seek to this place.
pub fn seek<S: Seek>(stream: &mut S, to: SeekFrom) -> io::Result<u64> {
    stream.seek(to)
}

/// An answer, of whose error only the kind is looked at.
pub fn kind<T>(answer: io::Result<T>) -> Result<T, ErrorKind> {
    match answer {
        Ok(value) => Ok(value),
        Err(e) => Err(e.kind()),
    }
}
