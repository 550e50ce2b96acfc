//! Cases of calls of std's that a `BufReader` has of its own, or that std makes of others. A line of such a case is as long as
//! its piece, and what is no line is counted by turns, each of which consumes a piece.
use crate::cases::{Case, Kind};
use crate::lines::{lines_to_end, until_end};
use crate::makers::{line_writer, std_line_writer, std_writer, writer};
use crate::streams::{Place, Sink};
use crate::whole::{format_often, turns};
use buffer_redux::tell::Told;
use buffer_redux::{BufReader, BufWriter, LineWriter};
use std::alloc::Global;
use std::io;
use std::io::{BufRead, Read, Seek, Write};

/// What is called again and again.
#[derive(Clone, Copy)]
pub enum Call {
    /// Reads lines into a vector that is used again.
    ReadUntil,
    /// Skips lines.
    SkipUntil,
    /// Reads lines into a string that is used again.
    ReadLine,
    /// Goes over `lines`.
    LinesOf,
    /// Goes over `split`.
    Split,
    /// Goes over each byte.
    Bytes,
    /// Fills the buffer and seeks on by a piece, until it stays empty.
    Onward,
    /// Fills the buffer, asks where it stands and consumes a piece, until it stays empty.
    Positions,
    /// Looks at eight bytes ahead and consumes a piece, until there is none.
    Peek,
    /// Writes each byte by a `write_all` of its own, and flushes.
    WriteBytes,
    /// Writes short lines by `write!` to a writer that is named, and flushes.
    Format,
    /// The same to a line writer.
    FormatLines,
}

impl Call {
    /// Whether lines are read by it.
    pub fn takes_lines(self) -> bool {
        matches!(
            self,
            Call::ReadUntil | Call::SkipUntil | Call::ReadLine | Call::LinesOf | Call::Split
        )
    }
}

type Reader<'a> = BufReader<Told<Place<'a>>>;

fn place(bytes: &[u8]) -> Place<'_> {
    Place { all: bytes, at: 0 }
}

/// Runs such a case over a plain buffer, or over std's.
pub fn calls(alloc: Global, case: &Case, call: Call, bytes: &[u8]) -> io::Result<u64> {
    match call {
        Call::WriteBytes | Call::Format | Call::FormatLines => writes(alloc, case, call, bytes),
        _ => reads(alloc, case, call, bytes),
    }
}

fn writes(alloc: Global, case: &Case, call: Call, bytes: &[u8]) -> io::Result<u64> {
    let total = bytes.len() as u64;
    match (call, case.kind) {
        (Call::WriteBytes, Kind::Std) => write_bytes(std_writer(alloc, case.capacity)?, bytes),
        (Call::WriteBytes, _) => write_bytes(writer(alloc, case, case.capacity)?, bytes),
        (Call::Format, Kind::Std) => format_often(std_writer(alloc, case.capacity)?, total),
        (Call::Format, _) => own_format(writer(alloc, case, case.capacity)?, total),
        (_, Kind::Std) => format_often(std_line_writer(alloc, case.capacity)?, total),
        _ => own_format_lines(line_writer(alloc, case)?, total),
    }
}

fn reads(alloc: Global, case: &Case, call: Call, bytes: &[u8]) -> io::Result<u64> {
    match case.kind {
        Kind::Std => {
            let reader = io::BufReader::with_capacity(alloc, case.capacity, place(bytes))?;
            std_calls(alloc, case, call, reader)
        }
        _ => {
            let inner = Told::new(place(bytes));
            own_calls(
                alloc,
                case,
                call,
                BufReader::with_capacity(alloc, case.capacity, inner)?,
            )
        }
    }
}

fn own_calls(alloc: Global, case: &Case, call: Call, reader: Reader<'_>) -> io::Result<u64> {
    match call {
        Call::ReadUntil => own_until_end(alloc, reader),
        Call::SkipUntil => own_skip_to_end(reader),
        Call::ReadLine => own_line_by_line(alloc, reader),
        Call::LinesOf => own_lines_to_end(alloc, reader),
        Call::Split => own_split_to_end(alloc, reader),
        Call::Bytes => own_bytes_to_end(reader),
        Call::Onward => onward(reader, case.piece),
        Call::Peek => peeks(reader, case.piece),
        _ => provided(alloc, case, call, reader),
    }
}

fn std_calls(
    alloc: Global,
    case: &Case,
    call: Call,
    reader: io::BufReader<Place<'_>>,
) -> io::Result<u64> {
    match call {
        Call::ReadUntil => until_end(alloc, reader),
        Call::SkipUntil => skip_to_end(reader),
        Call::Onward => std_onward(reader, case.piece),
        _ => provided(alloc, case, call, reader),
    }
}

// Calls that are std's in either reader.
fn provided<R: BufRead + Seek + Drop>(
    alloc: Global,
    case: &Case,
    call: Call,
    reader: R,
) -> io::Result<u64> {
    match call {
        Call::ReadLine => line_by_line(alloc, reader),
        Call::Bytes => bytes_to_end(reader),
        Call::LinesOf => lines_to_end(alloc, reader),
        Call::Split => split_to_end(alloc, reader),
        Call::Positions => positions(reader, case.piece),
        _ => Ok(0),
    }
}

#[inline(never)]
fn own_until_end(alloc: Global, reader: Reader<'_>) -> io::Result<u64> {
    let mut reader = reader;
    let mut line = Vec::new(alloc);
    let mut total = 0u64;
    for _ in 0..u64::MAX {
        line.clear();
        let n = reader.read_until(b'\n', &mut line)?;
        if n == 0 {
            break;
        }
        total = total.wrapping_add(n as u64);
    }
    Ok(total)
}

#[inline(never)]
fn own_skip_to_end(reader: Reader<'_>) -> io::Result<u64> {
    let mut reader = reader;
    let mut total = 0u64;
    for _ in 0..u64::MAX {
        let n = reader.skip_until(b'\n')?;
        if n == 0 {
            break;
        }
        total = total.wrapping_add(n as u64);
    }
    Ok(total)
}

#[inline(never)]
fn skip_to_end<R: BufRead + Drop>(reader: R) -> io::Result<u64> {
    let mut reader = reader;
    let mut total = 0u64;
    for _ in 0..u64::MAX {
        let n = reader.skip_until(b'\n')?;
        if n == 0 {
            break;
        }
        total = total.wrapping_add(n as u64);
    }
    Ok(total)
}

#[inline(never)]
fn own_line_by_line(alloc: Global, reader: Reader<'_>) -> io::Result<u64> {
    let mut reader = reader;
    let mut line = String::new(alloc);
    let mut total = 0u64;
    for _ in 0..u64::MAX {
        line.clear();
        let n = reader.read_line(&mut line)?;
        if n == 0 {
            break;
        }
        total = total.wrapping_add(n as u64);
    }
    Ok(total)
}

#[inline(never)]
fn line_by_line<R: BufRead + Drop>(alloc: Global, reader: R) -> io::Result<u64> {
    let mut reader = reader;
    let mut line = String::new(alloc);
    let mut total = 0u64;
    for _ in 0..u64::MAX {
        line.clear();
        let n = reader.read_line(&mut line)?;
        if n == 0 {
            break;
        }
        total = total.wrapping_add(n as u64);
    }
    Ok(total)
}

// How long lines or pieces are in all, which lack their ends. A call that a type has itself is taken only where the type is
// named, so such a loop stands in a function for each type.
macro_rules! length_of {
    ($pieces:expr) => {{
        let mut total = 0u64;
        for piece in $pieces {
            total = total.wrapping_add(piece?.len() as u64).wrapping_add(1);
        }
        Ok(total)
    }};
}

#[inline(never)]
fn own_lines_to_end(alloc: Global, reader: Reader<'_>) -> io::Result<u64> {
    length_of!(reader.lines(alloc))
}

#[inline(never)]
fn own_split_to_end(alloc: Global, reader: Reader<'_>) -> io::Result<u64> {
    length_of!(reader.split(alloc, b'\n'))
}

#[inline(never)]
fn split_to_end<R: BufRead + Drop>(alloc: Global, reader: R) -> io::Result<u64> {
    length_of!(reader.split(alloc, b'\n'))
}

// The bytes are added up, so that no compiler leaves them out.
#[inline(never)]
fn bytes_to_end<R: Read + Drop>(reader: R) -> io::Result<u64> {
    let mut total = 0u64;
    let mut sum = 0u8;
    for byte in reader.bytes() {
        sum = sum.wrapping_add(byte?);
        total = total.wrapping_add(1);
    }
    Ok(total.wrapping_add(u64::from(sum == 255)))
}

#[inline(never)]
fn own_bytes_to_end(reader: Reader<'_>) -> io::Result<u64> {
    let mut reader = reader;
    let mut total = 0u64;
    let mut sum = 0u8;
    for _ in 0..u64::MAX {
        match reader.read_byte()? {
            Some(byte) => sum = sum.wrapping_add(byte),
            None => break,
        }
        total = total.wrapping_add(1);
    }
    Ok(total.wrapping_add(u64::from(sum == 255)))
}

// By a piece, as long as there is one.
fn step(piece: usize) -> i64 {
    (piece & 65535) as i64
}

#[inline(never)]
fn onward(reader: Reader<'_>, piece: usize) -> io::Result<u64> {
    let mut reader = reader;
    let mut turns = 0u64;
    for _ in 0..u64::MAX {
        if reader.fill_buf()?.is_empty() {
            break;
        }
        reader.seek_relative(step(piece))?;
        turns = turns.wrapping_add(1);
    }
    Ok(turns)
}

#[inline(never)]
fn std_onward(reader: io::BufReader<Place<'_>>, piece: usize) -> io::Result<u64> {
    let mut reader = reader;
    let mut turns = 0u64;
    for _ in 0..u64::MAX {
        if reader.fill_buf()?.is_empty() {
            break;
        }
        reader.seek_relative(step(piece))?;
        turns = turns.wrapping_add(1);
    }
    Ok(turns)
}

// How many bytes are looked at.
const AHEAD: usize = 8;

#[inline(never)]
fn peeks(reader: Reader<'_>, piece: usize) -> io::Result<u64> {
    let mut reader = reader;
    let mut turns = 0u64;
    let mut sum = 0u8;
    for _ in 0..u64::MAX {
        match reader.peek(AHEAD)?.first() {
            Some(first) => sum = sum.wrapping_add(*first),
            None => break,
        }
        reader.consume(piece);
        turns = turns.wrapping_add(1);
    }
    Ok(turns.wrapping_add(u64::from(sum == 255)))
}

// The places are added up, so that no compiler leaves them out.
#[inline(never)]
fn positions<R: BufRead + Seek + Drop>(reader: R, piece: usize) -> io::Result<u64> {
    let mut reader = reader;
    let mut turns = 0u64;
    let mut sum = 0u64;
    for _ in 0..u64::MAX {
        if reader.fill_buf()?.is_empty() {
            break;
        }
        sum = sum.wrapping_add(reader.stream_position()?);
        reader.consume(piece);
        turns = turns.wrapping_add(1);
    }
    Ok(turns.wrapping_add(u64::from(sum == 255)))
}

#[inline(never)]
fn write_bytes<W: Write + Drop>(writer: W, bytes: &[u8]) -> io::Result<u64> {
    let mut writer = writer;
    let mut total = 0u64;
    for byte in bytes {
        writer.write_all(&[*byte])?;
        total = total.wrapping_add(1);
    }
    writer.flush()?;
    Ok(total)
}

// The line of `format_often` again and again.
macro_rules! write_lines {
    ($writer:ident, $least:ident) => {{
        let mut writer = $writer;
        let name = "value";
        let turns = turns($least, 21);
        for at in 0..turns {
            let number = 1000000u64.wrapping_add(at);
            write!(writer, "{name} {number}: {name}\n")?;
        }
        writer.flush()?;
        Ok(turns.wrapping_mul(21))
    }};
}

#[inline(never)]
fn own_format(writer: BufWriter<Told<Sink>>, least: u64) -> io::Result<u64> {
    write_lines!(writer, least)
}

#[inline(never)]
fn own_format_lines(writer: LineWriter<Told<Sink>>, least: u64) -> io::Result<u64> {
    write_lines!(writer, least)
}
