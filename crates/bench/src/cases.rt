//! What is measured, and over which types.
use crate::bodies::{bodies, write_bodies};
use crate::calls::{Call, calls};
use crate::frames::{frames, write_frames};
use crate::heads::heads;
use crate::lines::{lines_to_end, next_to_end, trimmed_to_end, until_end};
use crate::makers::{
    block, line_reader, line_writer, looking, reader, std_line_writer, std_packets, std_reader,
    std_writer, told, writer,
};
use crate::parts::parts;
use crate::streams::Packets;
use crate::whole::{each_byte, exact_to_end, format_often, turns, write_all_often};
use buffer_redux::tell::{TellBufRead, TellRead, TellWrite, Told};
use buffer_redux::{BufImpl, copy_buf};
use std::alloc::Global;
use std::io;
use std::io::{BufRead, Read, Write};

/// What is done.
#[derive(Clone, Copy)]
pub enum Shape {
    /// Reads into a slice until nothing comes.
    Read,
    /// Fills the buffer and consumes a piece of it, until it stays empty.
    Fill,
    /// The same with at least `LEAST` bytes shown, as long as there are so many.
    Look,
    /// The same from a stream that gives a piece a call, with 100 bytes consumed at a time.
    Packets,
    /// Writes the same bytes again and again, and flushes.
    Write,
    /// Writes a line of the piece's length again and again to a line writer, and flushes.
    Lines,
    /// Copies from a reader to a writer whose capacity is the piece, and flushes.
    Copy,
    /// The same by one call of `copy_buf`.
    CopyBuf,
    /// Fills a buffer and lets it grow by a piece, again and again.
    Grow,
    /// Reads a byte a call.
    Byte,
    /// Reads words of 8 bytes by `read_exact`.
    Exact,
    /// Writes the same bytes again and again by `write_all`, and flushes.
    WriteAll,
    /// Writes short lines by `write!`, and flushes.
    Format,
    /// The same to a line writer.
    FormatLines,
    /// Fills the buffer once, and reads what is left in an `Unbuffer` in pieces.
    Unbuffer,
    /// Reads lines.
    Next,
    /// Reads lines without the carriage returns before their ends.
    NextTrimmed,
    /// Reads frames.
    Frames,
    /// Writes the same frame again and again, and flushes.
    WriteFrames,
    /// Reads a body in the chunked coding.
    Bodies,
    /// Writes chunks of the same payload again and again, ends the body, and flushes.
    WriteBodies,
    /// Reads heads of requests.
    Heads,
    /// Reads the text of each part of a multipart body into a slice.
    ReadParts,
    /// The same, lent out of the buffer.
    FillParts,
    /// One of the calls that std's types have.
    Call(Call),
}

/// Each shape by its name, with the capacity and the piece of a case of it on few bytes.
pub static SHAPES: [(&str, Shape, usize, usize); 36] = [
    ("read", Shape::Read, 8192, 64),
    ("fill", Shape::Fill, 8192, 100),
    ("look", Shape::Look, 16384, 100),
    ("packets", Shape::Packets, 8192, 512),
    ("write", Shape::Write, 8192, 100),
    ("lines", Shape::Lines, 8192, 80),
    ("copy", Shape::Copy, 4096, 8192),
    ("copy_buf", Shape::CopyBuf, 4096, 8192),
    ("grow", Shape::Grow, 4096, 4096),
    ("byte", Shape::Byte, 8192, 1),
    ("exact", Shape::Exact, 8192, 8),
    ("write_all", Shape::WriteAll, 8192, 100),
    ("format", Shape::Format, 8192, 21),
    ("format_lines", Shape::FormatLines, 8192, 21),
    ("unbuffer", Shape::Unbuffer, 40000, 64),
    ("next", Shape::Next, 80, 512),
    ("next_trimmed", Shape::NextTrimmed, 80, 512),
    ("frames", Shape::Frames, 8192, 64),
    ("write_frames", Shape::WriteFrames, 8192, 64),
    ("bodies", Shape::Bodies, 8192, 1000),
    ("write_bodies", Shape::WriteBodies, 8192, 1000),
    ("heads", Shape::Heads, 2000, 100),
    ("read_parts", Shape::ReadParts, 8192, 100),
    ("fill_parts", Shape::FillParts, 8192, 100),
    ("read_until", Shape::Call(Call::ReadUntil), 8192, 80),
    ("skip_until", Shape::Call(Call::SkipUntil), 8192, 80),
    ("read_line", Shape::Call(Call::ReadLine), 8192, 80),
    ("lines_of", Shape::Call(Call::LinesOf), 8192, 80),
    ("split", Shape::Call(Call::Split), 8192, 80),
    ("bytes", Shape::Call(Call::Bytes), 8192, 1),
    ("onward", Shape::Call(Call::Onward), 8192, 64),
    ("positions", Shape::Call(Call::Positions), 8192, 64),
    ("peek", Shape::Call(Call::Peek), 8192, 64),
    ("write_bytes", Shape::Call(Call::WriteBytes), 8192, 1),
    ("own_format", Shape::Call(Call::Format), 8192, 21),
    ("own_format_lines", Shape::Call(Call::FormatLines), 8192, 21),
];

impl Shape {
    pub fn named(word: &str) -> Option<Shape> {
        for (name, shape, _capacity, _piece) in &SHAPES {
            if *name == word {
                return Some(*shape);
            }
        }
        None
    }
}

/// Over which types: the two buffers of this project, or std's own.
#[derive(Clone, Copy)]
pub enum Kind {
    Plain,
    Ring,
    Std,
}

impl Kind {
    pub fn named(word: &str) -> Option<Kind> {
        match word {
            "plain" => Some(Kind::Plain),
            "ring" => Some(Kind::Ring),
            "std" => Some(Kind::Std),
            _ => None,
        }
    }
}

/// One case: the capacity of the buffer, and the length of what a call asks for, in bytes.
#[derive(Clone, Copy)]
pub struct Case {
    pub shape: Shape,
    pub kind: Kind,
    pub capacity: usize,
    pub piece: usize,
}

impl Case {
    /// The stream of packets of such a case.
    pub fn packets<'a>(&self, bytes: &'a [u8]) -> Packets<'a> {
        Packets {
            left: bytes,
            most: self.piece,
        }
    }
}

/// How many bytes a case of packets consumes at a time.
const CONSUMED: usize = 100;

/// Runs a case over these bytes, and returns how many went over: 0 where there is no such reader or writer. What is counted
/// is what goes on in here.
#[inline(never)]
pub fn measured(alloc: Global, case: &Case, bytes: &[u8]) -> io::Result<u64> {
    match case.kind {
        Kind::Plain => over_plain(alloc, case, bytes),
        Kind::Ring => over_either(alloc, case, bytes),
        Kind::Std => over_std(alloc, case, bytes),
    }
}

// Lines, frames, bodies, heads, parts and calls of std's have no ring.
fn over_plain(alloc: Global, case: &Case, bytes: &[u8]) -> io::Result<u64> {
    match case.shape {
        Shape::Call(call) => calls(alloc, case, call, bytes),
        Shape::Next => next_to_end(line_reader(alloc, case, bytes)?),
        Shape::NextTrimmed => trimmed_to_end(line_reader(alloc, case, bytes)?),
        Shape::Frames => frames(alloc, case, bytes),
        Shape::WriteFrames => write_frames(alloc, case, bytes),
        Shape::Bodies => bodies(alloc, case, bytes),
        Shape::WriteBodies => write_bodies(alloc, case, bytes),
        Shape::Heads => heads(alloc, case, bytes),
        Shape::ReadParts | Shape::FillParts => parts(alloc, case, bytes),
        _ => over_either(alloc, case, bytes),
    }
}

fn over_either(alloc: Global, case: &Case, bytes: &[u8]) -> io::Result<u64> {
    match case.shape {
        Shape::Read | Shape::Byte | Shape::Exact | Shape::Fill => {
            reads(alloc, case, bytes.len(), reader(alloc, case, told(bytes))?)
        }
        Shape::Write | Shape::WriteAll | Shape::Format => {
            writes(case, bytes, writer(alloc, case, case.capacity)?)
        }
        Shape::Lines | Shape::FormatLines => writes(case, bytes, line_writer(alloc, case)?),
        _ => over_either_alone(alloc, case, bytes),
    }
}

// What no buffer of std's does so.
fn over_either_alone(alloc: Global, case: &Case, bytes: &[u8]) -> io::Result<u64> {
    match case.shape {
        Shape::Look => looks(alloc, case, told(bytes), case.piece),
        Shape::Packets => looks(alloc, case, Told::new(case.packets(bytes)), CONSUMED),
        Shape::Unbuffer => unbuffers(alloc, case, told(bytes)),
        Shape::Copy | Shape::CopyBuf => copies(alloc, case, reader(alloc, case, told(bytes))?),
        Shape::Grow => grow_often(block(alloc, case)?, case.piece, bytes.len()),
        _ => Ok(0),
    }
}

// No policy of std's looks ahead, its `copy` goes through a block of its own, and no buffer of its grows.
fn over_std(alloc: Global, case: &Case, bytes: &[u8]) -> io::Result<u64> {
    match case.shape {
        Shape::Read | Shape::Byte | Shape::Exact | Shape::Fill => {
            reads(
                alloc,
                case,
                bytes.len(),
                std_reader(alloc, case.capacity, bytes)?,
            )
        }
        Shape::Write | Shape::WriteAll | Shape::Format => {
            writes(case, bytes, std_writer(alloc, case.capacity)?)
        }
        Shape::Lines | Shape::FormatLines => {
            writes(case, bytes, std_line_writer(alloc, case.capacity)?)
        }
        Shape::Call(call) => calls(alloc, case, call, bytes),
        Shape::Copy => std_copies(alloc, case, std_reader(alloc, case.capacity, bytes)?),
        Shape::Next | Shape::NextTrimmed => std_lines(
            alloc,
            case,
            std_packets(alloc, case, bytes)?,
        ),
        _ => Ok(0),
    }
}

fn std_lines<R: BufRead + Drop>(alloc: Global, case: &Case, reader: R) -> io::Result<u64> {
    match case.shape {
        Shape::NextTrimmed => lines_to_end(alloc, reader),
        _ => until_end(alloc, reader),
    }
}

fn reads<R: BufRead + Drop>(
    alloc: Global,
    case: &Case,
    total: usize,
    reader: R,
) -> io::Result<u64> {
    match case.shape {
        Shape::Byte => each_byte(reader),
        Shape::Exact => exact_to_end(reader, total as u64),
        Shape::Fill => fill_to_end(reader, case.piece),
        _ => read_pieces(alloc, case, reader),
    }
}

fn read_pieces<R: Read + Drop>(alloc: Global, case: &Case, reader: R) -> io::Result<u64> {
    let mut out = vec![in alloc; 0u8; case.piece]?;
    read_to_end(reader, out.as_mut_slice())
}

fn writes<W: Write + Drop>(case: &Case, bytes: &[u8], writer: W) -> io::Result<u64> {
    let total = bytes.len() as u64;
    let piece = &bytes[..case.piece.min(bytes.len())];
    match case.shape {
        Shape::Format | Shape::FormatLines => format_often(writer, total),
        Shape::WriteAll => write_all_often(writer, piece, total),
        _ => write_often(writer, piece, total),
    }
}

fn looks<R: TellRead + Drop>(
    alloc: Global,
    case: &Case,
    inner: R,
    piece: usize,
) -> io::Result<u64> {
    fill_to_end(looking(alloc, case, inner)?, piece)
}

fn unbuffers<R: TellRead + Drop>(alloc: Global, case: &Case, inner: R) -> io::Result<u64> {
    let mut reader = reader(alloc, case, inner)?;
    let _shown = reader.fill_buf()?.len();
    read_pieces(alloc, case, reader.unbuffer())
}

fn copies<R: TellBufRead + BufRead + Drop>(
    alloc: Global,
    case: &Case,
    reader: R,
) -> io::Result<u64> {
    let writer = writer(alloc, case, case.piece)?;
    match case.shape {
        Shape::CopyBuf => copy_bufs(reader, writer),
        _ => copy_to_end(reader, writer),
    }
}

fn std_copies<R: BufRead + Drop>(alloc: Global, case: &Case, reader: R) -> io::Result<u64> {
    copy_to_end(reader, std_writer(alloc, case.piece)?)
}

#[inline(never)]
fn read_to_end<R: Read + Drop>(reader: R, out: &mut [u8]) -> io::Result<u64> {
    let mut reader = reader;
    let mut total = 0u64;
    for _ in 0..u64::MAX {
        let n = reader.read(out)?;
        if n == 0 {
            break;
        }
        total = total.wrapping_add(n as u64);
    }
    Ok(total)
}

#[inline(never)]
fn fill_to_end<R: BufRead + Drop>(reader: R, piece: usize) -> io::Result<u64> {
    let mut reader = reader;
    let mut total = 0u64;
    for _ in 0..u64::MAX {
        let n = reader.fill_buf()?.len().min(piece);
        if n == 0 {
            break;
        }
        reader.consume(n);
        total = total.wrapping_add(n as u64);
    }
    Ok(total)
}

#[inline(never)]
fn write_often<W: Write + Drop>(writer: W, piece: &[u8], least: u64) -> io::Result<u64> {
    let mut writer = writer;
    let mut total = 0u64;
    for _ in 0..turns(least, piece.len() as u64) {
        total = total.wrapping_add(writer.write(piece)? as u64);
    }
    writer.flush()?;
    Ok(total)
}

#[inline(never)]
fn copy_to_end<R: BufRead + Drop, W: Write + Drop>(reader: R, writer: W) -> io::Result<u64> {
    let mut reader = reader;
    let mut writer = writer;
    let mut total = 0u64;
    for _ in 0..u64::MAX {
        let n = writer.write(reader.fill_buf()?)?;
        if n == 0 {
            break;
        }
        reader.consume(n);
        total = total.wrapping_add(n as u64);
    }
    writer.flush()?;
    Ok(total)
}

#[inline(never)]
fn copy_bufs<B: TellBufRead + Drop, W: TellWrite + Drop>(reader: B, writer: W) -> io::Result<u64> {
    let mut reader = reader;
    let mut writer = writer;
    let total = copy_buf(&mut reader, &mut writer)?;
    writer.flush_told()?;
    Ok(total)
}

#[inline(never)]
fn grow_often(buf: BufImpl, by: usize, to: usize) -> io::Result<u64> {
    let mut buf = buf;
    for _ in 0..u64::MAX {
        if buf.capacity() >= to {
            break;
        }
        let room = buf.usable_space();
        buf.bytes_written(room);
        buf.reserve(by)?;
    }
    Ok(buf.capacity() as u64)
}
