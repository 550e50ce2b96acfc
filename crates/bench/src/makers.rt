//! The readers and writers of cases: this project's over the buffer of the kind, and std's.
use crate::cases::{Case, Kind};
use crate::streams::{Packets, Sink, Source};
use buffer_redux::policy::MinBuffered;
use buffer_redux::tell::{TellRead, Told};
use buffer_redux::{BufImpl, BufReader, BufWriter, Buffer, LineWriter};
use line_reader::LineReader;
use std::alloc::{AllocError, Global};
use std::io;

/// How many bytes a lookahead asks for.
const LEAST: usize = 4096;

/// Appends these parts, one after another.
pub fn extend(bytes: &mut Vec<u8>, parts: &[&[u8]]) -> Result<(), AllocError> {
    for part in parts {
        bytes.extend_from_slice(part)?;
    }
    Ok(())
}

pub fn told(bytes: &[u8]) -> Told<Source<'_>> {
    Told::new(Source { left: bytes })
}

pub fn told_sink() -> Told<Sink> {
    Told::new(Sink::default())
}

/// The block of a case alone.
pub fn block(alloc: Global, case: &Case) -> io::Result<BufImpl> {
    match case.kind {
        Kind::Ring => Ok(BufImpl::with_capacity_ringbuf(alloc, case.capacity)?),
        _ => Ok(BufImpl::with_capacity(alloc, case.capacity)?),
    }
}

fn buffer(alloc: Global, kind: Kind, capacity: usize) -> io::Result<Buffer> {
    match kind {
        Kind::Ring => Ok(Buffer::with_capacity_ringbuf(alloc, capacity)?),
        _ => Ok(Buffer::with_capacity(alloc, capacity)?),
    }
}

pub fn reader<R: TellRead + Drop>(
    alloc: Global,
    case: &Case,
    inner: R,
) -> io::Result<BufReader<R>> {
    Ok(BufReader::with_buffer(buffer(alloc, case.kind, case.capacity)?, inner))
}

/// A reader that looks ahead.
pub fn looking<R: TellRead + Drop>(
    alloc: Global,
    case: &Case,
    inner: R,
) -> io::Result<BufReader<R, MinBuffered>> {
    Ok(reader(alloc, case, inner)?.set_policy(MinBuffered(LEAST)))
}

pub fn writer(alloc: Global, case: &Case, capacity: usize) -> io::Result<BufWriter<Told<Sink>>> {
    Ok(BufWriter::with_buffer(buffer(alloc, case.kind, capacity)?, told_sink()))
}

pub fn line_writer(alloc: Global, case: &Case) -> io::Result<LineWriter<Told<Sink>>> {
    Ok(LineWriter::with_buffer(buffer(alloc, case.kind, case.capacity)?, told_sink()))
}

pub fn std_reader(
    alloc: Global,
    capacity: usize,
    bytes: &[u8],
) -> io::Result<io::BufReader<Source<'_>>> {
    io::BufReader::with_capacity(alloc, capacity, Source { left: bytes })
}

/// The same over packets.
pub fn std_packets<'a>(
    alloc: Global,
    case: &Case,
    bytes: &'a [u8],
) -> io::Result<io::BufReader<Packets<'a>>> {
    io::BufReader::new(alloc, case.packets(bytes))
}

pub fn std_writer(alloc: Global, capacity: usize) -> io::Result<io::BufWriter<Sink>> {
    io::BufWriter::with_capacity(alloc, capacity, Sink::default())
}

pub fn std_line_writer(alloc: Global, capacity: usize) -> io::Result<io::LineWriter<Sink>> {
    io::LineWriter::with_capacity(alloc, capacity, Sink::default())
}

/// The capacity of such a case is the length of a line with its end.
pub fn line_reader<'a>(
    alloc: Global,
    case: &Case,
    bytes: &'a [u8],
) -> io::Result<LineReader<Told<Packets<'a>>>> {
    Ok(LineReader::new(alloc, Told::new(case.packets(bytes)), case.capacity)?)
}
