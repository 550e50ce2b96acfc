//! Cases of bodies in the chunked coding. The piece of such a case is the length of a chunk.

use crate::cases::Case;
use crate::makers::{told, told_sink};
use crate::whole::turns;
use buffer_redux::tell::{TellRead, TellWrite};
use buffer_redux::{BufReader, BufWriter};
use chunked::{Chunked, ChunkedReader, ChunkedWriter, Limits};
use std::alloc::{AllocError, Global};
use std::io;
use std::io::{ErrorKind, Write};

// How many bytes a read asks for.
const ASKED: usize = 4096;

/// A body of chunks of so many bytes, as many as are less than `total` bytes.
pub fn chunked_body(alloc: Global, length: usize, total: usize) -> Result<Vec<u8>, AllocError> {
    let length = length.max(1);
    let mut bytes = Vec::with_capacity(alloc, total)?;
    let line = format!(in alloc; "{length:x}\r\n")?;
    for at in 0..total / length {
        bytes.extend_from_slice(line.as_bytes())?;
        bytes.resize(bytes.len() + length, (at & 255) as u8)?;
        bytes.extend_from_slice(b"\r\n")?;
    }
    bytes.extend_from_slice(b"0\r\n\r\n")?;
    Ok(bytes)
}

pub fn bodies(alloc: Global, case: &Case, bytes: &[u8]) -> io::Result<u64> {
    let limits = Limits {
        line: 64,
        trailers: 4096,
    };
    let reader = BufReader::with_capacity(alloc, case.capacity.max(1), told(bytes))?;
    body_to_end(ChunkedReader::new(reader, Chunked(limits)))
}

#[inline(never)]
fn body_to_end<R: TellRead + Drop>(body: ChunkedReader<R>) -> io::Result<u64> {
    let mut body = body;
    let mut out = [0; ASKED];
    let mut total = 0u64;
    for _ in 0..u64::MAX {
        match body.read_payload(&mut out) {
            Ok(0) => break,
            Ok(n) => total = total.wrapping_add(n as u64),
            Err(_) => return Err(io::Error::from(ErrorKind::Other)),
        }
    }
    Ok(total)
}

pub fn write_bodies(alloc: Global, case: &Case, bytes: &[u8]) -> io::Result<u64> {
    let writer = BufWriter::with_capacity(alloc, case.capacity.max(21), told_sink())?;
    let payload = &bytes[..case.piece.min(bytes.len())];
    write_chunks(ChunkedWriter::new(writer), payload, bytes.len() as u64)
}

#[inline(never)]
fn write_chunks<W: TellWrite + Drop>(
    body: ChunkedWriter<W>,
    payload: &[u8],
    least: u64,
) -> io::Result<u64> {
    let mut body = body;
    let length = payload.len() as u64;
    let turns = turns(least, length);
    for _ in 0..turns {
        body.write_all(payload)?;
    }
    let mut writer = body.finish()?;
    writer.flush()?;
    Ok(turns.wrapping_mul(length))
}
