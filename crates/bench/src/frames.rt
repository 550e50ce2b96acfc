//! Cases of frames. The piece of such a case is the length of a payload.

use crate::cases::Case;
use crate::makers::{told, told_sink};
use crate::whole::turns;
use buffer_redux::tell::{TellRead, TellWrite};
use frame_reader::{FrameReader, FrameWriter};
use std::alloc::{AllocError, Global};
use std::io;
use std::io::ErrorKind;

const GREATEST: u16 = 1024;

fn failed() -> io::Error {
    io::Error::from(ErrorKind::Other)
}

/// Frames of payloads of so many bytes, as many as are less than `total` bytes.
pub fn framed(alloc: Global, length: usize, total: usize) -> Result<Vec<u8>, AllocError> {
    let length = u16::try_from(length).unwrap_or(GREATEST).min(GREATEST);
    let mut bytes = Vec::with_capacity(alloc, total)?;
    for at in 0..total / (2 + usize::from(length)) {
        bytes.extend_from_slice(&length.to_be_bytes())?;
        bytes.resize(bytes.len() + usize::from(length), (at & 255) as u8)?;
    }
    Ok(bytes)
}

pub fn frames(alloc: Global, case: &Case, bytes: &[u8]) -> io::Result<u64> {
    match FrameReader::with_capacity(alloc, case.capacity, told(bytes), GREATEST) {
        Ok(reader) => frames_to_end(reader),
        Err(_) => Err(failed()),
    }
}

#[inline(never)]
fn frames_to_end<R: TellRead + Drop>(reader: FrameReader<R>) -> io::Result<u64> {
    let mut reader = reader;
    let mut total = 0u64;
    for _ in 0..u64::MAX {
        match reader.next() {
            Ok(Some(payload)) => total = total.wrapping_add(payload.len() as u64).wrapping_add(2),
            Ok(None) => break,
            Err(_) => return Err(failed()),
        }
    }
    Ok(total)
}

pub fn write_frames(alloc: Global, case: &Case, bytes: &[u8]) -> io::Result<u64> {
    match FrameWriter::with_capacity(alloc, case.capacity, told_sink(), GREATEST) {
        Ok(writer) => {
            let payload = &bytes[..case.piece.min(bytes.len())];
            write_often(writer, payload, bytes.len() as u64)
        }
        Err(_) => Err(failed()),
    }
}

#[inline(never)]
fn write_often<W: TellWrite + Drop>(
    writer: FrameWriter<W>,
    payload: &[u8],
    least: u64,
) -> io::Result<u64> {
    let mut writer = writer;
    let length = (payload.len() as u64).wrapping_add(2);
    let turns = turns(least, length);
    for _ in 0..turns {
        if writer.write_frame(payload).is_err() {
            return Err(failed());
        }
    }
    writer.flush()?;
    Ok(turns.wrapping_mul(length))
}
