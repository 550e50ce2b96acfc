//! Cases of heads of requests. The capacity of such a case is the length of a head, and the piece how many bytes a read gives.

use crate::cases::Case;
use buffer_redux::tell::{TellRead, Told};
use codec::PieceReader;
use messages::{Heads, Limits};
use std::alloc::{AllocError, Global};
use std::io;
use std::io::ErrorKind;

// No head has more of them.
const MOST_FIELDS: usize = 62;

// How many bytes a field has, with its name and its end.
const FIELD: usize = 128;

fn failed() -> io::Error {
    io::Error::from(ErrorKind::Other)
}

// A head of so many bytes, or less by a part of a field.
fn head(alloc: Global, length: usize) -> Result<Vec<u8>, AllocError> {
    let mut head = Vec::new(alloc);
    head.extend_from_slice(b"GET / HTTP/1.1\r\nHost: a\r\n")?;
    for _ in 0..MOST_FIELDS {
        if head.len() + FIELD + 2 > length {
            break;
        }
        head.extend_from_slice(b"X-Padding: ")?;
        head.resize(head.len() + (FIELD - 13), b'a')?;
        head.extend_from_slice(b"\r\n")?;
    }
    head.extend_from_slice(b"\r\n")?;
    Ok(head)
}

/// Heads of so many bytes, as many as are less than `total` bytes.
pub fn heads_text(alloc: Global, length: usize, total: usize) -> Result<Vec<u8>, AllocError> {
    let head = head(alloc, length)?;
    let mut bytes = Vec::with_capacity(alloc, total)?;
    for _ in 0..total / head.len().max(1) {
        bytes.extend_from_slice(head.as_slice())?;
    }
    Ok(bytes)
}

pub fn heads(alloc: Global, case: &Case, bytes: &[u8]) -> io::Result<u64> {
    match PieceReader::new(
        alloc,
        Told::new(case.packets(bytes)),
        Heads(Limits::default()),
    ) {
        Ok(reader) => heads_to_end(reader),
        Err(_) => Err(failed()),
    }
}

#[inline(never)]
fn heads_to_end<R: TellRead + Drop>(reader: PieceReader<R, Heads>) -> io::Result<u64> {
    let mut reader = reader;
    let mut total = 0u64;
    for _ in 0..u64::MAX {
        match reader.step() {
            Ok(Some(span)) => total = total.wrapping_add(reader.lent(span).len() as u64),
            Ok(None) => break,
            Err(_) => return Err(failed()),
        }
    }
    Ok(total)
}
