//! Cases of the parts of multipart bodies. The piece of such a case is the length of a part's text.

use crate::cases::{Case, Shape};
use crate::makers::{extend, told};
use buffer_redux::BufReader;
use buffer_redux::tell::TellRead;
use multipart::{Limits, Multipart};
use std::alloc::{AllocError, Global};
use std::io;
use std::io::ErrorKind;

// As `curl` makes one.
const BOUNDARY: &[u8] = b"------------------------7e8e528b8b54de33";

// Behind a boundary, up to the text.
const HEAD: &[u8] = b"\r\nContent-Disposition: form-data; name=\"file\"\r\n\r\n";

// How many bytes a read asks for.
const ASKED: usize = 65536;

// How much the turns of a loop come to, up to the first that comes to nothing.
macro_rules! until_none {
    ($turn:expr) => {{
        let mut total = 0u64;
        for _ in 0..u64::MAX {
            let n = $turn;
            if n == 0 {
                break;
            }
            total = total.wrapping_add(n as u64);
        }
        total
    }};
}

/// A body whose parts have these bytes as their texts, each so many of them.
pub fn form(alloc: Global, length: usize, texts: &[u8]) -> Result<Vec<u8>, AllocError> {
    let mut bytes = Vec::with_capacity(alloc, texts.len())?;
    for text in texts.chunks(length.max(1)) {
        extend(&mut bytes, &[b"--", BOUNDARY, HEAD, text, b"\r\n"])?;
    }
    extend(&mut bytes, &[b"--", BOUNDARY, b"--"])?;
    Ok(bytes)
}

pub fn parts(alloc: Global, case: &Case, bytes: &[u8]) -> io::Result<u64> {
    let limits = Limits {
        head: 4096,
        parts: u64::MAX,
    };
    let reader = BufReader::with_capacity(alloc, case.capacity, told(bytes))?;
    let Ok(mut parts) = Multipart::new(alloc, reader, BOUNDARY, limits) else {
        return Err(ErrorKind::Other.into());
    };
    match case.shape {
        Shape::ReadParts => read_texts(&mut parts, vec![in alloc; 0u8; ASKED]?.as_mut_slice()),
        _ => fill_texts(&mut parts),
    }
}

#[inline(never)]
fn read_texts<R: TellRead>(parts: &mut Multipart<R>, out: &mut [u8]) -> io::Result<u64> {
    let mut total = 0u64;
    for _part in 0..u64::MAX {
        if !parts.next_part()? {
            break;
        }
        total = total.wrapping_add(until_none!(parts.read(out)?));
    }
    Ok(total)
}

#[inline(never)]
fn fill_texts<R: TellRead>(parts: &mut Multipart<R>) -> io::Result<u64> {
    let mut total = 0u64;
    for _part in 0..u64::MAX {
        if !parts.next_part()? {
            break;
        }
        total = total.wrapping_add(until_none!({
            let n = parts.fill()?;
            let length = parts.piece().len();
            parts.consume(n);
            length
        }));
    }
    Ok(total)
}
