//! Cases of lines that are read. The capacity of such a case is the length of a line with its end, and the piece is the most
//! that the stream gives a read.

use buffer_redux::tell::TellRead;
use line_reader::{LineError, LineReader};
use std::alloc::{AllocError, Global};
use std::io;
use std::io::BufRead;

/// Lines of so many bytes with their ends.
pub fn text(alloc: Global, length: usize, total: usize) -> Result<Vec<u8>, AllocError> {
    let mut bytes = Vec::with_capacity(alloc, total)?;
    let mut column = 0usize;
    for _ in 0..total {
        column = column.wrapping_add(1);
        if column >= length {
            column = 0;
        }
        bytes.push(if column == 0 { b'\n' } else { b'x' })?;
    }
    Ok(bytes)
}

// How long a line is with its end, and 0 at the end of the stream.
fn length(found: Result<Option<&[u8]>, LineError>) -> io::Result<u64> {
    Ok(found?.map_or(0, |line| (line.len() as u64).wrapping_add(1)))
}

// The first line is read apart, as a head would be.
#[inline(never)]
pub fn next_to_end<R: TellRead + Drop>(reader: LineReader<R>) -> io::Result<u64> {
    let mut reader = reader;
    let mut total = length(reader.next())?;
    for _ in 0..u64::MAX {
        match reader.next()? {
            Some(line) => total = total.wrapping_add(line.len() as u64).wrapping_add(1),
            None => break,
        }
    }
    Ok(total)
}

// The first line is read apart, as a head would be.
#[inline(never)]
pub fn trimmed_to_end<R: TellRead + Drop>(reader: LineReader<R>) -> io::Result<u64> {
    let mut reader = reader;
    let mut total = length(reader.next_trimmed())?;
    for _ in 0..u64::MAX {
        match reader.next_trimmed()? {
            Some(line) => total = total.wrapping_add(line.len() as u64).wrapping_add(1),
            None => break,
        }
    }
    Ok(total)
}

#[inline(never)]
pub fn until_end<R: BufRead + Drop>(alloc: Global, reader: R) -> io::Result<u64> {
    let mut reader = reader;
    let mut line = Vec::new(alloc);
    let mut total = 0u64;
    for _ in 0..u64::MAX {
        line.clear();
        let n = reader.read_until(b'\n', &mut line)?;
        if n == 0 {
            break;
        }
        total = total.wrapping_add(n as u64);
    }
    Ok(total)
}

#[inline(never)]
pub fn lines_to_end<R: BufRead + Drop>(alloc: Global, reader: R) -> io::Result<u64> {
    let mut total = 0u64;
    for line in reader.lines(alloc) {
        total = total.wrapping_add(line?.len() as u64).wrapping_add(1);
    }
    Ok(total)
}
