//! Lines, and the reader of lines that CALLING shows.
ghost use Rattle.std.specs.Prelude.{◌≡◌, IfOk, List, length, ℕ};
ghost use Rattle.line_reader.specs.Runs.{AllLinesRead};

use buffer_redux::tell::{TellRead, Told};
use line_reader::{LineError, LineReader};
use std::alloc::Global;
use std::io;
use std::io::{ErrorKind, Read};
use std::test::Fail;

/// How many lines are left, up to the end of the stream.
fn lines_left<R: TellRead>(reader: &mut LineReader<R>) -> Result<u64, LineError>
    ensures counted { IfOk result (λ count. (lines : List (List ℕ)) × (count ≡ length lines)
        × AllLinesRead R.remaining reader.old lines reader.new) }
{
    for count in 0..u64::MAX {
        match reader.next()? {
            Some(_) => {}
            None => return Ok(count),
        }
    }
    Err(LineError::Io(io::Error::from(ErrorKind::Other)))
}

/// How many lines a stream of std has. None is longer than `max` bytes.
fn lines_of<R: Read + Drop>(alloc: Global, from: R, max: usize) -> io::Result<u64> {
    let mut reader = LineReader::new(alloc, Told::new(from), max)?;
    Ok(lines_left(&mut reader)?)
}

#[test]
fn counts_what_is_left(rt: HostRuntime) -> Result<(), Fail> {
    assert!(rt; lines_of(rt.alloc(), b"one\n\nlast".as_slice(), 4)? == 3);
    Ok(())
}

#[test]
fn line_reader(rt: HostRuntime) -> Result<(), Fail> {
    let alloc = rt.alloc();
    let mut reader = LineReader::new(alloc, Told::new(b"one\n\nlast".as_slice()), 100)?;
    assert!(rt; matches!(reader.next(), Ok(Some(b"one"))));
    assert!(rt; matches!(reader.next(), Ok(Some(b""))));
    assert!(rt; matches!(reader.next(), Ok(Some(b"last"))));
    assert!(rt; matches!(reader.next(), Ok(None)));
    Ok(drop(reader))
}

#[test]
fn line_error(rt: HostRuntime) -> Result<(), Fail> {
    let alloc = rt.alloc();
    let mut reader = LineReader::new(alloc, Told::new(b"too long\nok\n".as_slice()), 4)?;
    assert!(rt; matches!(reader.next(), Err(LineError::TooLong(4))));
    assert!(rt; matches!(reader.skip_line(), Ok(9)));
    assert!(rt; matches!(reader.next(), Ok(Some(b"ok"))));
    Ok(drop(reader))
}
