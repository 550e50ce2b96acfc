//! The examples of the pages.
use crate::parts::{LIMITS, parts_of};
use buffer_redux::BufReader;
use buffer_redux::policy::{MinBuffered, ReaderPolicy};
use buffer_redux::tell::{TellRead, Told};
use multipart::{Limits, Multipart, field, parameter};
use redux_script::Answer;
use std::alloc::Global;
use std::io;
use std::io::{BufRead, ErrorKind};
use std::test::Fail;
use tests_common::{Source, kind, reader, reader_under, source};

// The text of the part of this name.
fn text_of(alloc: Global, reader: BufReader<Source>, name: &[u8]) -> io::Result<Vec<u8>> {
    let mut parts = parts_of(alloc, reader, b"AaB03x", LIMITS)?;
    let mut text = Vec::new(alloc);
    append_text(&mut parts, name, &mut text)?;
    Ok(text)
}

// Appends the text of the part of this name.
fn append_text(parts: &mut Multipart<Source>, name: &[u8], text: &mut Vec<u8>) -> io::Result<()> {
    for _part in 0..u64::MAX {
        if !parts.next_part()? {
            return Ok(());
        }
        let said = field(parts.head(), b"Content-Disposition").unwrap_or(b"");
        if parameter(said, b"name") == Some(name) {
            for _piece in 0..u64::MAX {
                let count = parts.fill()?;
                if count == 0 {
                    return Ok(());
                }
                text.extend_from_slice(parts.piece())?;
                parts.consume(count);
            }
        }
    }
    Ok(())
}

#[test]
fn reads_a_part(rt: HostRuntime) -> Result<(), Fail> {
    let alloc = rt.alloc();
    let form = b"--AaB03x\r\nContent-Disposition: form-data; name=\"a\"\r\n\r\nhello\r\n--AaB03x--";
    let reader = reader(alloc, 16, b"", source(alloc, form, &[])?)?;
    assert!(rt; text_of(alloc, reader, b"a")?.as_slice() == b"hello".as_slice());
    Ok(())
}

#[test]
fn multipart(rt: HostRuntime) -> Result<(), Fail> {
    let alloc = rt.alloc();
    let form = b"--AaB03x\r\nContent-Type: text/plain\r\n\r\nhello\r\n--AaB03x--".as_slice();
    let limits = Limits {
        head: 16384,
        parts: 100,
    };
    let reader = BufReader::new(alloc, Told::new(form))?;
    let mut parts = Multipart::new(alloc, reader, b"AaB03x", limits).map_err(|_| io::Error::from(
        ErrorKind::InvalidInput,
    ))?;
    assert!(rt; matches!(parts.next_part(), Ok(true)));
    assert!(rt; field(parts.head(), b"content-type") == Some(b"text/plain".as_slice()));
    let mut text = [0; 8];
    assert!(rt; matches!(parts.read(&mut text), Ok(5)));
    assert!(rt; matches!(parts.next_part(), Ok(false)));
    Ok(drop(parts))
}

#[test]
fn fields(rt: HostRuntime) -> Result<(), Fail> {
    let head = b"\r\nContent-Disposition: form-data; name=\"a\"".as_slice();
    let said = field(head, b"content-disposition").unwrap_or(b"");
    assert!(rt; parameter(said, b"name") == Some(b"a".as_slice()));
    Ok(())
}

// Behind a delimiter stands a line end, or `--` where no part follows.
fn is_last_by_fill<R: TellRead>(reader: &mut BufReader<R, MinBuffered>) -> io::Result<bool> {
    Ok(reader.fill_buf()?.starts_with(b"--"))
}

fn is_last<R: TellRead, P: ReaderPolicy>(reader: &mut BufReader<R, P>) -> io::Result<bool> {
    Ok(reader.peek(2)?.starts_with(b"--"))
}

// What both say where no more comes behind the two bytes: the next read would wait.
fn both(reader: &mut BufReader<Source, MinBuffered>) -> [Result<bool, ErrorKind>; 2] {
    [kind(is_last_by_fill(reader)), kind(is_last(reader))]
}

#[test]
fn waits_for_a_minimum(rt: HostRuntime) -> Result<(), Fail> {
    let script = [Answer::Serve(2), Answer::Fail(ErrorKind::WouldBlock)];
    let reader = reader(rt.alloc(), 64, b"", source(rt.alloc(), b"--", &script)?)?;
    let came = both(&mut reader_under(reader, MinBuffered(8)));
    assert!(rt; came == [Err(ErrorKind::WouldBlock), Ok(true)]);
    Ok(())
}
