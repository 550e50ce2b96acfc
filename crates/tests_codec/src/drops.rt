//! What a writer that is dropped does to the stream inside, which is lent to it. A reader's drop is derived, and makes no call.
use crate::chunks;
use crate::kinds::frame_writer;
use Way::{Body, Ended, Frames, Lines, Refused};
use buffer_redux::tell::{TellWrite, Told};
use chunked::ChunkedWriter;
use redux_script::{Answer, ScriptWriter};
use std::alloc::Global;
use std::io;
use std::io::ErrorKind;
use std::test::Fail;
use tests_common::{line_writer, write_all, writer};

// What is dropped: a writer of lines, of frames or of a body; a body whose end was sent for in vain, or one whose trailers were
// refused, in the error that hands it back.
#[derive(Clone, Copy)]
enum Way {
    Lines,
    Frames,
    Body,
    Ended,
    Refused,
}

// What stands before a body.
const HEAD: &[u8] = b"HTTP/1.1 200 OK\r\n\r\n";

// Each of these writes something that stays in the buffer, and drops the writer.
fn drops_lines<W: TellWrite + Drop>(alloc: Global, inner: W) -> io::Result<()> {
    let mut text = line_writer(alloc, 9, b"", inner)?;
    write_all(&mut text, b"hello")
}

fn drops_frames<W: TellWrite + Drop>(alloc: Global, inner: W) -> io::Result<()> {
    let mut sends = frame_writer(alloc, 9, inner)?;
    let _ = sends.write_frame(b"hello");
    Ok(())
}

fn hello_in<W: TellWrite + Drop>(alloc: Global, inner: W) -> io::Result<ChunkedWriter<W>> {
    let mut body = chunks::over(writer(alloc, 45, b"", inner)?)?;
    write_all(&mut body, b"hello")?;
    Ok(body)
}

// Its end has five bytes, and there is room for four.
fn drops_ended<W: TellWrite + Drop>(alloc: Global, inner: W) -> io::Result<()> {
    let body = chunks::over(writer(alloc, 23, HEAD, inner)?)?;
    Ok(drop(chunks::finish(body)))
}

fn drops<W: TellWrite + Drop>(alloc: Global, way: Way, inner: W) -> io::Result<()> {
    match way {
        Lines => drops_lines(alloc, inner),
        Frames => drops_frames(alloc, inner),
        Body => Ok(drop(hello_in(alloc, inner)?)),
        Refused => Ok(drop(chunks::finish_with(hello_in(alloc, inner)?, &[b""]))),
        Ended => drops_ended(alloc, inner),
    }
}

// What the stream answers, what it took, and by how many writes and flushes.
type Written = (Way, &'static [Answer], &'static [u8], (usize, usize));

const FAULT: Answer = Answer::Fail(ErrorKind::Other);

static WRITTEN: [Written; 10] = [
    (Lines, &[], b"hello", (1, 0)),
    (Lines, &[FAULT], b"", (1, 0)),
    (Frames, &[], b"\x00\x05hello", (1, 0)),
    (Frames, &[FAULT], b"", (1, 0)),
    // No body that is dropped has an end.
    (Body, &[], b"5\r\nhello\r\n", (1, 0)),
    (Body, &[FAULT], b"", (1, 0)),
    (Refused, &[], b"5\r\nhello\r\n", (1, 0)),
    (Refused, &[FAULT], b"", (1, 0)),
    (Ended, &[FAULT], HEAD, (2, 0)),
    (Ended, &[Answer::Serve(6), FAULT, FAULT], b"HTTP/1", (3, 0)),
];

// Whether a stream that a dropped writer was over is as its row says.
fn is_left(alloc: Global, row: &Written) -> Result<bool, Fail> {
    let &(way, script, taken, calls) = row;
    let mut stream = ScriptWriter::new(alloc, script)?;
    drops(alloc, way, Told::new(&mut stream))?;
    Ok(stream.taken() == taken && (stream.offers().len(), stream.flushes()) == calls)
}

// A writer sends what is buffered, once, and flushes nothing; a body gets no end.
#[test]
fn dropped(rt: HostRuntime) -> Result<(), Fail> {
    for row in &WRITTEN {
        assert!(rt; is_left(rt.alloc(), row)?);
    }
    Ok(())
}
