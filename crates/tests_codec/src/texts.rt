//! What errors print and as which kind of I/O error they go on, and what is printed of a reader and a writer of a body.
use crate::chunks;
use buffer_redux::tell::Told;
use chunked::{
    Chunked, ChunkedError, ChunkedReader, FinishError, Limits, Malformed, TrailersError,
};
use codec::{HeaderError, NotPlain, TooLong, Unended};
use frame_reader::{FrameError, WriteFrameError};
use line_reader::LineError;
use std::alloc::Global;
use std::fmt::{Debug, Display};
use std::io;
use std::io::ErrorKind;
use std::test::Fail;
use tests_common::{Log, reader, writer};

// The fault of a stream, whose text is "timed out".
fn fault() -> io::Error {
    io::Error::from(ErrorKind::TimedOut)
}

// Its text, and the end of a line.
fn says<E: Display>(log: &mut Log, error: &E) {
    log.show(error);
    log.note(b"\n");
}

// Its text, and its kind as an I/O error, each on a line.
fn tells<E: Display + Into<io::Error> + Drop>(log: &mut Log, error: E) {
    says(log, &error);
    log.show_debug(&error.into().kind());
    log.note(b"\n");
}

fn of_pieces(log: &mut Log) {
    says(log, &HeaderError::NoHeader);
    says(log, &HeaderError::TooLong(4));
    says(log, &HeaderError::NoTail);
    says(log, &HeaderError::Truncated(4));
    says(log, &Unended::Wrong(TooLong(3)));
    says(log, &Unended::<TooLong>::Cut(4));
    says(log, &NotPlain::HasEnd);
    says(log, &NotPlain::TooLong(4));
}

fn of_frames(log: &mut Log) {
    says(log, &FrameError::Truncated(3));
    says(log, &FrameError::TooLong(4));
    says(log, &FrameError::from(fault()));
    says(log, &WriteFrameError::TooLong(4));
    says(log, &WriteFrameError::from(fault()));
}

fn of_lines_and_bodies(log: &mut Log) {
    tells(log, LineError::TooLong(4));
    tells(log, LineError::from(fault()));
    tells(log, ChunkedError::Truncated(7));
    tells(log, ChunkedError::Wrong(Malformed::BadSize, 7));
    tells(log, ChunkedError::from(fault()));
    tells(log, FinishError(7, TrailersError::NoField(7)));
    tells(log, FinishError(7, TrailersError::Framing(7)));
    tells(log, FinishError(7, TrailersError::TooLong));
    tells(log, FinishError(7, TrailersError::Due(7)));
    tells(log, FinishError(7, TrailersError::Io(fault())));
}

static TOLD: &[u8] = b"no piece begins so
a payload of 4 bytes is too long
a payload is not followed by its tail
the stream ended after 4 bytes of a piece
a payload of more than 3 bytes is too long
the stream ended after 4 bytes of a piece
a payload has the byte that ends it
a payload of 4 bytes is too long
the stream ended after 3 bytes of a frame
a frame of 4 bytes is too long
timed out
a payload of 4 bytes is too long
timed out
a line of more than 4 bytes is too long
InvalidData
timed out
TimedOut
the stream ended after 7 bytes of a body
UnexpectedEof
a wrong byte in the line of a size, behind 7 bytes of a body
InvalidData
timed out
TimedOut
line 7 of the trailers isn't a name, a colon and a value
InvalidInput
line 7 of the trailers says where the body ends
InvalidInput
the trailers don't fit into the buffer
InvalidInput
a chunk lacks 7 bytes
InvalidInput
timed out
TimedOut
";

#[test]
fn of_errors(rt: HostRuntime) {
    let mut log = Log::new(rt.alloc());
    of_pieces(&mut log);
    of_frames(&mut log);
    of_lines_and_bodies(&mut log);
    assert!(rt; log.is(TOLD));
}

fn shows<T: Debug + Drop>(log: &mut Log, value: T) {
    log.show_debug(&value);
    log.note(b"\n");
}

// What is printed of a reader of a body that was not begun, and of a writer.
fn bodies(alloc: Global, log: &mut Log) -> io::Result<()> {
    let limits = Limits {
        line: 9,
        trailers: 9,
    };
    let inner = reader(alloc, 8, b"", Told::new(b"".as_slice()))?;
    if inner.capacity() > 0 {
        shows(log, ChunkedReader::new(inner, Chunked(limits)));
    }
    shows(
        log,
        chunks::over(writer(alloc, 45, b"", Told::new(Vec::new(alloc)))?)?,
    );
    Ok(())
}

static SHOWN: &[u8] =
    b"body_reader::BodyReader { reader: buffer_redux::BufReader { reader: Told { stream: [] }, buf_len: 0, \
capacity: 8, policy: StdPolicy }, place: Line, taken: 0 }
chunked::ChunkedWriter { writer: buffer_redux::BufWriter { writer: Told { stream: [] }, buf_len: 0, \
capacity: 45, policy: StdPolicy } }
";

#[test]
fn of_readers_and_writers(rt: HostRuntime) -> Result<(), Fail> {
    let mut log = Log::new(rt.alloc());
    bodies(rt.alloc(), &mut log)?;
    assert!(rt; log.is(SHOWN));
    Ok(())
}
