//! The writer of bodies in the chunked coding.
use buffer_redux::tell::TellWrite;
use buffer_redux::{BufWriter, IntoInnerError};
use chunked::{ChunkedWriter, FinishError, TrailersError};
use redux_script::Answer;
use std::alloc::Global;
use std::io;
use std::io::ErrorKind;
use std::test::Fail;
use tests_common::sweep::FAULT;
use tests_common::{Log, Target, flush, taken, target, write, write_all, writer};

// The capacity of the buffer, what is written, the lines of the trailers, and the body that this makes.
struct Row<'a>(usize, &'a [&'a [u8]], &'a [&'a [u8]], &'a [u8]);

// Bodies from the documentation of protocols and from the tests of another writer and of a parser, the letters of sizes in lower
// case. The longest trailers just fit into the buffer.
static BODIES: [Row<'static>; 10] = [
    Row(
        45,
        &[b"Wiki", b"pedia", b" in\r\n\r\nchunks."],
        &[],
        b"4\r\nWiki\r\n5\r\npedia\r\ne\r\n in\r\n\r\nchunks.\r\n0\r\n\r\n",
    ),
    Row(
        45,
        &[b"Mozilla", b"Developer Network"],
        &[],
        b"7\r\nMozilla\r\n11\r\nDeveloper Network\r\n0\r\n\r\n",
    ),
    Row(
        45,
        &[b"hello, ", b"", b"world! 0123456789abcdef"],
        &[],
        b"7\r\nhello, \r\n17\r\nworld! 0123456789abcdef\r\n0\r\n\r\n",
    ),
    Row(45, &[], &[], b"0\r\n\r\n"),
    Row(
        45,
        &[b"Mozilla", b"Developer", b"Network"],
        &[b"Expires: Wed, 21 Oct 2015 07:28:00 GMT"],
        b"7\r\nMozilla\r\n9\r\nDeveloper\r\n7\r\nNetwork\r\n0\r\n\
Expires: Wed, 21 Oct 2015 07:28:00 GMT\r\n\r\n",
    ),
    Row(
        45,
        &[b"hello", b" world"],
        &[b"Vary: *", b"Content-Type: text/plain"],
        b"5\r\nhello\r\n6\r\n world\r\n0\r\nVary: *\r\nContent-Type: text/plain\r\n\r\n",
    ),
    // What doesn't fit is one chunk too: with its line sent first, or past the buffer.
    Row(24, &[b"hello world"], &[], b"b\r\nhello world\r\n0\r\n\r\n"),
    Row(
        24,
        &[b"h", b"0123456789abcdef0123456789abcde"],
        &[],
        b"1\r\nh\r\n1f\r\n0123456789abcdef0123456789abcde\r\n0\r\n\r\n",
    ),
    Row(
        21,
        &[b"0123456789abcdefghijk"],
        &[],
        b"15\r\n0123456789abcdefghijk\r\n0\r\n\r\n",
    ),
    Row(31, &[b"hello world"], &[], b"b\r\nhello world\r\n0\r\n\r\n"),
];

type Body = ChunkedWriter<Target>;

/// A writer of a body behind what is buffered. Neither it nor any call below promises anything.
pub fn over<W: TellWrite + Drop>(inner: BufWriter<W>) -> io::Result<ChunkedWriter<W>> {
    if inner.capacity() <= 20 {
        return Err(io::Error::from(ErrorKind::InvalidInput));
    }
    Ok(ChunkedWriter::new(inner))
}

fn body(alloc: Global, capacity: usize, script: &[Answer]) -> io::Result<Body> {
    over(writer(alloc, capacity, b"", target(alloc, script)?)?)
}

/// Ends a body.
pub fn finish<W: TellWrite>(
    body: ChunkedWriter<W>,
) -> Result<BufWriter<W>, IntoInnerError<ChunkedWriter<W>>> {
    body.finish()
}

/// Ends a body with these trailers.
pub fn finish_with<W: TellWrite>(
    body: ChunkedWriter<W>,
    fields: &[&[u8]],
) -> Result<BufWriter<W>, FinishError<ChunkedWriter<W>>> {
    body.finish_with_trailers(fields)
}

// Whether a body ends by the call for such trailers, and a flush sends these bytes.
fn sends(body: Body, fields: &[&[u8]], want: &[u8]) -> io::Result<bool> {
    let mut inner = if fields.is_empty() {
        finish(body)?
    } else {
        finish_with(body, fields)?
    };
    flush(&mut inner)?;
    Ok(taken(&inner) == want)
}

// Whether it is so in pieces of at most so many bytes.
fn is_written(alloc: Global, row: &Row<'_>, most: usize) -> io::Result<bool> {
    let mut body = body(alloc, row.0, &[Answer::ServeEach(most)])?;
    for bytes in row.1 {
        write_all(&mut body, bytes)?;
    }
    sends(body, row.2, row.3)
}

#[test]
fn writes_bodies(rt: HostRuntime) -> Result<(), Fail> {
    for (at, row) in BODIES.iter().enumerate() {
        for most in [usize::MAX, 3, 1] {
            assert!(rt; is_written(rt.alloc(), row, most)?, "row {at}");
        }
    }
    Ok(())
}

// Trailers that are refused behind a chunk of five bytes in a buffer of 26, and why.
static REFUSED: [(&[&[u8]], &'static [u8]); 14] = [
    (&[b"A: b", b""], b"NoField(1)"),
    (&[b"A: b\r\nC: d"], b"NoField(0)"),
    (&[b"A: b", b"C: d", b"E: \rf"], b"NoField(2)"),
    (&[b"A"], b"NoField(0)"),
    (&[b"A:", b": b"], b"NoField(1)"),
    (&[b"A : b"], b"NoField(0)"),
    (&[b"0123456789abcdef:123"], b"TooLong"),
    (&[b"0123456789abcde:", b"A:"], b"TooLong"),
    (&[b"0123456789abcdef:123", b"\n"], b"NoField(1)"),
    (&[b"A: b", b"Content-Length: 5"], b"Framing(1)"),
    (&[b"cONTENT-lENGTH:"], b"Framing(0)"),
    (&[b"transfer-encoding: chunked"], b"Framing(0)"),
    (&[b"Content-Length : 5"], b"NoField(0)"),
    (&[b"Transfer-Encoding2: gzip"], b"TooLong"),
];

// A body with a chunk of five bytes in a buffer of 26.
fn hello(alloc: Global) -> io::Result<Body> {
    let mut body = body(alloc, 26, &[])?;
    write_all(&mut body, b"hello")?;
    Ok(body)
}

// Whether nothing of such a body was sent, and it is written on, and ends with trailers that just fit.
fn goes_on(mut body: Body) -> io::Result<bool> {
    let unsent = taken(body.get_ref()).is_empty();
    write_all(&mut body, b"!")?;
    let want = b"5\r\nhello\r\n1\r\n!\r\n0\r\n0123456789abcdef:\t\xff\r\n\r\n";
    Ok(sends(body, &[b"0123456789abcdef:\t\xff"], want)? && unsent)
}

fn is_said(alloc: Global, error: &TrailersError, why: &[u8]) -> bool {
    let mut log = Log::new(alloc);
    log.show_debug(error);
    log.is(why)
}

// The body that comes back where these are refused so.
fn refused(alloc: Global, body: Body, fields: &[&[u8]], why: &[u8]) -> Option<Body> {
    match finish_with(body, fields) {
        Ok(_) => None,
        Err(FinishError(body, e)) => is_said(alloc, &e, why).then_some(body),
    }
}

#[test]
fn refuses_trailers(rt: HostRuntime) -> Result<(), Fail> {
    let alloc = rt.alloc();
    for (row, &(fields, why)) in REFUSED.iter().enumerate() {
        let is_so = match refused(alloc, hello(alloc)?, fields, why) {
            Some(body) => goes_on(body)?,
            None => false,
        };
        assert!(rt; is_so, "row {row}");
    }
    Ok(())
}

// The body that comes back from both calls that end one, since 32 bytes of a chunk are due.
fn lacks(alloc: Global, body: Body) -> Option<Body> {
    let Err(IntoInnerError(body, e)) = finish(body) else {
        return None;
    };
    if e.kind() != ErrorKind::InvalidInput {
        return None;
    }
    refused(alloc, body, &[], b"Due(32)")
}

// Whether a write takes so many bytes, or fails, and so many are due then.
fn leaves(body: &mut Body, bytes: &[u8], taken: Option<usize>, due: usize) -> bool {
    write(body, bytes).ok() == taken && body.due() == due
}

// Whether just the bytes that are due end the chunk.
fn ends(mut begun: Body) -> io::Result<bool> {
    let some = leaves(&mut begun, b"aaaaaaaaaa", Some(10), 22);
    write_all(&mut begun, &[b'a'; 30])?;
    let want = b"20\r\naaaaaaaaaaaaaaaaaaaaaaaaaaaaaaaa\r\n8\r\naaaaaaaa\r\n0\r\n\r\n";
    Ok(sends(begun, &[], want)? && some)
}

// A chunk of 32 bytes, as whose line was sent the stream failed.
fn ends_chunk(alloc: Global) -> io::Result<bool> {
    let mut begun = body(alloc, 24, &[Answer::ServeEach(usize::MAX), FAULT])?;
    let failed = leaves(&mut begun, &[b'a'; 32], None, 32);
    match lacks(alloc, begun) {
        Some(begun) => Ok(ends(begun)? && failed),
        None => Ok(false),
    }
}

// A writer that is made again of its parts.
fn over_parts(body: Body) -> io::Result<Body> {
    let Some((inner, buffer)) = body.into_inner_with_buffer().ok() else {
        return Err(io::Error::from(ErrorKind::InvalidData));
    };
    if buffer.capacity() <= 20 {
        return Err(io::Error::from(ErrorKind::InvalidInput));
    }
    Ok(ChunkedWriter::with_buffer(buffer, inner))
}

#[test]
fn goes_on_with_what_was_begun(rt: HostRuntime) -> Result<(), Fail> {
    assert!(rt; ends_chunk(rt.alloc())?);
    assert!(rt; goes_on(over_parts(hello(rt.alloc())?)?)?);
    Ok(())
}
