//! Bodies of messages whose payload is lent, and the other calls of a reader of a body.
use crate::asks::gives;
use body_reader::{BodyReader, Sized};
use buffer_redux::tell::TellRead;
use messages::{Body, Requests};
use redux_script::Answer;
use std::alloc::Global;
use std::io;
use std::io::{BufRead, ErrorKind};
use std::test::Fail;
use tests_common::{Log, Source, consume, fill_buf, first, holding, kind, read, source};

const SIZED: &[u8] = b"PUT / HTTP/1.1\r\nHost: h\r\nContent-Length: 5\r\n\r\nhello";

const CHUNKED: &[u8] =
    b"PUT / HTTP/1.1\r\nHost: h\r\nTransfer-Encoding: chunked\r\n\r\n2;x\r\nhe\r\n3\r\nllo\r\n0\r\n\r\n";

// A message, how many bytes the stream gives at once, and in which pieces the payload comes.
static LENT: [(&'static [u8], usize, &'static [&'static [u8]]); 4] = [
    (SIZED, 1000, &[b"hello"]),
    (SIZED, 3, &[b"he", b"llo"]),
    (CHUNKED, 1000, &[b"he", b"llo"]),
    (CHUNKED, 3, &[b"he", b"ll", b"o"]),
];

// Whether the payload comes in just these pieces, of each of which a byte is consumed and then the others, and the body ends.
fn is_lent<R: TellRead + Drop>(body: &mut Body<R>, pieces: &[&[u8]]) -> bool {
    for piece in pieces {
        let filled = matches!(body.fill_payload(), Ok(n) if n == piece.len());
        let shown = body.piece() == *piece;
        body.consume_payload(1);
        let left = body.piece() == piece.get(1..).unwrap_or(b"");
        body.consume_payload(piece.len());
        if !filled || !shown || !left {
            return false;
        }
    }
    matches!(body.fill_payload(), Ok(0)) && body.piece().is_empty() && body.is_done()
}

fn lends<R: TellRead + Drop>(requests: Requests<R>, pieces: &[&[u8]]) -> bool {
    match requests.next() {
        Ok(mut body) => is_lent(&mut body, pieces),
        Err(_) => false,
    }
}

#[test]
fn lends_bodies(rt: HostRuntime) -> Result<(), Fail> {
    for (row, &(bytes, count, pieces)) in LENT.iter().enumerate() {
        let stream = source(rt.alloc(), bytes, &[Answer::ServeEach(count)])?;
        assert!(rt;
            lends(Requests::new(rt.alloc(), stream)?, pieces),
            "row {row}"
        );
    }
    Ok(())
}

type Seven = BodyReader<Source, Sized>;

// These calls promise nothing.
fn buffered(body: &mut Seven, log: &mut Log) {
    let mut out = [0; 8];
    let count = body.read_buffered(&mut out);
    log.show_debug(&(first(&out, count), body.place(), body.taken()));
    log.note(body.get_ref().buffer());
}

fn fills(body: &mut Seven, log: &mut Log) {
    match fill_buf(body) {
        Ok(shown) => log.note(shown),
        Err(e) => log.show(&e),
    }
}

fn line(alloc: Global, body: &mut Seven, log: &mut Log) {
    let mut line = Vec::new(alloc);
    log.show_debug(&kind(body.read_until(b'\n', &mut line)));
    log.note(line.as_slice());
}

fn rest(body: &mut Seven, log: &mut Log) {
    let mut out = [0; 8];
    log.show_debug(&kind(read(body, &mut out)));
    log.show_debug(&(body.is_done(), kind(body.is_at_end())));
    log.show_debug(&gives(body.get_mut(), b"?"));
}

fn behind(body: Seven, log: &mut Log) {
    match body.finish() {
        Ok(inner) => log.note(inner.buffer()),
        Err(_) => log.note(b"no end"),
    }
}

// What the other calls do, over a buffer that holds `ab`, and a stream that fails, and then has `xc`, a line feed and `deGET`.
fn answers(alloc: Global, mut body: Seven, log: &mut Log) {
    buffered(&mut body, log);
    fills(&mut body, log);
    fills(&mut body, log);
    consume(&mut body, 1);
    line(alloc, &mut body, log);
    rest(&mut body, log);
    behind(body, log);
}

fn seven(alloc: Global) -> io::Result<Option<Seven>> {
    let stream = source(alloc, b"xc\ndeGET", &[Answer::Fail(ErrorKind::TimedOut)])?;
    Ok(BodyReader::with_buffer(holding(alloc, 8, b"ab")?, stream, Sized(7)).ok())
}

#[test]
fn other_calls(rt: HostRuntime) -> Result<(), Fail> {
    let mut log = Log::new(rt.alloc());
    if let Some(body) = seven(rt.alloc())? {
        answers(rt.alloc(), body, &mut log);
    }
    assert!(rt;
        log.is(b"([97, 98], 5, 2)timed outxc\ndeOk(2)c\nOk(2)(true, Ok(false))Some(false)GET")
    );
    Ok(())
}
