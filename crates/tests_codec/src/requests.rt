//! Heads of requests, and messages one after another.
use crate::asks::gives;
use buffer_redux::Buffer;
use buffer_redux::tell::TellRead;
use messages::laws::{Stopped, pass};
use messages::{BadHead, Body, Limits, ParsedHead, Requests, Stop, read_head, read_head_within};
use std::alloc::Global;
use std::io;
use std::test::Fail;
use tests_common::{Log, Source, holding, kind, read, source};

// Heads, and what they say by RFC 9112, sections 2.2, 3, 6 and 9.3, and RFC 9110, sections 2.5 and 10.1.1, or why they are none.
static HEADS: [(&'static [u8], &'static [u8]); 9] = [
    (b"GET / HTTP/1.1\r\nHost: a\r\n\r\n", b"Sized(0) keeps met"),
    (
        b"HEAD / HTTP/1.1\r\nHost: a\r\nConnection: close\r\n\r\n",
        b"Sized(0) bare met",
    ),
    (
        b"PUT /a HTTP/1.1\r\nHost: a\r\nContent-Length: 5\r\nExpect: 100-continue\r\n\r\n",
        b"Sized(5) keeps expects met",
    ),
    (
        b"POST /a HTTP/1.1\r\nHost: a\r\nTransfer-Encoding: chunked\r\n\r\n",
        b"Chunked keeps met",
    ),
    (
        b"GET /a HTTP/1.1\r\nHost: a\r\nExpect: 101-continue\r\n\r\n",
        b"Sized(0) keeps",
    ),
    (b"GET / HTTP/1.0\r\n\r\n", b"Sized(0) met"),
    (
        b"GET / HTTP/1.0\r\nConnection: keep-alive\r\n\r\n",
        b"Sized(0) keeps met",
    ),
    (b"GET / HTTP/1.1\r\n\r\n", b"Refused"),
    (b"GET / HTTP/1.2\nHost: a\n\n", b"Sized(0) keeps met"),
];

static NONE: [(&'static [u8], &'static [u8]); 9] = [
    (b"GET / HTTP/1.1\r\nHost: a\r\n\r\nb", b"Refused"),
    (b"GET / HTTP/2.0\r\nHost: a\r\n\r\n", b"Version"),
    (b"GET / HTTP/2.0\nHost: a\n\n", b"Version"),
    (b"GET /\nX: HTTP/2.0\r\n\r\n", b"Refused"),
    (b"CONNECT a:80 HTTP/1.1\r\nHost: a:80\r\n\r\n", b"Tunnel"),
    (
        b"PUT / HTTP/1.1\r\nHost: a\r\nContent-Length: 5\r\nContent-Length: 6\r\n\r\n",
        b"Refused",
    ),
    (
        b"PUT / HTTP/1.1\r\nHost: a\r\nContent-Length: 5\r\nTransfer-Encoding: chunked\r\n\r\n",
        b"Refused",
    ),
    (
        b"PUT / HTTP/1.1\r\nHost: a\r\nTransfer-Encoding: gzip\r\n\r\n",
        b"Refused",
    ),
    (
        b"PUT / HTTP/1.1\r\nHost: a\r\nTransfer-Encoding: gzip, chunked\r\n\r\n",
        b"Coding",
    ),
];

fn note_if(is_so: bool, word: &[u8], log: &mut Log) {
    if is_so {
        log.note(word);
    }
}

fn note_head(head: ParsedHead, log: &mut Log) {
    log.show_debug(&head.extent);
    note_if(head.bare, b" bare", log);
    note_if(head.keeps, b" keeps", log);
    note_if(head.expects, b" expects", log);
    note_if(head.met, b" met", log);
}

// Whether a head says this.
fn says(alloc: Global, head: &[u8], said: &[u8]) -> bool {
    let mut log = Log::new(alloc);
    match read_head(head) {
        Ok(head) => note_head(head, &mut log),
        Err(why) => log.show_debug(&why),
    }
    log.is(said)
}

#[test]
fn reads_heads(rt: HostRuntime) -> Result<(), Fail> {
    for rows in [HEADS.as_slice(), &NONE] {
        for (row, &(head, said)) in rows.iter().enumerate() {
            assert!(rt; says(rt.alloc(), head, said), "row {row}");
        }
    }
    Ok(())
}

const TWO: &[u8] =
    b"GET /a HTTP/1.1\r\nHost: h\r\n\r\nPUT /b HTTP/1.1\r\nHost: h\r\nContent-Length: 2\r\n\r\nok";

const CUT: &[u8] = b"PUT /b HTTP/1.1\r\nHost: h\r\nContent-Length: 3\r\n\r\nok";

const CUT_CHUNKS: &[u8] =
    b"PUT /b HTTP/1.1\r\nHost: h\r\nTransfer-Encoding: chunked\r\n\r\n2\r\nok\r\n0\r\n";

// What is given, how many messages are passed, and how many bytes are buffered then, or why they aren't passed.
static PASSED: [(&'static [u8], usize, &'static [u8]); 6] = [
    (TWO, 0, b"8"),
    (TWO, 1, b"49"),
    (TWO, 2, b"0"),
    (TWO, 3, b"Ended"),
    (CUT, 1, b"Truncated(Some(1))"),
    (CUT_CHUNKS, 1, b"Truncated(None)"),
];

// The same of what comes in place of a head.
static NO_HEADS: [(&'static [u8], usize, &'static [u8]); 7] = [
    (b"GET / HTTP/1.1\nHost: a\r\n\r\n", 1, b"BareEnd"),
    (b"GET / HTTP/1.1\r\nHost: a\rb\r\n\r\n", 1, b"BareEnd"),
    (b"GET / HTTP/1.1\r\nHost: a\r\n", 1, b"CutShort(25)"),
    (b"SSH-2.0-x\r\n", 1, b"Refused"),
    (b"\x16\x03\x01", 1, b"Refused"),
    (b"GET / HTTP/2.0\r", 1, b"Version"),
    (b"GET / HTTP/1.9\r", 1, b"CutShort(15)"),
];

// A reader over a buffer that holds the first eight bytes, with no room for a head.
fn over(alloc: Global, bytes: &[u8]) -> io::Result<Requests<Source>> {
    let at = bytes.len().min(8);
    let stream = source(alloc, bytes.get(at..).unwrap_or(b""), &[])?;
    let buffer = holding(alloc, 8, bytes)?;
    let head = Buffer::with_capacity(alloc, 0)?;
    let limits = Limits::default();
    Ok(Requests::with_buffers_and_limits(alloc, buffer, head, stream, limits)?)
}

// The same reader, made again of its parts.
fn again<R: TellRead + Drop>(alloc: Global, requests: Requests<R>) -> io::Result<Requests<R>> {
    let (inner, buffer, head) = requests.into_inner_with_buffers();
    Ok(Requests::with_buffers(alloc, buffer, head, inner)?)
}

// Notes where it stopped.
fn note_stop<R: TellRead + Drop>(stopped: Stopped<R>, log: &mut Log) {
    match stopped {
        Stopped::Before(_requests, stop) => match &stop {
            Stop::Bad(why) => log.show_debug(why),
            _ => log.show_debug(&stop),
        },
        Stopped::Inside(_body, e) => log.show_debug(&e),
    }
}

// Whether what comes of messages that are passed is this.
fn passes(alloc: Global, bytes: &[u8], count: usize, went: &[u8]) -> io::Result<bool> {
    let mut log = Log::new(alloc);
    match pass(again(alloc, over(alloc, bytes)?)?, count) {
        Ok(next) => log.show(&next.buffered().len()),
        Err(stopped) => note_stop(stopped, &mut log),
    }
    Ok(log.is(went))
}

#[test]
fn passes_messages(rt: HostRuntime) -> Result<(), Fail> {
    for rows in [PASSED.as_slice(), &NO_HEADS] {
        for (row, &(bytes, count, went)) in rows.iter().enumerate() {
            assert!(rt; passes(rt.alloc(), bytes, count, went)?, "row {row}");
        }
    }
    Ok(())
}

// So much of a text behind another, and the name of that.
static TOO_MUCH: [(&'static [u8], usize, &'static [u8], &'static [u8]); 3] = [
    (b"GET /", 16384, b"a", b"LongLine"),
    (b"GET / HTTP/1.1\r\nHost: ", 16384, b"a", b"LongHead"),
    (b"GET / HTTP/1.1\r\n", 65, b"Host: a\r\n", b"ManyFields"),
];

fn refuses(alloc: Global, front: &[u8], count: usize, many: &[u8], why: &[u8]) -> io::Result<bool> {
    let mut text = Vec::from_slice(alloc, front)?;
    for _ in 0..count {
        text.extend_from_slice(many)?;
    }
    text.extend_from_slice(b"\r\n\r\n")?;
    passes(alloc, &text, 1, why)
}

#[test]
fn refuses_too_much(rt: HostRuntime) -> Result<(), Fail> {
    for &(front, count, many, why) in &TOO_MUCH {
        assert!(rt; refuses(rt.alloc(), front, count, many, why)?, "{count}");
    }
    Ok(())
}

// Few fields, and short lines.
const FEW: Limits = Limits {
    fields: 2,
    line: 2,
    trailers: 3,
};

const MANY: &[u8] = b"GET / HTTP/1.1\r\nHost: a\r\nB: b\r\nC: c\r\n\r\n";

// Two messages, and whether they pass under those limits.
static LIMITED: [(&'static [u8], bool); 4] = [
    (
        b"GET / HTTP/1.1\r\nHost: a\r\nB: b\r\n\r\n\
POST / HTTP/1.1\r\nHost: a\r\nTransfer-Encoding: chunked\r\n\r\n03\r\nabc\r\n0\r\nT:v\r\n\r\n",
        true,
    ),
    (
        b"GET / HTTP/1.1\r\nHost: a\r\nB: b\r\n\r\n\
POST / HTTP/1.1\r\nHost: a\r\nTransfer-Encoding: chunked\r\n\r\n003\r\nabc\r\n0\r\nT:v\r\n\r\n",
        false,
    ),
    (
        b"GET / HTTP/1.1\r\nHost: a\r\nB: b\r\n\r\n\
POST / HTTP/1.1\r\nHost: a\r\nTransfer-Encoding: chunked\r\n\r\n3\r\nabc\r\n0\r\nT: v\r\n\r\n",
        false,
    ),
    (
        b"GET / HTTP/1.1\r\nHost: a\r\n\r\nGET / HTTP/1.1\r\nHost: a\r\nB: b\r\nC: c\r\n\r\n",
        false,
    ),
];

fn limited(alloc: Global, bytes: &[u8]) -> io::Result<bool> {
    let requests = Requests::with_limits(alloc, source(alloc, bytes, &[])?, FEW)?;
    Ok(pass(requests, 2).is_ok())
}

#[test]
fn keeps_to_limits(rt: HostRuntime) -> Result<(), Fail> {
    for (row, &(bytes, passes)) in LIMITED.iter().enumerate() {
        assert!(rt; limited(rt.alloc(), bytes)? == passes, "row {row}");
    }
    assert!(rt; read_head_within(MANY, FEW) == Err(BadHead::ManyFields));
    Ok(())
}

const PUT: &[u8] = b"PUT /b HTTP/1.1\r\nHost: h\r\nContent-Length: 5\r\n\r\nhello";

// Whether a body shows its head, is read as a stream is, two bytes and then one, and left with the others.
fn is_left<R: TellRead + Drop>(mut body: Body<R>) -> bool {
    let shown = Some(body.head()) == PUT.get(..PUT.len() - 5);
    let told = gives(&mut body, b"he");
    let mut out = [0; 1];
    let count = read(&mut body, &mut out);
    let past = gives(body.get_mut(), b"?");
    let (reader, head) = body.into_inner_torn();
    let left = reader.buffer() == b"lo".as_slice();
    drop(reader);
    let is_head = head.len() + 5 == PUT.len();
    drop(head);
    shown
        && left
        && is_head
        && (told, kind(count), out, past) == (Some(true), Ok(1), *b"l", Some(false))
}

#[test]
fn leaves_a_body(rt: HostRuntime) -> Result<(), Fail> {
    let requests = over(rt.alloc(), PUT)?;
    assert!(rt; requests.get_ref().get_ref().offers().is_empty());
    let left = match requests.next() {
        Ok(body) => {
            let asked = body.get_ref().get_ref().offers().len();
            is_left(body) && asked == 1
        }
        Err(_) => false,
    };
    assert!(rt; left);
    Ok(())
}

#[test]
fn reads_past_a_head(rt: HostRuntime) -> Result<(), Fail> {
    let mut requests = over(rt.alloc(), PUT)?;
    assert!(rt; gives(requests.get_mut(), b"TTP/1.1") == Some(true));
    Ok(())
}
