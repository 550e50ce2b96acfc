//! What is written: answers, refusals and calls for bodies; and what is held is sent.
ghost use Rattle.std.specs.Prelude.{◌≡◌, ◌++◌, codes, map};
ghost use Rattle.std.specs.List.{concat};
ghost use Rattle.buffer_redux.specs.WriteParts.{WritesParts};
ghost use Rattle.requests.specs.Sending.{IsHeld, SendsForRoom, SendsHeld};
ghost use Rattle.requests.specs.Texts.{answered, begins_known, begins_often, called, connection, early_refusal, granted, has_body, is_called, is_known, refusal, refusal_of, status, success, waits};

use crate::limits::is_large;
use buffer_redux::BufWriter;
use buffer_redux::tell::{Tell, TellWrite};
use messages::{BadHead, Extent, ParsedHead, blank_len};
use std::io;
use std::io::Write;

// Why what comes is refused, by a status each.
#[derive(Clone, Copy, Drop)]
pub(crate) enum Refusal {
    // 400.
    BadRequest,
    // 413.
    LargeBody,
    // 414.
    LongTarget,
    // 417.
    Unmet,
    // 431.
    LargeHead,
    // 501.
    Unknown,
    // 505.
    OtherVersion,
}

// Whether the method of a head is known.
pub(crate) fn is_known(head: &[u8]) -> bool
    ensures { result ≡ is_known head.now }
{
    begins_known(&head[blank_len(head)..])
}

fn begins_known(line: &[u8]) -> bool
    ensures { result ≡ begins_known line.now }
{
    begins_often(line)
        || (line.starts_with(b"DELETE ")
            || (line.starts_with(b"OPTIONS ") || line.starts_with(b"PATCH ")))
}

fn begins_often(line: &[u8]) -> bool
    ensures { result ≡ begins_often line.now }
{
    line.starts_with(b"GET ")
        || (line.starts_with(b"HEAD ") || (line.starts_with(b"POST ") || line.starts_with(b"PUT ")))
}

// Answers a request that came whole.
pub(crate) fn answer_whole<W: TellWrite>(
    known: bool,
    len: u64,
    said: ParsedHead,
    writer: &mut BufWriter<W>,
) -> io::Result<()>
    ensures { WritesParts W.log W.trace writer.old (answered known said len) result writer.new }
{
    if !known {
        return refuse(Refusal::Unknown, said.keeps, writer);
    }
    if said.met {
        accept(len, said, writer)
    } else {
        refuse(Refusal::Unmet, said.keeps, writer)
    }
}

// Says how many bytes of payload there were, and whether another request may follow.
fn accept<W: TellWrite>(len: u64, said: ParsedHead, writer: &mut BufWriter<W>) -> io::Result<()>
    ensures { WritesParts W.log W.trace writer.old (granted said len) result writer.new }
{
    let head = success(said.keeps);
    if said.bare {
        return put(writer, &[head]);
    }
    let mut digits = itoa::Buffer::new();
    let number = digits.format(len).as_bytes();
    let blanks: &[u8] = b"                    ";
    put_line(head, &blanks[number.len()..], number, writer)
}

fn success(keeps: bool) -> &'static [u8]
    ensures { result.now ≡ success keeps }
{
    if keeps {
        b"HTTP/1.1 200 OK\r\nContent-Length: 21\r\nConnection: keep-alive\r\n\r\n"
    } else {
        b"HTTP/1.1 200 OK\r\nContent-Length: 21\r\nConnection: close\r\n\r\n"
    }
}

fn put_line<'a, W: TellWrite>(
    head: &'a [u8],
    blanks: &'a [u8],
    number: &'a [u8],
    writer: &mut BufWriter<W>,
) -> io::Result<()>
    ensures { WritesParts W.log W.trace writer.old (head.now ++ (blanks.now ++ (number.now ++ codes "\n"))) result
        writer.new }
{
    put(writer, &[head, blanks, number, b"\n"])
}

pub(crate) fn call_for_body<W: TellWrite>(
    known: bool,
    said: ParsedHead,
    writer: &mut BufWriter<W>,
) -> io::Result<()>
    ensures { SendsForRoom W.log W.trace writer.old (called (is_called known said)) result writer.new }
{
    if is_called(known, said) {
        put(writer, &[b"HTTP/1.1 100 Continue\r\n\r\n"])
    } else {
        Ok(())
    }
}

fn is_called(known: bool, said: ParsedHead) -> bool
    ensures { result ≡ is_called known said }
{
    waits(said) && (known && said.met)
}

fn waits(said: ParsedHead) -> bool
    ensures { result ≡ waits said }
{
    said.expects && (has_body(said.extent) && !is_large(said.extent, 0, 0))
}

// How a request is refused before its body comes, where the client waits for a call for that.
pub(crate) fn early_refusal(known: bool, said: ParsedHead) -> Option<Refusal>
    ensures { result ≡ early_refusal known said }
{
    if !waits(said) {
        return None;
    }
    if !known {
        return Some(Refusal::Unknown);
    }
    if said.met { None } else { Some(Refusal::Unmet) }
}

fn has_body(extent: Extent) -> bool
    ensures { result ≡ has_body extent }
{
    match extent {
        Extent::Sized(len) => len > 0,
        Extent::Chunked => true,
    }
}

pub(crate) fn refusal_of(why: BadHead) -> Refusal
    ensures { result ≡ refusal_of why }
{
    match why {
        BadHead::BareEnd | BadHead::CutShort(_) | BadHead::Refused => Refusal::BadRequest,
        BadHead::LongLine => Refusal::LongTarget,
        BadHead::LongHead | BadHead::ManyFields => Refusal::LargeHead,
        BadHead::Tunnel | BadHead::Coding => Refusal::Unknown,
        BadHead::Version => Refusal::OtherVersion,
    }
}

// Refuses what came, and says whether another request may follow.
pub(crate) fn refuse<W: TellWrite>(
    why: Refusal,
    keeps: bool,
    writer: &mut BufWriter<W>,
) -> io::Result<()>
    ensures { WritesParts W.log W.trace writer.old (refusal why keeps) result writer.new }
{
    put_refusal(status(why), connection(keeps), writer)
}

fn put_refusal<'a, W: TellWrite>(
    status: &'a [u8],
    connection: &'a [u8],
    writer: &mut BufWriter<W>,
) -> io::Result<()>
    ensures { WritesParts W.log W.trace writer.old (codes "HTTP/1.1 " ++ (status.now
        ++ (codes "\r\nContent-Length: 0\r\nConnection: " ++ (connection.now ++ codes "\r\n\r\n")))) result writer.new }
{
    put(
        writer,
        &[
            b"HTTP/1.1 ",
            status,
            b"\r\nContent-Length: 0\r\nConnection: ",
            connection,
            b"\r\n\r\n",
        ],
    )
}

fn status(why: Refusal) -> &'static [u8]
    ensures { result.now ≡ status why }
{
    match why {
        Refusal::BadRequest => b"400 Bad Request",
        Refusal::LargeBody => b"413 Content Too Large",
        Refusal::LongTarget => b"414 URI Too Long",
        Refusal::Unmet => b"417 Expectation Failed",
        Refusal::LargeHead => b"431 Request Header Fields Too Large",
        Refusal::Unknown => b"501 Not Implemented",
        Refusal::OtherVersion => b"505 HTTP Version Not Supported",
    }
}

fn connection(keeps: bool) -> &'static [u8]
    ensures { result.now ≡ connection keeps }
{
    if keeps { b"keep-alive" } else { b"close" }
}

fn put<W: TellWrite>(writer: &mut BufWriter<W>, parts: &[&[u8]]) -> io::Result<()>
    ensures { WritesParts W.log W.trace writer.old (concat (map (λ part. part.now) parts.now)) result writer.new }
{
    writer.write_parts(parts)
}

// Sends what is held, if there is something.
pub(crate) fn send_held<W: TellWrite>(writer: &mut BufWriter<W>) -> io::Result<()>
    requires held { IsHeld writer.old }
    ensures { SendsHeld W.log W.trace writer.old result writer.new }
{
    if writer.buffer().is_empty() {
        return Ok(());
    }
    writer.flush()
}
