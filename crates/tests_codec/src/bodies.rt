//! Readers of bodies of a length, in chunks, and of parts up to a delimiter.
use Kind::{Chunks, Length, Mail, OneOf, Part};
use body_reader::{BodyError, BodyReader, ByByte, Coding, Either, Sized, Until};
use buffer_redux::BufReader;
use buffer_redux::policy::{MinBuffered, ReaderPolicy};
use chunked::{Chunked, Limits};
use redux_script::Answer;
use std::alloc::Global;
use std::fmt::Debug;
use std::io;
use std::io::ErrorKind;
use std::test::Fail;
use tests_bodies::dot_stuffed::DotStuffed;
use tests_common::sweep::{Came, FAULT, Run, sweep};
use tests_common::{Log, Source, asked, first, holding_in, read_to_end, reader_under, source};

/// Which coding.
#[derive(Clone, Copy)]
pub enum Kind<'a> {
    /// Of a length.
    Length(u64),
    /// Up to a delimiter.
    Part(&'a [u8]),
    /// A length, as the one of two.
    OneOf(u64),
    /// Under these limits of a line and of the trailers.
    Chunks(usize, usize),
    /// The text of a mail.
    Mail,
}

/// What is given; the payload, a bar, how that ends, and behind how many bytes: `whole`, a bar, and what stands behind; `cut`, or
/// what is wrong; or `failed`.
pub type Row<'a> = (Kind<'a>, &'a [u8], &'a [u8]);

// From the documentation of protocols and from the tests of other parsers, each with a request behind it, under the least limits
// that take it.
static OF_OTHERS: [Row<'static>; 5] = [
    (
        Chunks(1, 0),
        b"4\r\nWiki\r\n5\r\npedia\r\nE\r\n in\r\n\r\nchunks.\r\n0\r\n\r\nGET /",
        b"Wikipedia in\r\n\r\nchunks.|whole 43|GET /",
    ),
    (
        Chunks(2, 0),
        b"7\r\nMozilla\r\n11\r\nDeveloper Network\r\n0\r\n\r\nGET /",
        b"MozillaDeveloper Network|whole 40|GET /",
    ),
    (
        Chunks(2, 0),
        b"25\r\nThis is the data in the first chunk\r\n\r\n1C\r\nand this is the second one\r\n\r\n0\r\n\r\n\
GET /",
        b"This is the data in the first chunk\r\nand this is the second one\r\n|whole 82|GET /",
    ),
    (
        Chunks(3, 31),
        b"5\r\nhello\r\n6\r\n world\r\n000\r\nVary: *\r\nContent-Type: text/plain\r\n\r\nGET /",
        b"hello world|whole 63|GET /",
    ),
    (
        Chunks(44, 0),
        b"5; ilovew3;whattheluck=aretheseparametersfor\r\nhello\r\n6; blahblah; blah\r\n world\r\n0\r\n\r\nGET /",
        b"hello world|whole 85|GET /",
    ),
];

// Bodies, and parts with beginnings of the delimiter in them.
static BODIES: [Row<'static>; 8] = [
    (Chunks(9, 9), b"3\r\nabc\r\n0\r", b"abc|cut 10"),
    (Length(5), b"helloGET", b"hello|whole 5|GET"),
    (Length(5), b"hell", b"hell|cut 4"),
    (OneOf(5), b"helloGET", b"hello|whole 5|GET"),
    (
        Part(b"\r\n--b"),
        b"ab\r\n-\r\n\r\n--bGET",
        b"ab\r\n-\r\n|whole 12|GET",
    ),
    (Part(b"\r\n--b"), b"\r\n--bGET", b"|whole 5|GET"),
    (Part(b"aab"), b"aaaaabab", b"aaa|whole 6|ab"),
    (Part(b"\r\n--b"), b"abcdefg\r\n--", b"abcdefg|cut 7"),
];

// What isn't a body: the name of what is wrong, behind how many bytes that are right. At each limit and one past it.
static WRONG: [Row<'static>; 14] = [
    (Chunks(9, 9), b"1\r\na\r\n;x\r\n", b"a|NoSize 6"),
    (Chunks(9, 9), b"4 x\r\nWiki", b"|BadSize 2"),
    (Chunks(9, 9), b"4;a\nWiki", b"|BareFeed 3"),
    (Chunks(9, 9), b"0\r\nX\r\n", b"|BadField 4"),
    (Chunks(9, 9), b"0\r\nX:\rY", b"|BareReturn 6"),
    (Chunks(9, 9), b"3\r\nWiki\r\n", b"Wik|ChunkTooLong 6"),
    (Chunks(9, 9), b"4\r\nWik", b"Wik|cut 6"),
    (Chunks(20, 0), b"3fffffffffffffff\r\n", b"|cut 18"),
    (Chunks(20, 0), b"4000000000000000\r\n", b"|SizeTooLarge 15"),
    (Chunks(4, 0), b"0004\r\n", b"|cut 6"),
    (Chunks(4, 0), b"00004\r\n", b"|LineTooLong 4"),
    (Chunks(4, 0), b"4;abc\r\n", b"|LineTooLong 4"),
    (Chunks(1, 4), b"0\r\na:\r\nb:\r\n\r\n", b"|whole 13|"),
    (
        Chunks(1, 3),
        b"0\r\na:\r\nb:\r\n\r\n",
        b"|TrailersTooLong 7",
    ),
];

// What the bytes that are shown settle, over a stream that fails where it is asked again.
static SHOWN: [Row<'static>; 10] = [
    (Chunks(9, 9), b"5\r\nhel", b"hel|failed 6"),
    (Chunks(9, 9), b"5\r\nhello\r\n", b"hello|failed 10"),
    (
        Chunks(9, 9),
        b"5\r\nhello\r\n0\r\n\r\nGET",
        b"hello|whole 15|GET",
    ),
    (Length(5), b"hel", b"hel|failed 3"),
    (Length(5), b"hello", b"hello|whole 5|"),
    (Part(b"\r\n--b"), b"ab", b"ab|failed 2"),
    (Part(b"\r\n--b"), b"ab\r\n-x\r", b"ab\r\n-x|failed 6"),
    (Part(b"\r\n--b"), b"ab\r\n--b", b"ab|whole 7|"),
    (Part(b"\r\n--b"), b"\r\n--bGET", b"|whole 5|GET"),
    (Part(b"aab"), b"aaa", b"a|failed 1"),
];

/// How a row is played: through a ring or a plain buffer of this capacity, under such a minimum or none, by slices or lent, and
/// again where the stream failed, and once more behind the end.
#[derive(Clone, Copy)]
pub struct Play {
    pub ring: bool,
    pub capacity: usize,
    pub minimum: Option<usize>,
    pub lent: bool,
    pub again: bool,
}

// One read of payload.
fn next<C: Coding, P: ReaderPolicy + Drop>(
    body: &mut BodyReader<Source, C, P>,
    lent: bool,
    out: &mut [u8],
) -> Result<usize, BodyError<C::Wrong>> {
    if !lent {
        return body.read_payload(out);
    }
    let _ = body.fill_payload()?;
    let piece = body.piece();
    let count = piece.len().min(out.len());
    out[..count].copy_from_slice(&piece[..count]);
    body.consume_payload(count);
    Ok(count)
}

// Notes a read of payload, and how the body ended if it did. Nothing where the stream failed, or else whether it goes on.
fn notes<C: Coding, P: ReaderPolicy + Drop>(
    body: &mut BodyReader<Source, C, P>,
    lent: bool,
    log: &mut Log,
) -> Option<bool>
where
    C::Wrong: Debug,
{
    let mut out = [0; 3];
    let behind = match next(body, lent, &mut out) {
        Ok(0) => {
            log.note(b"|whole ");
            body.taken()
        }
        Ok(n) => {
            log.note(first(&out, n));
            return Some(true);
        }
        Err(BodyError::Io(_)) => return None,
        Err(BodyError::Truncated(right)) => {
            log.note(b"|cut ");
            right
        }
        Err(BodyError::Wrong(why, right)) => {
            log.note(b"|");
            log.show_debug(&why);
            log.note(b" ");
            right
        }
    };
    log.show(&behind);
    Some(false)
}

// Notes the payload, and how it ends. How often the stream failed.
fn payload_of<C: Coding, P: ReaderPolicy + Drop>(
    body: &mut BodyReader<Source, C, P>,
    play: Play,
    log: &mut Log,
) -> usize
where
    C::Wrong: Debug,
{
    let mut failed = 0usize;
    for _ in 0..1000 {
        match notes(body, play.lent, log) {
            Some(true) => {}
            Some(false) => break,
            None if play.again => failed = failed.saturating_add(1),
            None => {
                log.note(b"|failed ");
                log.show(&body.taken());
                break;
            }
        }
    }
    failed
}

// The same, and once more behind the end, which is told again as it was.
fn payload_and_end<C: Coding, P: ReaderPolicy + Drop>(
    alloc: Global,
    body: &mut BodyReader<Source, C, P>,
    play: Play,
    log: &mut Log,
) -> usize
where
    C::Wrong: Debug,
{
    let failed = payload_of(body, play, log);
    if !play.again {
        return failed;
    }
    let mut end = Log::new(alloc);
    let failed = failed.saturating_add(payload_of(body, play, &mut end));
    if !log.text().ends_with(end.text()) {
        log.note(b"|another end");
    }
    failed
}

// Notes what is behind a body that is whole: all that the stream has, or what is buffered. How often the stream failed.
fn rest_of<P: ReaderPolicy>(
    alloc: Global,
    reader: &mut BufReader<Source, P>,
    again: bool,
    log: &mut Log,
) -> usize {
    log.note(b"|");
    if !again {
        log.note(reader.buffer());
        return 0;
    }
    let mut rest = Vec::new(alloc);
    let mut failed = 0;
    if read_to_end(reader, &mut rest).is_err() {
        failed = 1;
        let _ = read_to_end(reader, &mut rest);
    }
    log.note(rest.as_slice());
    failed
}

// Notes what comes of a body. Nothing where the buffer is too small for it.
fn comes<C: Coding, P: ReaderPolicy + Drop>(
    alloc: Global,
    reader: BufReader<Source, P>,
    coding: C,
    play: Play,
    log: &mut Log,
) -> Option<Came>
where
    C::Wrong: Debug,
{
    if reader.capacity() < coding.ahead() {
        return None;
    }
    let mut body = BodyReader::new(reader, coding);
    let mut failed = payload_and_end(alloc, &mut body, play, log);
    let is_done = body.is_done();
    let mut inner = body.into_inner_torn();
    if is_done {
        failed = failed.saturating_add(rest_of(alloc, &mut inner, play.again, log));
    }
    let calls = asked(&inner).len();
    Some(Came { failed, calls })
}

// The same of the coding that a row names.
fn plays<P: ReaderPolicy + Drop>(
    alloc: Global,
    reader: BufReader<Source, P>,
    play: Play,
    kind: Kind<'_>,
    log: &mut Log,
) -> io::Result<Option<Came>> {
    Ok(match kind {
        Length(n) => comes(alloc, reader, Sized(n), play, log),
        Chunks(line, trailers) => {
            let coding = Chunked(Limits { line, trailers });
            comes(alloc, reader, coding, play, log)
        }
        OneOf(n) => {
            let coding = Either::<Sized, Sized>::First(Sized(n));
            comes(alloc, reader, coding, play, log)
        }
        Mail => comes(alloc, reader, ByByte(DotStuffed), play, log),
        Part(bytes) if bytes.is_empty() => None,
        Part(bytes) => {
            let delimiter = Vec::from_slice(alloc, bytes)?;
            comes(alloc, reader, Until::new(delimiter), play, log)
        }
    })
}

/// Notes what comes of these bytes by such a coding.
pub fn note(
    alloc: Global,
    (kind, bytes): (Kind<'_>, &[u8]),
    play: Play,
    script: &[Answer],
    log: &mut Log,
) -> io::Result<Option<Came>> {
    let buffer = holding_in(alloc, play.ring, play.capacity, b"")?;
    let reader = BufReader::with_buffer(buffer, source(alloc, bytes, script)?);
    match play.minimum {
        Some(n) => plays(alloc, reader_under(reader, MinBuffered(n)), play, kind, log),
        None => plays(alloc, reader, play, kind, log),
    }
}

// A row, and how it is played.
#[derive(Drop)]
struct Played<'a>(Row<'a>, Play);

impl Run for Played<'_> {
    fn run(&self, alloc: Global, script: &[Answer]) -> io::Result<Option<Came>> {
        let &Played((kind, bytes, wants), play) = self;
        let mut log = Log::new(alloc);
        let came = note(alloc, (kind, bytes), play, script, &mut log)?;
        Ok(if log.is(wants) { came } else { None })
    }
}

/// By slices and lent, over buffers of each kind.
pub const KINDS: &[(bool, bool)] = &[(false, false), (false, true), (true, false), (true, true)];

// In pieces and byte by byte, with a fault at each read; or of a stream that shows all, and fails where it is asked again.
fn is_so(alloc: Global, played: Played<'_>) -> io::Result<bool> {
    if played.1.again {
        return Ok(sweep(alloc, &[played], &[100, 3, 2, 1], FAULT)?.is_ok());
    }
    let script = [Answer::Serve(100), Answer::Fail(ErrorKind::TimedOut)];
    Ok(played.run(alloc, &script)?.is_some())
}

/// Whether rows are so, over buffers of such a capacity and under such a minimum.
pub fn are_so(
    alloc: Global,
    rows: &[Row<'_>],
    capacity: usize,
    minimum: Option<usize>,
    again: bool,
) -> io::Result<bool> {
    for row in rows {
        for &(ring, lent) in KINDS {
            let play = Play {
                ring,
                capacity,
                minimum,
                lent,
                again,
            };
            if !is_so(alloc, Played(*row, play))? {
                return Ok(false);
            }
        }
    }
    Ok(true)
}

#[test]
fn reads_bodies(rt: HostRuntime) -> Result<(), Fail> {
    for capacity in [5, 8, 64] {
        assert!(rt; are_so(rt.alloc(), &BODIES, capacity, None, true)?);
    }
    for rows in [OF_OTHERS.as_slice(), &WRONG] {
        assert!(rt; are_so(rt.alloc(), rows, 8, None, true)?);
    }
    Ok(())
}

#[test]
fn asks_for_nothing_that_is_settled(rt: HostRuntime) -> Result<(), Fail> {
    for minimum in [None, Some(0), Some(1), Some(64)] {
        assert!(rt; are_so(rt.alloc(), &SHOWN, 64, minimum, false)?);
    }
    Ok(())
}
