//! Readers of parts.
use crate::bodies::{BODIES, Body};
use body_reader::BodyError;
use buffer_redux::BufReader;
use buffer_redux::policy::{MinBuffered, ReaderPolicy};
use multipart::{Limits, Multipart, NewError, PartError, Stand, field, parameter};
use redux_script::Answer;
use std::alloc::Global;
use std::io;
use std::io::ErrorKind;
use std::test::Fail;
use tests_common::{Log, Source, asked, first, holding_in, reader, reader_under, source};

pub const LIMITS: Limits = Limits {
    head: 200,
    parts: 4,
};

// One read of text.
fn next<P: ReaderPolicy + Drop>(
    parts: &mut Multipart<Source, P>,
    lent: bool,
    out: &mut [u8],
) -> Result<usize, BodyError<()>> {
    if !lent {
        return parts.read(out);
    }
    let _ = parts.fill()?;
    let piece = parts.piece();
    let count = piece.len().min(out.len());
    out[..count].copy_from_slice(&piece[..count]);
    parts.consume(count);
    Ok(count)
}

// Notes the text of a part, and a bar.
fn note_text<P: ReaderPolicy + Drop>(
    parts: &mut Multipart<Source, P>,
    lent: bool,
    log: &mut Log,
) -> Result<(), BodyError<()>> {
    let mut out = [0; 5];
    for _ in 0..200 {
        let count = next(parts, lent, &mut out)?;
        if count == 0 {
            break;
        }
        log.note(first(&out, count));
    }
    Ok(log.note(b"|"))
}

// Notes what a head says, nothing where it doesn't, each with a bar.
fn note_head(head: &[u8], log: &mut Log) {
    let said = field(head, b"content-disposition").unwrap_or(b"");
    log.note(parameter(said, b"name").unwrap_or(b""));
    log.note(b"|");
    log.note(parameter(said, b"filename").unwrap_or(b""));
    log.note(b"|");
    log.note(field(head, b"content-type").unwrap_or(b""));
    log.note(b"|");
}

fn note_parts<P: ReaderPolicy + Drop>(
    parts: &mut Multipart<Source, P>,
    lent: bool,
    log: &mut Log,
) -> Result<(), PartError> {
    for _ in 0..20 {
        if !parts.next_part()? {
            break;
        }
        note_head(parts.head(), log);
        note_text(parts, lent, log)?;
    }
    Ok(())
}

// Notes each part, and then `end`, or why there is no other.
fn note_all<P: ReaderPolicy + Drop>(parts: &mut Multipart<Source, P>, lent: bool, log: &mut Log) {
    let noted = note_parts(parts, lent, log);
    let is_end = parts.stand() == Stand::Ended;
    match noted {
        Ok(()) if is_end => log.note(b"end"),
        Err(why) if !is_end => log.show(&why),
        _ => log.note(b"it stands elsewhere"),
    }
}

pub fn parts_of<P: ReaderPolicy + Drop>(
    alloc: Global,
    inner: BufReader<Source, P>,
    boundary: &[u8],
    limits: Limits,
) -> io::Result<Multipart<Source, P>> {
    Multipart::new(alloc, inner, boundary, limits).map_err(|_| io::Error::from(
        ErrorKind::InvalidInput,
    ))
}

// What came of a body: its parts, and how often the stream was asked; the same again; and what is behind.
#[derive(Drop)]
struct Came {
    parts: Log,
    asks: usize,
    again: Log,
    behind: Log,
}

fn play<P: ReaderPolicy + Drop>(
    alloc: Global,
    inner: BufReader<Source, P>,
    boundary: &[u8],
    limits: Limits,
    lent: bool,
) -> io::Result<Came> {
    let mut parts = parts_of(alloc, inner, boundary, limits)?;
    let mut came = Came {
        parts: Log::new(alloc),
        asks: 0,
        again: Log::new(alloc),
        behind: Log::new(alloc),
    };
    note_all(&mut parts, lent, &mut came.parts);
    came.asks = asked(parts.get_ref()).len();
    note_all(&mut parts, lent, &mut came.again);
    came.behind.note(parts.into_inner_torn().buffer());
    Ok(came)
}

// A reader of these bytes over such a buffer, whose stream answers by a script.
fn inner(
    alloc: Global,
    bytes: &[u8],
    script: &[Answer],
    is_ring: bool,
    capacity: usize,
) -> io::Result<BufReader<Source>> {
    let stream = source(alloc, bytes, script)?;
    Ok(BufReader::with_buffer(holding_in(alloc, is_ring, capacity, b"")?, stream))
}

// Whether parts end again as they did.
fn ends_again(came: &Came) -> bool {
    came.parts.text().ends_with(came.again.text())
}

// Whether what is noted is the beginning of this, and then that the stream ended, or all, and the end.
fn is_said(noted: &[u8], said: &[u8], is_whole: bool) -> bool {
    let end = if is_whole {
        b"end".as_slice()
    } else {
        b"the stream ended within the body"
    };
    match noted.strip_suffix(end) {
        Some(front) => said.starts_with(front) && (front == said || !is_whole),
        None => false,
    }
}

// Whether just the parts that are there came of the first bytes, and then the end twice, and what is behind stays.
fn is_right(body: &Body, count: usize, came: &Came) -> bool {
    let is_whole = count >= body.bytes.len().saturating_sub(body.behind.len());
    is_said(came.parts.text(), body.said, is_whole)
        && ends_again(came)
        && (!is_whole || body.behind.starts_with(came.behind.text()))
}

// The same where they come in such pieces, over such a buffer, and are read by slices or lent.
fn comes(
    alloc: Global,
    body: &Body,
    count: usize,
    piece: usize,
    (capacity, is_ring, lent): (usize, bool, bool),
) -> io::Result<bool> {
    let capacity = capacity.max(body.boundary.len().saturating_add(4));
    let script = [Answer::ServeEach(piece)];
    let inner = inner(alloc, first(body.bytes, count), &script, is_ring, capacity)?;
    let came = play(alloc, inner, body.boundary, LIMITS, lent)?;
    Ok(is_right(body, count, &came))
}

#[test]
fn reads_parts(rt: HostRuntime) -> Result<(), Fail> {
    for body in &BODIES {
        for piece in [1, 3, 1000] {
            for capacity in [0, 64, 8192] {
                for (is_ring, lent) in [(false, false), (false, true), (true, true)] {
                    let how = (capacity, is_ring, lent);
                    assert!(rt; comes(rt.alloc(), body, body.bytes.len(), piece, how)?);
                }
            }
        }
    }
    Ok(())
}

#[test]
fn tells_where_bodies_are_cut(rt: HostRuntime) -> Result<(), Fail> {
    for body in &BODIES {
        for count in 0..body.bytes.len() {
            for (piece, capacity, lent) in [(1000, 0, false), (7, 64, true), (1000, 8192, false)] {
                assert!(rt; comes(rt.alloc(), body, count, piece, (capacity, false, lent))?);
            }
        }
    }
    Ok(())
}

// What comes of bytes before the stream is asked for more, which fails and ends it.
static SHOWN: [(&[u8], &[u8]); 6] = [
    (b"--b\r\n\r\n", b"|||timed out"),
    (b"--b\r\n\r\nab", b"|||abtimed out"),
    (b"--b\r\n\r\nab\r\n-", b"|||abtimed out"),
    (b"--b\r\n\r\nab\r\n--b\r\n\r\nc", b"|||ab||||ctimed out"),
    (b"--b\r\n\r\nab\r\n--b--", b"|||ab|end"),
    (b"--b--", b"end"),
];

// The same under such a minimum.
fn settles(
    alloc: Global,
    (bytes, said): (&[u8], &[u8]),
    minimum: Option<usize>,
    is_ring: bool,
    lent: bool,
) -> io::Result<bool> {
    let script = [Answer::Serve(100), Answer::Fail(ErrorKind::TimedOut)];
    let inner = inner(alloc, bytes, &script, is_ring, 64)?;
    let came = match minimum {
        Some(n) => play(
            alloc,
            reader_under(inner, MinBuffered(n)),
            b"b",
            LIMITS,
            lent,
        )?,
        None => play(alloc, inner, b"b", LIMITS, lent)?,
    };
    Ok(came.parts.is(said) && came.asks <= 2)
}

#[test]
fn asks_for_nothing_that_is_settled(rt: HostRuntime) -> Result<(), Fail> {
    for &row in &SHOWN {
        for (is_ring, lent) in [(false, false), (false, true), (true, true)] {
            for minimum in [None, Some(0), Some(1), Some(64)] {
                assert!(rt; settles(rt.alloc(), row, minimum, is_ring, lent)?);
            }
        }
    }
    Ok(())
}

const BOUNDARY: &[u8] = b"a boundary is not alone in its line, or in a head";

const LONG: &[u8] = b"the head of a part is too long";

// Behind a part that says nothing.
const MANY: &[u8] = b"||||there are too many parts";

// Bytes, and why their parts end, under limits of nine bytes of a head and of one part.
static WRONG: [(&[u8], &[u8]); 17] = [
    (b"--bc\r\n\r\n", BOUNDARY),
    (b"--bc", BOUNDARY),
    (b"--b-\r", BOUNDARY),
    (b"--b \tc", BOUNDARY),
    (b"--b\n", BOUNDARY),
    (b"--b\rc", BOUNDARY),
    (b"--b \r\r", BOUNDARY),
    (b"--b\r\n--b", BOUNDARY),
    (b"--b\r\nA\r\n--b", BOUNDARY),
    (b"--b\r\nA: 123456", LONG),
    (b"--b          ", LONG),
    (b"--b\r\n\r\n\r\n--b\r\n\r\n", MANY),
    (b"--b\r\n\r\n\r\n--b\r\nA", MANY),
    (b"--b\r\n\r\n\r\n--b ", MANY),
    (b"--b\r\n\r\n\r\n--b\r", MANY),
    (b"--b\r\n\r\n\r\n--b-a", MANY),
    (b"--b\r\n\r\n\r\n--bc", MANY),
];

// Whether the parts of these bytes, which come in such pieces, end so, twice. The end isn't seen.
fn fails(alloc: Global, bytes: &[u8], piece: usize, why: &[u8]) -> io::Result<bool> {
    let inner = inner(alloc, bytes, &[Answer::ServeEach(piece)], false, 100)?;
    let came = play(alloc, inner, b"b", Limits { head: 9, parts: 1 }, false)?;
    Ok(came.parts.is(why) && ends_again(&came))
}

#[test]
fn refuses_what_is_wrong(rt: HostRuntime) -> Result<(), Fail> {
    for &(bytes, why) in &WRONG {
        for piece in [1, 1000] {
            assert!(rt; fails(rt.alloc(), bytes, piece, why)?);
        }
    }
    Ok(())
}

fn is_refused(alloc: Global, inner: BufReader<Source>, boundary: &[u8], why: NewError) -> bool {
    match Multipart::new(alloc, inner, boundary, LIMITS) {
        Ok(_) => false,
        Err((_, refusal)) => refusal == why,
    }
}

#[test]
fn refuses_to_begin(rt: HostRuntime) -> Result<(), Fail> {
    let rows: [(&[u8], usize, NewError); 4] = [
        (b"", 100, NewError::Boundary),
        (b"a\rb", 100, NewError::Boundary),
        (b"a\nb", 100, NewError::Boundary),
        (b"0123456789", 13, NewError::Room),
    ];
    for (boundary, capacity, why) in rows {
        let inner = reader(rt.alloc(), capacity, b"", source(rt.alloc(), b"", &[])?)?;
        assert!(rt; is_refused(rt.alloc(), inner, boundary, why));
    }
    Ok(())
}
