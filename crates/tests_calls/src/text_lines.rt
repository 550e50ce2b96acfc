//! A reader's own `read_line`, `lines` and `split`: texts whose characters have up to four bytes, wherever a fill ends; what is
//! no UTF-8; and pieces that a fault comes into.
use buffer_redux::tell::{TellRead, Told};
use buffer_redux::{BufReader, GrowError, Lines, Split};
use redux_script::Answer;
use std::alloc::Global;
use std::io;
use std::io::ErrorKind;
use std::test::Fail;
use tests_common::{Source, holding, kind, reader, source};

// A reader over a buffer of this capacity, and a source that gives so many of these bytes in a read at the most.
fn text(alloc: Global, sizes: (usize, usize), bytes: &[u8]) -> Result<BufReader<Source>, Fail> {
    let source = source(alloc, bytes, &[Answer::ServeEach(sizes.1)])?;
    Ok(reader(alloc, sizes.0, &[], source)?)
}

// This call promises nothing here, since the rows look at each answer.
fn line<R: TellRead>(rdr: &mut BufReader<R>, out: &mut String) -> Result<usize, ErrorKind> {
    kind(rdr.read_line(out))
}

static TEXT: &str = "aé€😀b\n\n😀€é\n€";

static LINES: [&str; 5] = ["aé€😀b\n", "\n", "😀€é\n", "€", ""];

fn all_come<R: TellRead>(alloc: Global, rdr: &mut BufReader<R>) -> bool {
    let mut out = String::new(alloc);
    for want in &LINES {
        out.clear();
        if line(rdr, &mut out) != Ok(want.len()) || out.as_str() != *want {
            return false;
        }
    }
    true
}

const SIZES: [(usize, usize); 6] = [(1, 1), (2, 7), (3, 2), (6, 1), (8, 7), (40, 3)];

#[test]
fn wherever_a_fill_ends(rt: HostRuntime) -> Result<(), Fail> {
    for sizes in SIZES {
        let mut rdr = text(rt.alloc(), sizes, TEXT.as_bytes())?;
        assert!(rt; all_come(rt.alloc(), &mut rdr), "{sizes:?}");
    }
    Ok(())
}

// What a stream gives, what of it is appended, the answer, and what stays buffered.
type Row = (
    &'static [u8],
    &'static str,
    Result<usize, ErrorKind>,
    &'static [u8],
);

const INVALID: Result<usize, ErrorKind> = Err(ErrorKind::InvalidData);

// Of a line that is buffered nothing is appended, nor of a piece that no more bytes mend, as a line feed mends none.
static ROWS: [Row; 9] = [
    (b"a", "a", Ok(1), b""),
    (b"ab\xc3", "ab", INVALID, b"\xc3"),
    (b"a\xe2\x82", "a", INVALID, b"\xe2\x82"),
    (b"\xf0\x9f\x98", "", INVALID, b"\xf0\x9f\x98"),
    (b"ab\xffc\nd", "", INVALID, b"ab\xffc\nd"),
    (b"ab\xffc", "", INVALID, b"ab\xffc"),
    (b"a\xed\xa0\x80\n", "", INVALID, b"a\xed\xa0\x80\n"),
    (b"ab\xe2\x82\nc", "", INVALID, b"ab\xe2\x82\nc"),
    (b"\xc3\xa9\nc", "\u{e9}\n", Ok(3), b"c"),
];

fn is_so<R: TellRead>(alloc: Global, rdr: &mut BufReader<R>, row: &Row) -> bool {
    let &(_, appended, answer, left) = row;
    let mut out = String::new(alloc);
    let is_answer = line(rdr, &mut out) == answer;
    is_answer && out.as_str() == appended && rdr.buffer() == left
}

#[test]
fn what_stays_buffered(rt: HostRuntime) -> Result<(), Fail> {
    for row in &ROWS {
        let mut rdr = text(rt.alloc(), (8, 9), row.0)?;
        assert!(rt; is_so(rt.alloc(), &mut rdr, row), "{:?}", row.0);
    }
    Ok(())
}

// A capacity and a limit, the answer to a text of one character, and the capacity then. A part of a character that more than half
// fills a plain buffer lets it grow.
type Size = (usize, usize, Result<usize, ErrorKind>, usize);

const GROWTH: [Size; 5] = [
    (1, 9, Ok(4), 4),
    (4, 9, Ok(4), 4),
    (3, 9, Ok(4), 4),
    (1, 1, Err(ErrorKind::InvalidInput), 1),
    (3, 3, Err(ErrorKind::InvalidInput), 3),
];

fn limited(
    alloc: Global,
    capacity: usize,
    limit: usize,
) -> Result<BufReader<Told<&'static [u8]>>, GrowError> {
    let mut buf = holding(alloc, capacity, &[])?;
    buf.set_limit(limit)?;
    let stream = b"\xf0\x9f\x98\x80".as_slice();
    Ok(BufReader::with_buffer(buf, Told::new(stream)))
}

// What was appended and what is buffered is all that the stream gave.
fn grows<R: TellRead>(alloc: Global, rdr: &mut BufReader<R>, size: Size) -> bool {
    let mut out = String::new(alloc);
    let is_answer = line(rdr, &mut out) == size.2;
    let is_whole = out.is_empty() == !rdr.buffer().is_empty();
    is_answer && is_whole && rdr.capacity() == size.3
}

#[test]
fn a_buffer_below_a_character(rt: HostRuntime) -> Result<(), Fail> {
    for size in GROWTH {
        let mut rdr = limited(rt.alloc(), size.0, size.1)?;
        assert!(rt; grows(rt.alloc(), &mut rdr, size), "{size:?}");
    }
    Ok(())
}

// What a stream gives, its pieces up to a byte, and its lines.
type Cut = (
    &'static [u8],
    u8,
    &'static [&'static [u8]],
    &'static [Result<&'static str, ErrorKind>],
);

// A line that is no UTF-8 is gone, and the next one comes whole.
static CUTS: [Cut; 5] = [
    (b"", b'\n', &[], &[]),
    (b"\n", b'\n', &[b""], &[Ok("")]),
    (
        b"a\r\n\nbc\r\rd\n\r",
        b'\n',
        &[b"a\r", b"", b"bc\r\rd", b"\r"],
        &[Ok("a"), Ok(""), Ok("bc\r\rd"), Ok("\r")],
    ),
    (b"bab\r\n", b'b', &[b"", b"a", b"\r\n"], &[Ok("bab")]),
    (
        b"a\xff\nb\r\n\xc3",
        b'\n',
        &[b"a\xff", b"b\r", b"\xc3"],
        &[
            Err(ErrorKind::InvalidData),
            Ok("b"),
            Err(ErrorKind::InvalidData),
        ],
    ),
];

fn is_piece(given: Option<io::Result<Vec<u8>>>, want: Option<&[u8]>) -> bool {
    match (given, want) {
        (Some(Ok(given)), Some(want)) => given.as_slice() == want,
        (None, None) => true,
        _ => false,
    }
}

fn is_line(given: Option<io::Result<String>>, want: Option<Result<&str, ErrorKind>>) -> bool {
    match (given, want) {
        (Some(Ok(given)), Some(Ok(want))) => given.as_str() == want,
        (Some(Err(e)), Some(Err(kind))) => e.kind() == kind,
        (None, None) => true,
        _ => false,
    }
}

fn is_cut(mut pieces: Split<Source>, wants: &[&[u8]]) -> bool {
    let mut is_so = true;
    for want in wants {
        is_so = is_piece(pieces.next(), Some(*want)) && is_so;
    }
    is_piece(pieces.next(), None) && is_so
}

fn is_read(mut lines: Lines<Source>, wants: &[Result<&str, ErrorKind>]) -> bool {
    let mut is_so = true;
    for want in wants {
        is_so = is_line(lines.next(), Some(*want)) && is_so;
    }
    is_line(lines.next(), None) && is_so
}

#[test]
fn cut_as_stds_cut(rt: HostRuntime) -> Result<(), Fail> {
    for row in &CUTS {
        let pieces = text(rt.alloc(), (3, 2), row.0)?.split(rt.alloc(), row.1);
        assert!(rt; is_cut(pieces, row.2), "{:?}", row.0);
        let lines = text(rt.alloc(), (3, 2), row.0)?.lines(rt.alloc());
        assert!(rt; is_read(lines, row.3), "{:?}", row.0);
    }
    Ok(())
}

// A fault behind the first byte of "ab,c".
fn faulty(alloc: Global) -> Result<BufReader<Source>, Fail> {
    let script = [Answer::Serve(1), Answer::Fail(ErrorKind::WouldBlock)];
    Ok(reader(alloc, 4, &[], source(alloc, b"ab,c", &script)?)?)
}

fn is_told<T: Drop>(given: Option<io::Result<T>>) -> bool {
    matches!(given, Some(Err(_)))
}

// Taken apart where the fault came, and made again of what had begun.
fn split_again(alloc: Global, mut pieces: Split<Source>) -> bool {
    let is_told = is_told(pieces.next());
    let (rdr, begun) = pieces.into_parts();
    let is_begun = begun.as_slice() == b"a".as_slice();
    is_cut(Split::from_parts(alloc, rdr, b',', begun), &[b"ab", b"c"]) && is_told && is_begun
}

fn lined_again(alloc: Global, mut lines: Lines<Source>) -> bool {
    let is_told = is_told(lines.next());
    let (rdr, begun) = lines.into_parts();
    let is_begun = begun.as_slice() == b"a".as_slice();
    is_read(Lines::from_parts(alloc, rdr, begun), &[Ok("ab,c")]) && is_told && is_begun
}

#[test]
fn begun_before(rt: HostRuntime) -> Result<(), Fail> {
    assert!(rt; split_again(rt.alloc(), faulty(rt.alloc())?.split(rt.alloc(), b',')));
    assert!(rt; lined_again(rt.alloc(), faulty(rt.alloc())?.lines(rt.alloc())));
    Ok(())
}
