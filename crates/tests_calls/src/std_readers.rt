//! Calls of std's readers, as a user of std writes them, so that `docs/STD.md` says what is there; and rows of those that a
//! reader has of its own.
use buffer_redux::BufReader;
use buffer_redux::tell::Told;
use redux_script::Answer;
use std::alloc::Global;
use std::io;
use std::io::{BufRead, Cursor, ErrorKind, Read, Seek, SeekFrom};
use std::test::Fail;
use tests_common::{Source, kind, reader, source};

// What the calls that append leave behind one another.
fn appends<R: BufRead>(from: &mut R, line: &mut Vec<u8>) -> io::Result<usize> {
    let mut two = [0; 2];
    from.by_ref().read_exact(&mut two)?;
    let one = from.read(&mut two[1..])?;
    let count = from.read_until(b'\n', line)?;
    let skipped = from.skip_until(b'\n')?;
    from.by_ref().take(2).read_to_end(line)?;
    line.extend_from_slice(&two)?;
    Ok(one.saturating_add(count).saturating_add(skipped))
}

fn seeks<R: BufRead + Seek>(from: &mut R) -> io::Result<u64> {
    from.rewind()?;
    let shown = from.fill_buf()?.len();
    from.consume(shown.min(2));
    from.seek_relative(1)?;
    let at = from.stream_position()?;
    from.seek(SeekFrom::Current(-1))?;
    Ok(at)
}

fn text<R: BufRead>(from: &mut R, text: &mut String) -> io::Result<usize> {
    let line = from.read_line(text)?;
    from.read_to_string(text)?;
    Ok(line)
}

fn through<R: BufRead + Seek>(alloc: Global, from: &mut R) -> bool {
    let mut line = Vec::new(alloc);
    let mut all = String::new(alloc);
    let counts = (
        kind(appends(from, &mut line)),
        kind(seeks(from)),
        kind(text(from, &mut all)),
    );
    counts == (Ok(6), Ok(3), Ok(3))
        && line.as_slice() == b"d\nghac".as_slice()
        && all.as_str() == "cd\nef\nghijk\n"
}

static TEXT: &[u8] = b"abcd\nef\nghijk\n";

#[test]
fn read_as_stds_do(rt: HostRuntime) -> Result<(), Fail> {
    let mut from = reader(rt.alloc(), 4, &[], Told::new(Cursor::new(TEXT)))?;
    assert!(rt; through(rt.alloc(), &mut from));
    Ok(drop(from))
}

// These calls promise nothing here, since the rows look at each answer.
fn until(rdr: &mut BufReader<Source>, byte: u8, out: &mut Vec<u8>) -> io::Result<usize> {
    rdr.read_until(byte, out)
}

fn skip(rdr: &mut BufReader<Source>, byte: u8) -> io::Result<usize> {
    rdr.skip_until(byte)
}

fn byte(rdr: &mut BufReader<Source>) -> io::Result<Option<u8>> {
    rdr.read_byte()
}

fn peek(rdr: &mut BufReader<Source>, n: usize) -> io::Result<&[u8]> {
    rdr.peek(n)
}

#[derive(Clone, Copy)]
enum Step {
    // up to a line feed: what it appends, and its answer
    Until(&'static [u8], Result<usize, ErrorKind>),
    Skip(Result<usize, ErrorKind>),
    Byte(Result<Option<u8>, ErrorKind>),
    Peek(usize, Result<&'static [u8], ErrorKind>),
}

fn is_so(rdr: &mut BufReader<Source>, out: &mut Vec<u8>, step: &Step) -> bool {
    match *step {
        Step::Until(appended, answer) => {
            out.clear();
            kind(until(rdr, b'\n', out)) == answer && out.as_slice() == appended
        }
        Step::Skip(answer) => kind(skip(rdr, b'\n')) == answer,
        Step::Byte(answer) => kind(byte(rdr)) == answer,
        Step::Peek(n, answer) => kind(peek(rdr, n)) == answer,
    }
}

// What is buffered of a capacity of 4, what the source gives, its script, and the calls.
type Row = (
    &'static [u8],
    &'static [u8],
    &'static [Answer],
    &'static [Step],
);

static ROWS: [Row; 3] = [
    (
        b"ab",
        b"c\ndef\ng",
        &[],
        &[
            Step::Byte(Ok(Some(b'a'))),
            Step::Until(b"bc\n", Ok(3)),
            Step::Peek(2, Ok(b"de")),
            Step::Peek(3, Ok(b"def")),
            Step::Skip(Ok(4)),
            Step::Peek(9, Ok(b"g")),
            Step::Byte(Ok(Some(b'g'))),
            Step::Byte(Ok(None)),
            Step::Skip(Ok(0)),
            Step::Until(b"", Ok(0)),
        ],
    ),
    // Interrupted 64 times in a row a fill is made again, but a look ahead is not.
    (
        b"",
        b"xy",
        &[
            Answer::Interrupt(64),
            Answer::Serve(1),
            Answer::Fail(ErrorKind::WouldBlock),
            Answer::Interrupt(65),
            Answer::Serve(1),
            Answer::Interrupt(1),
        ],
        &[
            Step::Byte(Ok(Some(b'x'))),
            Step::Byte(Err(ErrorKind::WouldBlock)),
            Step::Byte(Err(ErrorKind::Interrupted)),
            Step::Byte(Ok(Some(b'y'))),
            Step::Peek(1, Err(ErrorKind::Interrupted)),
            Step::Peek(1, Ok(b"")),
            Step::Byte(Ok(None)),
        ],
    ),
    // At an `Err` what came before it was appended, or is gone, or stays buffered.
    (
        b"a",
        b"bc\nde\n",
        &[
            Answer::Serve(1),
            Answer::Fail(ErrorKind::WouldBlock),
            Answer::Serve(3),
            Answer::Fail(ErrorKind::TimedOut),
            Answer::Serve(1),
            Answer::Fail(ErrorKind::WouldBlock),
        ],
        &[
            Step::Until(b"ab", Err(ErrorKind::WouldBlock)),
            Step::Until(b"c\n", Ok(2)),
            Step::Skip(Err(ErrorKind::TimedOut)),
            Step::Peek(2, Err(ErrorKind::WouldBlock)),
            Step::Byte(Ok(Some(b'e'))),
            Step::Peek(1, Ok(b"\n")),
        ],
    ),
];

fn are_so(rdr: &mut BufReader<Source>, out: &mut Vec<u8>, steps: &[Step]) -> bool {
    for step in steps {
        if !is_so(rdr, out, step) {
            return false;
        }
    }
    true
}

fn holds(alloc: Global, row: &Row) -> Result<bool, Fail> {
    let &(held, bytes, script, steps) = row;
    let mut rdr = reader(alloc, 4, held, source(alloc, bytes, script)?)?;
    Ok(are_so(&mut rdr, &mut Vec::new(alloc), steps))
}

#[test]
fn up_to_a_byte_and_by_one(rt: HostRuntime) -> Result<(), Fail> {
    for row in &ROWS {
        assert!(rt; holds(rt.alloc(), row)?);
    }
    Ok(())
}
