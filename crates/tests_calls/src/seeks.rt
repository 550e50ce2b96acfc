//! Readers and writers that seek.
use buffer_redux::tell::{TellRead, TellSeek, TellWrite, Told};
use buffer_redux::{BufReader, BufWriter, Buffer, GrowError, seek_plan};
use redux_script::{Answer, FaultAt};
use std::alloc::{AllocError, Global};
use std::io::SeekFrom::{Current, End, Start};
use std::io::{Cursor, ErrorKind, Read, Seek, SeekFrom};
use std::test::Fail;
use tests_common::{Positions, consume, debug, empty, fill_buf, kind, seek, write_all, writer};

const HALF: i64 = 4611686018427387904;

// Where to, how many bytes are buffered, and the plan.
static PLANS: [(SeekFrom, usize, &str); 6] = [
    (Start(3), 2, "One(Start(3))"),
    (Current(1), 2, "One(Current(-1))"),
    (Current(3), 2, "One(Current(1))"),
    (Current(i64::MIN), 5, "Two(-5, -9223372036854775808)"),
    (
        Current(-HALF),
        1 << 62,
        "One(Current(-9223372036854775808))",
    ),
    (
        Current(-HALF - 1),
        1 << 62,
        "Two(-4611686018427387904, -4611686018427387905)",
    ),
];

fn plan(alloc: Global, to: SeekFrom, len: usize) -> Result<String, AllocError> {
    debug(alloc, &seek_plan(to, len.min(1 << 62)))
}

#[test]
fn plans(rt: HostRuntime) -> Result<(), Fail> {
    for &(to, len, text) in &PLANS {
        assert!(rt; plan(rt.alloc(), to, len)?.as_str() == text, "{text}");
    }
    Ok(())
}

#[derive(Clone, Copy)]
enum Step {
    // a seek, and what it returns
    Seek(SeekFrom, Result<u64, ErrorKind>),
    // a fill, and what it shows
    Fill(&'static [u8]),
    Consume(usize),
}

// How many calls of the stream come before one that fails, the steps, how many calls there were, and how many bytes are left.
type Row = (usize, &'static [Step], usize, usize);

// Over two bytes and a cursor.
static PLAIN: Row = (
    usize::MAX,
    &[
        Step::Seek(Start(3), Ok(3)),
        Step::Fill(&[0, 1]),
        Step::Seek(Current(0), Ok(3)),
        Step::Fill(&[0, 1]),
        Step::Seek(Current(1), Ok(4)),
        Step::Fill(&[1, 2]),
        Step::Consume(1),
        Step::Seek(Current(-2), Ok(3)),
    ],
    7,
    0,
);

// Over a ring and a cursor.
static RING: Row = (
    usize::MAX,
    &[
        Step::Seek(Start(3), Ok(3)),
        Step::Fill(&[0, 1, 2, 3, 4]),
        Step::Seek(Current(0), Ok(3)),
        Step::Fill(&[0, 1, 2, 3, 4]),
        Step::Seek(Current(1), Ok(4)),
        Step::Fill(&[1, 2, 3, 4]),
        Step::Consume(1),
        Step::Seek(Current(-2), Ok(3)),
        Step::Fill(&[0, 1, 2, 3, 4]),
    ],
    8,
    5,
);

const SHOWN: Step = Step::Fill(&[0, 1, 2, 3, 4]);

const FAILS: Step = Step::Seek(Current(i64::MIN), Err(ErrorKind::TimedOut));

// Over five bytes and positions. A seek by the least offset is two, of which the first fails, or the second.
static ROWS: [Row; 5] = [
    (
        usize::MAX,
        &[
            Step::Fill(&[0, 1, 2, 3, 4]),
            Step::Seek(End(-5), Ok(18446744073709551610)),
            Step::Fill(&[250, 251, 252, 253, 254]),
            Step::Seek(Current(i64::MIN), Ok(9223372036854775802)),
            Step::Fill(&[250, 251, 252, 253, 254]),
            Step::Seek(Current(0), Ok(9223372036854775802)),
        ],
        7,
        0,
    ),
    (9, &[SHOWN, Step::Seek(Start(3), Ok(3))], 2, 0),
    (
        9,
        &[SHOWN, Step::Consume(3), Step::Seek(Current(1), Ok(4))],
        2,
        0,
    ),
    (1, &[SHOWN, FAILS], 2, 5),
    (2, &[SHOWN, FAILS], 3, 0),
];

// Whether a step comes to what it says.
fn is_so<R: TellRead + TellSeek>(rdr: &mut BufReader<R>, step: &Step) -> bool {
    match *step {
        Step::Seek(to, answer) => kind(seek(rdr, to)) == answer,
        Step::Fill(shown) => kind(fill_buf(rdr)) == Ok(shown),
        Step::Consume(amount) => {
            consume(rdr, amount);
            true
        }
    }
}

type Faulty<S> = Told<FaultAt<S>>;

// A stream whose call after so many others fails.
fn faulty<S>(stream: S, before: usize) -> Faulty<S> {
    Told::new(FaultAt::new(stream, before, Answer::Fail(ErrorKind::TimedOut)))
}

fn walks<S: Read + Seek>(rdr: &mut BufReader<Faulty<S>>, row: &Row) -> bool {
    let &(_, steps, calls, left) = row;
    for step in steps {
        if !is_so(rdr, step) {
            return false;
        }
    }
    (rdr.get_ref().get_ref().calls(), rdr.buf_len()) == (calls, left)
}

// Whether a reader over this buffer and this stream goes as its row says.
fn goes<S: Read + Seek + Drop>(buf: Buffer, stream: S, row: &Row) -> bool {
    walks(&mut BufReader::with_buffer(buf, faulty(stream, row.0)), row)
}

fn text() -> Cursor<&'static [u8]> {
    Cursor::new([5, 6, 7, 0, 1, 2, 3, 4].as_slice())
}

#[test]
fn of_a_reader(rt: HostRuntime) -> Result<(), Fail> {
    assert!(rt; goes(empty(rt.alloc(), false, 2)?, text(), &PLAIN));
    assert!(rt; goes(empty(rt.alloc(), true, 8192)?, text(), &RING));
    for row in &ROWS {
        assert!(rt;
            goes(empty(rt.alloc(), false, 5)?, Positions { at: 0 }, row),
            "{:?}",
            row.2
        );
    }
    Ok(())
}

#[derive(Clone, Copy)]
enum Call {
    Write(&'static [u8]),
    // a seek, and what it returns
    Seek(SeekFrom, Result<u64, ErrorKind>),
    Rewind,
    Relative(i64),
    // where it stands
    Position(u64),
}

// The capacity, what is held, how many calls of the stream come before one that fails, the calls, and then what is in the stream,
// how many calls it had, and how many bytes are buffered.
type Written = (
    usize,
    &'static [u8],
    usize,
    &'static [Call],
    &'static [u8],
    usize,
    usize,
);

const LASTS: usize = usize::MAX;

const FIRST: &'static [Call] = &[
    Call::Write(&[0, 1, 2, 3, 4, 5]),
    Call::Write(&[6, 7]),
    Call::Seek(Current(0), Ok(8)),
];

const BEHIND: &'static [Call] = &[
    Call::Write(&[0, 1, 2, 3, 4, 5]),
    Call::Write(&[6, 7]),
    Call::Seek(Current(0), Ok(8)),
    Call::Seek(Start(2), Ok(2)),
    Call::Write(&[8, 9]),
    Call::Position(4),
];

const ABOUT: &'static [Call] = &[
    Call::Write(&[0, 1, 2, 3, 4]),
    Call::Rewind,
    Call::Write(&[9]),
    Call::Relative(2),
    Call::Write(&[8]),
    Call::Position(4),
];

const TO_FIVE: &'static [Call] = &[Call::Seek(Start(5), Ok(5))];

const IN_VAIN: &'static [Call] = &[Call::Seek(Start(5), Err(ErrorKind::TimedOut))];

// A seek comes behind a flush, and none where that fails.
static WRITTEN: [Written; 7] = [
    (3, &[], LASTS, FIRST, &[0, 1, 2, 3, 4, 5, 6, 7], 4, 0),
    (3, &[], LASTS, BEHIND, &[0, 1, 8, 9, 4, 5, 6, 7], 9, 0),
    (3, &[], LASTS, ABOUT, &[9, 1, 2, 8, 4], 9, 0),
    (4, &[1, 2, 3], LASTS, TO_FIVE, &[1, 2, 3], 3, 0),
    (4, &[1, 2, 3], 2, IN_VAIN, &[1, 2, 3], 3, 0),
    (4, &[1, 2, 3], 1, IN_VAIN, &[1, 2, 3], 2, 0),
    (4, &[1, 2, 3], 0, IN_VAIN, &[], 1, 3),
];

// Whether a call comes to what it says.
fn comes<W: TellWrite + TellSeek>(wrt: &mut BufWriter<W>, call: &Call) -> bool {
    match *call {
        Call::Write(bytes) => kind(write_all(wrt, bytes)) == Ok(()),
        Call::Seek(to, answer) => kind(seek(wrt, to)) == answer,
        Call::Rewind => kind(wrt.rewind()) == Ok(()),
        Call::Relative(offset) => kind(wrt.seek_relative(offset)) == Ok(()),
        Call::Position(at) => kind(wrt.stream_position()) == Ok(at),
    }
}

fn writes(wrt: &mut BufWriter<Faulty<Cursor<Vec<u8>>>>, row: &Written) -> bool {
    let &(_, _, _, calls, content, count, left) = row;
    for call in calls {
        if !comes(wrt, call) {
            return false;
        }
    }
    let stream = wrt.get_ref().get_ref();
    stream.get_ref().get_ref().as_slice() == content
        && (stream.calls(), wrt.buf_len()) == (count, left)
}

fn writes_in_place(alloc: Global, row: &Written) -> Result<bool, GrowError> {
    let inner = faulty(Cursor::new(Vec::new(alloc)), row.2);
    Ok(writes(&mut writer(alloc, row.0, row.1, inner)?, row))
}

#[test]
fn of_a_writer(rt: HostRuntime) -> Result<(), Fail> {
    for (at, row) in WRITTEN.iter().enumerate() {
        assert!(rt; writes_in_place(rt.alloc(), row)?, "{at}");
    }
    Ok(())
}
