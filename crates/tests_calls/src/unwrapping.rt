//! What becomes of a writer's bytes, and of the stream inside it, where it is taken apart or dropped.
use buffer_redux::tell::{TellWrite, Told};
use buffer_redux::{BufWriter, Buffer, GrowError, IntoInnerError, LineWriter, MakeError};
use redux_play::laws;
use redux_script::{Answer, ScriptWriter};
use std::alloc::Global;
use std::cell::Cell;
use std::io;
use std::io::{ErrorKind, Write};
use std::test::Fail;
use tests_common::{display, line_writer, writer};

// A stream that is lent to a writer, and is there behind it. Its drops are counted.
struct Lent<'a> {
    stream: &'a mut ScriptWriter,
    drops: &'a Cell<usize>,
}

impl Write for Lent<'_> {
    fn write(&mut self, buf: &[u8]) -> io::Result<usize> {
        self.stream.write(buf)
    }

    fn flush(&mut self) -> io::Result<()> {
        self.stream.flush()
    }
}

impl Drop for Lent<'_> {
    fn drop(self) {
        self.drops.set(self.drops.get().saturating_add(1));
        let Lent {
            stream: _,
            drops: _,
        } = self;
    }
}

// What is done with a writer. The last two are laws, whose handlers keep the bytes that are left, and drop them.
#[derive(Clone, Copy)]
enum Way {
    Drop,
    Inner,
    InnerWithErr,
    Finish,
    Parts,
    Keep,
    Forget,
}

// A fault, and how many bytes were not sent then.
type Fault = Option<(ErrorKind, usize)>;

// That, and the buffer, if it comes back.
type Came = (Fault, Option<Buffer>);

// What a writer holds, and what is left where the stream takes two bytes.
static HELD: [u8; 3] = [1, 2, 3];

static LEFT: [u8; 1] = [3];

// What the handler is told, if its buffer has what is left.
fn told(e: &io::Error, unsent: &Buffer) -> Fault {
    (unsent.buf() == LEFT.as_slice()).then_some((e.kind(), unsent.len()))
}

// Of an unwrapping that may fail the fault, and how many bytes its writer holds then.
fn inner<W: TellWrite + Drop>(wrt: BufWriter<W>) -> Fault {
    match wrt.into_inner() {
        Ok(_inner) => None,
        Err(failed) => Some((failed.error().kind(), failed.0.buf_len())),
    }
}

fn inner_of_lines<W: TellWrite + Drop>(lines: LineWriter<W>) -> Fault {
    match lines.into_inner() {
        Ok(_inner) => None,
        Err(failed) => Some((failed.error().kind(), failed.0.buf_len())),
    }
}

// Of one that hands the fault out that, with which bytes may be gone.
fn fault_of<W: Drop>((_inner, e): (W, Option<io::Error>)) -> Fault {
    Some((e?.kind(), 0))
}

fn finish<W: TellWrite + Drop>(wrt: BufWriter<W>) -> Came {
    let mut came = None;
    let (_inner, buf) = wrt.finish(|_, unsent: &mut Buffer, e: io::Error| came = told(&e, unsent));
    (came, Some(buf))
}

fn finish_lines<W: TellWrite + Drop>(lines: LineWriter<W>) -> Came {
    let mut came = None;
    let (_inner, buf) = lines.finish(|_, unsent: &mut Buffer, e: io::Error| came = told(
        &e, unsent,
    ));
    (came, Some(buf))
}

// Of two parts the buffer.
fn buffer_of<W: Drop>((_inner, buf): (W, Buffer)) -> Came {
    (None, Some(buf))
}

// What comes of a writer. Of one that is dropped nothing does.
fn ends<W: TellWrite + Drop>(wrt: BufWriter<W>, way: Way) -> Came {
    match way {
        Way::Drop => (None, None),
        Way::Inner => (inner(wrt), None),
        Way::InnerWithErr => (fault_of(wrt.into_inner_with_err()), None),
        Way::Finish => finish(wrt),
        Way::Parts => buffer_of(wrt.into_inner_with_buffer()),
        Way::Keep => buffer_of(laws::keep_unsent(wrt)),
        Way::Forget => buffer_of(laws::drop_unsent(wrt)),
    }
}

// The same of a writer of lines.
fn ends_lines<W: TellWrite + Drop>(lines: LineWriter<W>, way: Way) -> Came {
    match way {
        Way::Drop => (None, None),
        Way::Inner => (inner_of_lines(lines), None),
        Way::InnerWithErr => (fault_of(lines.into_inner_with_err()), None),
        Way::Finish => finish_lines(lines),
        Way::Parts => buffer_of(lines.into_inner_with_buffer()),
        Way::Keep => buffer_of(laws::keep_unsent_lines(lines)),
        Way::Forget => buffer_of(laws::drop_unsent_lines(lines)),
    }
}

// The fault, what the stream took by how many writes and flushes, and what is in the buffer, if it comes back.
type Row = (
    Way,
    Fault,
    &'static [u8],
    (usize, usize),
    Option<&'static [u8]>,
);

static WHOLE: [Row; 7] = [
    (Way::Drop, None, &[1, 2, 3], (1, 0), None),
    (Way::Inner, None, &[1, 2, 3], (1, 1), None),
    (Way::InnerWithErr, None, &[1, 2, 3], (1, 1), None),
    (Way::Finish, None, &[1, 2, 3], (1, 0), Some(&[])),
    (Way::Parts, None, &[], (0, 0), Some(&[1, 2, 3])),
    (Way::Keep, None, &[1, 2, 3], (1, 0), Some(&[])),
    (Way::Forget, None, &[1, 2, 3], (1, 0), Some(&[])),
];

// The stream takes two bytes, fails, and then takes all. A drop forgets the fault, and the wrapper of one sends once more when
// it is dropped.
static FAULTS: [Answer; 2] = [Answer::Serve(2), Answer::Fail(ErrorKind::Other)];

const FAILED: Fault = Some((ErrorKind::Other, 1));

static FAULTY: [Row; 6] = [
    (Way::Drop, None, &[1, 2], (2, 0), None),
    (Way::Inner, FAILED, &[1, 2, 3], (3, 0), None),
    (
        Way::InnerWithErr,
        Some((ErrorKind::Other, 0)),
        &[1, 2],
        (2, 0),
        None,
    ),
    (Way::Finish, FAILED, &[1, 2], (2, 0), Some(&[3])),
    (Way::Keep, None, &[1, 2], (2, 0), Some(&[3])),
    (Way::Forget, None, &[1, 2], (2, 0), Some(&[])),
];

// A stream that takes a byte at a time takes as many writes as it needs.
static SLOW: [Row; 1] = [(Way::Drop, None, &[1, 2, 3], (3, 0), None)];

fn taken_apart(
    alloc: Global,
    way: Way,
    of_lines: bool,
    stream: &mut ScriptWriter,
    drops: &Cell<usize>,
) -> Result<Came, GrowError> {
    let inner = Told::new(Lent { stream, drops });
    Ok(if of_lines {
        ends_lines(line_writer(alloc, 4, &HELD, inner)?, way)
    } else {
        ends(writer(alloc, 4, &HELD, inner)?, way)
    })
}

// Whether a buffer of capacity 4 comes back that holds this, or none.
fn is_left(buf: Option<Buffer>, left: Option<&[u8]>) -> bool {
    match (buf, left) {
        (Some(buf), Some(left)) => buf.buf() == left && buf.capacity() == 4,
        (None, None) => true,
        _ => false,
    }
}

// Whether what came of it, and what the stream took, is what a row says.
fn is_so(row: &Row, (came, buf): Came, stream: &ScriptWriter) -> bool {
    let &(_, fault, taken, calls, left) = row;
    came == fault
        && is_left(buf, left)
        && stream.taken() == taken
        && (stream.offers().len(), stream.flushes()) == calls
}

// Whether a writer over a stream that answers so comes apart as its row says, and drops the stream once.
fn comes_apart(alloc: Global, script: &[Answer], row: &Row, of_lines: bool) -> Result<bool, Fail> {
    let mut stream = ScriptWriter::new(alloc, script)?;
    let drops = Cell::new(0);
    let came = taken_apart(alloc, row.0, of_lines, &mut stream, &drops)?;
    Ok(is_so(row, came, &stream) && drops.get() == 1)
}

// Whether each row does, also of a writer of lines.
fn each(alloc: Global, script: &[Answer], rows: &[Row]) -> Result<bool, Fail> {
    for row in rows {
        if !comes_apart(alloc, script, row, false)? || !comes_apart(alloc, script, row, true)? {
            return Ok(false);
        }
    }
    Ok(true)
}

#[test]
fn comes_apart_in_each_way(rt: HostRuntime) -> Result<(), Fail> {
    assert!(rt; each(rt.alloc(), &[], &WHOLE)?);
    assert!(rt; each(rt.alloc(), &FAULTS, &FAULTY)?);
    assert!(rt; each(rt.alloc(), &[Answer::ServeEach(1)], &SLOW)?);
    Ok(())
}

fn failed(inside: u8) -> IntoInnerError<u8> {
    IntoInnerError(inside, io::Error::from(ErrorKind::Other))
}

// What the wrappers of a refusal and of a fault show.
#[test]
fn wrappers(rt: HostRuntime) -> Result<(), Fail> {
    let text = format!(in rt.alloc(); "{}: {:?}", MakeError(7u8, GrowError::Memory), failed(7))?;
    assert!(rt; text.as_str() == "out of memory: IntoInnerError(7, Kind(Other))");
    let shown = display(rt.alloc(), &failed(7))?;
    assert!(rt;
        shown.as_str() == display(rt.alloc(), &io::Error::from(ErrorKind::Other))?.as_str()
    );
    Ok(())
}

// What they turn into.
#[test]
fn unwrapped(rt: HostRuntime) -> Result<(), Fail> {
    let (fault, inside) = failed(8).into_parts();
    let kinds = [
        fault.kind(),
        io::Error::from(failed(7)).kind(),
        failed(7).into_error().kind(),
    ];
    assert!(rt; (inside, failed(7).into_inner()) == (8, 7) && kinds == [ErrorKind::Other; 3]);
    Ok(())
}
