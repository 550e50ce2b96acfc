//! Writers of lines, and the senders over them, which tell where a line isn't sent: call by call. And why a text fails.
use buffer_redux::{BufWriter, LineSender, LineWriter};
use redux_script::Answer;
use std::alloc::Global;
use std::io::{ErrorKind, Write};
use std::test::Fail;
use std::{fmt, io};
use tests_common::{
    Target, flush, kind, line_writer, taken_lines, target, write, write_all, writer,
};

// The end of a text, of which one fails by itself.
#[derive(Clone, Copy)]
enum Tail {
    Prints(&'static str),
    Fails,
}

impl fmt::Display for Tail {
    fn fmt<W: fmt::Write>(&self, f: &mut fmt::Formatter<W>) -> fmt::Result {
        match *self {
            Tail::Prints(text) => f.write_str(text),
            Tail::Fails => Err(fmt::Error),
        }
    }
}

// A call, with what it writes.
#[derive(Clone, Copy)]
enum Put {
    Write(&'static [u8]),
    All(&'static [u8]),
    Text(&'static str, Tail),
    Flush,
    Send,
}

// A count, if the call returns one, or the kind of an error.
type Answered = Result<usize, ErrorKind>;

fn done(answer: io::Result<()>) -> Answered {
    match kind(answer) {
        Ok(()) => Ok(0),
        Err(e) => Err(e),
    }
}

// What writes lines, and the calls that are its own. They promise nothing.
trait Lined: Write {
    fn text(&mut self, front: &str, tail: Tail) -> io::Result<()>;

    fn send(&mut self) -> io::Result<()>;

    fn lines(&self) -> &LineWriter<Target>;
}

impl Lined for LineWriter<Target> {
    fn text(&mut self, front: &str, tail: Tail) -> io::Result<()> {
        write!(self, "{}{}", front, tail)
    }

    fn send(&mut self) -> io::Result<()> {
        LineWriter::send(self)
    }

    fn lines(&self) -> &LineWriter<Target> {
        self
    }
}

impl Lined for LineSender<Target> {
    fn text(&mut self, front: &str, tail: Tail) -> io::Result<()> {
        write!(self, "{}{}", front, tail)
    }

    fn send(&mut self) -> io::Result<()> {
        self.flush()
    }

    fn lines(&self) -> &LineWriter<Target> {
        self.get_ref()
    }
}

fn answer<L: Lined>(lined: &mut L, put: Put) -> Answered {
    match put {
        Put::Write(bytes) => kind(write(lined, bytes)),
        Put::All(bytes) => done(write_all(lined, bytes)),
        Put::Text(front, tail) => done(lined.text(front, tail)),
        Put::Flush => done(flush(lined)),
        Put::Send => done(lined.send()),
    }
}

// A call, what it returns, what was received by then, and what is buffered.
type Step = (Put, Answered, &'static [u8], &'static [u8]);

// Up to the last line feed all goes out.
const LINES: &'static [Step] = &[
    (Put::All(&[0]), Ok(0), &[], &[0]),
    (Put::All(&[1]), Ok(0), &[], &[0, 1]),
    (Put::Flush, Ok(0), &[0, 1], &[]),
    (
        Put::All(&[0, 10, 1, 10, 2]),
        Ok(0),
        &[0, 1, 0, 10, 1, 10],
        &[2],
    ),
    (Put::Flush, Ok(0), &[0, 1, 0, 10, 1, 10, 2], &[]),
    (
        Put::All(&[3, 10]),
        Ok(0),
        &[0, 1, 0, 10, 1, 10, 2, 3, 10],
        &[],
    ),
];

const TIMED_OUT: Answered = Err(ErrorKind::TimedOut);

const SEVEN: Put = Put::Text("7", Tail::Prints("\n-"));

// The stream takes two bytes, and fails twice.
const FAULTS: &'static [Answer] = &[
    Answer::Serve(2),
    Answer::Fail(ErrorKind::Other),
    Answer::Fail(ErrorKind::TimedOut),
];

// A write took its bytes, also where its last send fails; the next send tells.
const FORGOTTEN: &'static [Step] = &[
    (Put::Write(b"ab\ncd"), Ok(5), b"ab", b"\ncd"),
    (Put::Send, TIMED_OUT, b"ab", b"\ncd"),
    (Put::Send, Ok(0), b"ab\ncd", b""),
    (SEVEN, Ok(0), b"ab\ncd7\n", b"-"),
];

// A sender goes on with the line at once, and tells where that fails too.
const TOLD: &'static [Step] = &[
    (Put::Write(b"ab"), Ok(2), b"", b"ab"),
    (Put::All(b"c\nd"), TIMED_OUT, b"ab", b"c\nd"),
    (SEVEN, Ok(0), b"abc\nd7\n", b"-"),
    (Put::Flush, Ok(0), b"abc\nd7\n-", b""),
];

// The stream fails once, and then once more. Past a buffer of one byte a text of one goes at once.
const FAULTS_OF_TEXTS: &'static [Answer] = &[
    Answer::Fail(ErrorKind::TimedOut),
    Answer::Fail(ErrorKind::StorageFull),
];

const BY_ITSELF: Answered = Err(ErrorKind::Uncategorized);

// A text tells of the stream's fault, unless a value fails by itself, also behind that.
const TEXTS: &'static [Step] = &[
    (SEVEN, TIMED_OUT, b"", b""),
    (Put::Text("", Tail::Fails), BY_ITSELF, b"", b""),
    (Put::Text("7", Tail::Fails), BY_ITSELF, b"", b""),
];

// Whether the calls come to what their steps say.
fn goes<L: Lined>(lined: &mut L, steps: &[Step]) -> bool {
    for &(put, wanted, received, buffered) in steps {
        let came = answer(lined, put);
        let lines = lined.lines();
        if came != wanted || taken_lines(lines) != received || lines.buffer() != buffered {
            return false;
        }
    }
    true
}

fn goes_alone(mut lines: LineWriter<Target>, steps: &[Step]) -> bool {
    goes(&mut lines, steps)
}

fn goes_as_sender(lines: LineWriter<Target>, steps: &[Step]) -> bool {
    goes(&mut LineSender::new(lines), steps)
}

fn of(alloc: Global, capacity: usize, script: &[Answer]) -> Result<LineWriter<Target>, Fail> {
    Ok(line_writer(alloc, capacity, &[], target(alloc, script)?)?)
}

// The capacity, how the stream answers, and the calls of a writer of lines, and of a sender.
type Row = (usize, &'static [Answer], &'static [Step], &'static [Step]);

static ROWS: [Row; 3] = [
    (8192, &[], LINES, LINES),
    (8, FAULTS, FORGOTTEN, TOLD),
    (1, FAULTS_OF_TEXTS, TEXTS, TEXTS),
];

#[test]
fn line_by_line(rt: HostRuntime) -> Result<(), Fail> {
    for &(capacity, script, alone, as_sender) in &ROWS {
        assert!(rt;
            goes_alone(of(rt.alloc(), capacity, script)?, alone),
            "{capacity}"
        );
        assert!(rt;
            goes_as_sender(of(rt.alloc(), capacity, script)?, as_sender),
            "{capacity}"
        );
    }
    Ok(())
}

fn text(to: &mut BufWriter<Target>, front: &str, tail: Tail) -> Answered {
    done(write!(to, "{}{}", front, tail))
}

// The same of a writer that isn't one of lines.
fn fails(mut to: BufWriter<Target>) -> bool {
    let by_stream = text(&mut to, "7", Tail::Prints("-"));
    let by_itself = [
        text(&mut to, "", Tail::Fails),
        text(&mut to, "7", Tail::Fails),
    ];
    by_stream == TIMED_OUT && by_itself == [BY_ITSELF; 2]
}

#[test]
fn a_text_tells_why_it_failed(rt: HostRuntime) -> Result<(), Fail> {
    let target = target(rt.alloc(), FAULTS_OF_TEXTS)?;
    assert!(rt; fails(writer(rt.alloc(), 1, &[], target)?));
    Ok(())
}
