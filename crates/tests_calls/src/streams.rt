//! The streams that tell, and one that goes wrong at one call.
ghost use Rattle.std.specs.Prelude.{◌≡◌, ◌++◌, IfOk, take, vec_items};
ghost use Rattle.redux_buffer.specs.Told.{told_log, told_stream};
ghost use Rattle.redux_buffer.specs.LogGrows.{FillLogGrows, FillLogGrows-none, FillLogGrows-joins, FillsGoOn-of};

use buffer_redux::copy_buf;
use buffer_redux::tell::{
    Call, CallLog, MemoryReader, Tell, TellBufRead, TellRead, TellSeek, TellWrite, Told,
};
use redux_script::{Answer, FaultAt, ScriptSeeker};
use std::alloc::{AllocError, Global};
use std::io;
use std::io::{Cursor, ErrorKind, Read, Seek, SeekFrom, Write};
use std::test::Fail;
use tests_common::{debug, flush, kind, read, seek, write};

// The calls that tell. They promise nothing, as those of `tests_common` don't.
fn reads<R: TellRead>(reader: &mut R, out: &mut [u8]) -> io::Result<usize> {
    reader.read_told(out)
}

fn writes<W: TellWrite>(writer: &mut W, bytes: &[u8]) -> io::Result<usize> {
    writer.write_told(bytes)
}

fn flushes<W: TellWrite>(writer: &mut W) -> io::Result<()> {
    writer.flush_told()
}

fn seeks<S: TellSeek>(stream: &mut S, to: SeekFrom) -> io::Result<u64> {
    stream.seek_told(to)
}

// Fails at each call, with a text of its own, and counts its calls.
#[derive(Drop)]
struct Failing {
    calls: usize,
}

impl Failing {
    fn error(&mut self) -> io::Error {
        self.calls = self.calls.wrapping_add(1);
        io::Error::new(ErrorKind::Other, "its own text")
    }
}

impl Read for Failing {
    fn read(&mut self, _buf: &mut [u8]) -> io::Result<usize> {
        Err(self.error())
    }
}

impl Write for Failing {
    fn write(&mut self, _buf: &[u8]) -> io::Result<usize> {
        Err(self.error())
    }

    fn flush(&mut self) -> io::Result<()> {
        Err(self.error())
    }
}

impl Seek for Failing {
    fn seek(&mut self, _to: SeekFrom) -> io::Result<u64> {
        Err(self.error())
    }
}

// Whether this is the error of the stream itself.
fn is_its_own<T: Drop>(alloc: Global, answer: io::Result<T>) -> Result<bool, AllocError> {
    let text = debug(alloc, &answer.err())?;
    Ok(text.as_str() == "Some(Custom { kind: Other, error: \"its own text\" })")
}

fn are_its_own(alloc: Global, told: &mut Told<Failing>) -> Result<bool, AllocError> {
    Ok(
        is_its_own(alloc, reads(told, &mut []))?
            && is_its_own(alloc, writes(told, &[]))?
            && is_its_own(alloc, flushes(told))?
            && is_its_own(alloc, seeks(told, SeekFrom::Start(0)))?,
    )
}

// Each call is passed on once, one of an empty slice too, and an error of the stream comes as it is.
#[test]
fn passed_on(rt: HostRuntime) -> Result<(), Fail> {
    let mut told = Told::new(Failing { calls: 0 });
    assert!(rt; are_its_own(rt.alloc(), &mut told)?);
    assert!(rt; told.into_inner().calls == 4);
    Ok(())
}

// What goes through `get_mut` reaches the stream, and is not told.
fn tells_the_first(told: &mut Told<Vec<u8>>, first: &[u8], second: &[u8]) -> io::Result<usize>
    ensures told { IfOk result (λ n. (told_log told.new).writes.received
        ≡ (told_log told.old).writes.received ++ take n first.now) }
    ensures held { IfOk result (λ n. vec_items (told_stream told.new)
        ≡ vec_items (told_stream told.old) ++ (take n first.now ++ second.now)) }
{
    let n = told.write_told(first)?;
    told.get_mut().extend_from_slice(second)?;
    Ok(n)
}

// The same without a promise.
fn goes_past(told: &mut Told<Vec<u8>>, first: &[u8], second: &[u8]) -> io::Result<usize> {
    tells_the_first(told, first, second)
}

#[test]
fn past_what_is_told(rt: HostRuntime) -> Result<(), Fail> {
    let mut told = Told::new(Vec::new(rt.alloc()));
    let count = kind(goes_past(&mut told, &[1, 2], &[3]));
    assert!(rt; count == Ok(2) && told.into_inner().as_slice() == [1, 2, 3].as_slice());
    Ok(())
}

// A buffered reader that holds all its bytes from the first.
#[derive(Drop)]
struct Page<'a> {
    left: &'a [u8],
    calls: CallLog,
}

impl Tell for Page<'_> {
    ghost use Rattle.redux_buffer.specs.StreamLog.{with_shown};

    ghost log = { λ s. with_shown s.calls.log s.left.now };
}

impl TellBufRead for Page<'_> {
    ghost use Rattle.redux_buffer.specs.StreamLog.{with_shown};

    ghost trace = { λ s t. FillLogGrows (with_shown s.calls.log s.left.now).fills (with_shown t.calls.log t.left.now).fills };

    fn fill_told(&mut self) -> io::Result<&[u8]> {
        self.calls.note(&Call::Shown(self.left));
        Ok(self.left)
    }

    fn consume_told(&mut self, amount: usize) {
        self.calls.note(&Call::Consume(self.left, amount));
        self.left = &self.left[amount.min(self.left.len())..];
    }

    ghost trace_none = { λ s. FillLogGrows-none _ };

    ghost trace_joins = { λ a b c. FillLogGrows-joins _ _ _ };

    ghost trace_grows = { λ s t grows.
        FillsGoOn-of (with_shown s.calls.log s.left.now) (with_shown t.calls.log t.left.now) grows };
}

// What a copy of such a reader returns.
fn copied<B: TellBufRead>(from: &mut B, to: &mut Told<Vec<u8>>) -> Result<u64, ErrorKind> {
    kind(copy_buf(from, to))
}

#[test]
fn buffered(rt: HostRuntime) -> Result<(), Fail> {
    let mut page = Page {
        left: &[1, 2, 3],
        calls: CallLog::new(),
    };
    let mut told = Told::new(Vec::new(rt.alloc()));
    let count = copied(&mut page, &mut told);
    assert!(rt; count == Ok(3) && page.left.is_empty());
    assert!(rt; told.into_inner().as_slice() == [1, 2, 3].as_slice());
    Ok(())
}

// What a write of three bytes and a flush return.
fn two_calls<W: Write>(stream: &mut W) -> (Result<usize, ErrorKind>, Result<(), ErrorKind>) {
    (kind(write(stream, &[1, 2, 3])), kind(flush(stream)))
}

// What two pairs return, how many bytes the stream inside has, and how many calls there were.
fn four_calls(alloc: Global, mut stream: FaultAt<Vec<u8>>) -> Result<String, AllocError> {
    let pairs = [two_calls(&mut stream), two_calls(&mut stream)];
    debug(alloc, &(pairs, stream.get_ref().len(), stream.calls()))
}

// How many calls come before the one that goes wrong, its answer, and what comes of four. One that goes wrong isn't made.
static FAULTS: [(usize, Answer, &'static str); 5] = [
    (
        0,
        Answer::Fail(ErrorKind::TimedOut),
        "([(Err(TimedOut), Ok(())), (Ok(3), Ok(()))], 3, 4)",
    ),
    (
        1,
        Answer::Interrupt(2),
        "([(Ok(3), Err(Interrupted)), (Err(Interrupted), Ok(()))], 3, 4)",
    ),
    (
        0,
        Answer::Serve(0),
        "([(Ok(0), Ok(())), (Ok(3), Ok(()))], 3, 4)",
    ),
    (
        1,
        Answer::Serve(1),
        "([(Ok(3), Ok(())), (Ok(3), Ok(()))], 6, 4)",
    ),
    (
        0,
        Answer::ServeEach(2),
        "([(Ok(2), Ok(())), (Ok(2), Ok(()))], 4, 4)",
    ),
];

#[test]
fn faults(rt: HostRuntime) -> Result<(), Fail> {
    for &(before, answer, text) in &FAULTS {
        let stream = FaultAt::new(Vec::new(rt.alloc()), before, answer);
        assert!(rt; four_calls(rt.alloc(), stream)?.as_str() == text, "{text}");
    }
    Ok(())
}

// A seek that goes wrong isn't made.
#[test]
fn faulty_seeks(rt: HostRuntime) -> Result<(), Fail> {
    let fault = Answer::Fail(ErrorKind::TimedOut);
    let mut stream = FaultAt::new(Cursor::new([1, 2, 3].as_slice()), 1, fault);
    let came = [
        kind(seek(&mut stream, SeekFrom::Start(2))),
        kind(seek(&mut stream, SeekFrom::Start(1))),
        kind(seek(&mut stream, SeekFrom::Current(0))),
    ];
    assert!(rt; came == [Ok(2), Err(ErrorKind::TimedOut), Ok(2)] && stream.calls() == 3);
    Ok(())
}

// A slice that tells gives its bytes in order, and then none.
#[test]
fn memory(rt: HostRuntime) -> Result<(), Fail> {
    let mut stream = MemoryReader::new(&[1, 2, 3]);
    let mut out = [0; 2];
    let counts = [
        kind(reads(&mut stream, &mut out)),
        kind(reads(&mut stream, &mut out)),
        kind(reads(&mut stream, &mut out)),
    ];
    assert!(rt; counts == [Ok(2), Ok(1), Ok(0)] && out == [3, 2]);
    Ok(())
}

fn passes<S: Read + Write>(seeker: &mut S) -> [Result<usize, ErrorKind>; 2] {
    [
        kind(write(seeker, &[3, 4])),
        kind(read(seeker, &mut [0; 1])),
    ]
}

// The reads and writes of a scripted seeker go on to the stream inside.
#[test]
fn scripted_seeker(rt: HostRuntime) -> Result<(), Fail> {
    let inner = Cursor::new(Vec::new(rt.alloc()));
    let mut seeker = ScriptSeeker::new(rt.alloc(), inner, &[])?;
    let came = (
        passes(&mut seeker),
        kind(flush(&mut seeker)),
        seeker.get_ref().position(),
    );
    assert!(rt; came == ([Ok(2), Ok(0)], Ok(()), 2));
    Ok(drop(seeker))
}
