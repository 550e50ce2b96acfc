//! Calls of readers and writers that grow their buffer: where that is refused, the call fails, and the same call then succeeds.
use crate::growths::placed;
use crate::streams::{Sink, Source, empty_sink, reading, taken};
use crate::trial::{Trial, print};
use buffer_redux::policy::{FlushAtLeast, FlushExact, MinBuffered, WriterPolicy};
use buffer_redux::tell::{TellRead, TellWrite, Told};
use buffer_redux::{BufReader, BufWriter, Buffer, GrowError, LineWriter};
use std::alloc::Global;
use std::fmt::Debug;
use std::io;
use std::io::{BufRead, ErrorKind};
use tests_common::policies::Greedy;
use tests_common::{empty, fill_buf, flush, kind, reader_under, write, writer_under};

// A call that grows the buffer by so much, or up to so much.
#[derive(Clone, Copy)]
enum Call {
    Reserve(usize),
    ReserveLines(usize),
    Fill(usize),
    WriteAtLeast(usize, &'static [u8]),
    WriteExact(usize, &'static [u8]),
}

// How many bytes were shown or taken, or the kind of the error.
type Answer = Result<usize, ErrorKind>;

// Makes a call over a stream and a buffer, and takes apart what it was made of.
trait Attempts: Debug + Drop + Sized {
    fn attempts(self, buf: Buffer, call: Call) -> (Answer, Self, Buffer);
}

impl Attempts for Told<Source<'_>> {
    fn attempts(self, buf: Buffer, call: Call) -> (Answer, Self, Buffer) {
        match call {
            Call::Fill(min) => fills(self, buf, min),
            Call::Reserve(more) => reader_grows(self, buf, more),
            _ => (Ok(0), self, buf),
        }
    }
}

impl Attempts for Sink {
    fn attempts(self, buf: Buffer, call: Call) -> (Answer, Self, Buffer) {
        match call {
            Call::Reserve(more) => writer_grows(self, buf, more),
            Call::ReserveLines(more) => lines_grow(self, buf, more),
            Call::WriteAtLeast(least, bytes) => writes(self, buf, FlushAtLeast(least), bytes),
            Call::WriteExact(size, bytes) => writes(self, buf, FlushExact(size), bytes),
            Call::Fill(_) => (Ok(0), self, buf),
        }
    }
}

fn reader_grows<R: TellRead>(inner: R, buf: Buffer, more: usize) -> (Answer, R, Buffer) {
    let mut it = BufReader::with_buffer(buf, inner);
    let answer = it.reserve(more);
    let (inner, buf) = it.into_inner_with_buffer();
    (of_growth(answer), inner, buf)
}

fn writer_grows<W: TellWrite>(inner: W, buf: Buffer, more: usize) -> (Answer, W, Buffer) {
    let mut it = BufWriter::with_buffer(buf, inner);
    let answer = it.reserve(more);
    let (inner, buf) = it.into_inner_with_buffer();
    (of_growth(answer), inner, buf)
}

fn lines_grow<W: TellWrite>(inner: W, buf: Buffer, more: usize) -> (Answer, W, Buffer) {
    let mut it = LineWriter::with_buffer(buf, inner);
    let answer = it.reserve(more);
    let (inner, buf) = it.into_inner_with_buf();
    (of_growth(answer), inner, buf)
}

fn of_growth(answer: Result<(), GrowError>) -> Answer {
    match answer {
        Ok(()) => Ok(0),
        Err(e) => Err(io::Error::from(e).kind()),
    }
}

fn fills<R: TellRead>(inner: R, buf: Buffer, min: usize) -> (Answer, R, Buffer) {
    let mut it = reader_under(BufReader::with_buffer(buf, inner), MinBuffered(min));
    let answer = kind(shown(&mut it));
    let (inner, buf) = it.into_inner_with_buffer();
    (answer, inner, buf)
}

fn shown<R: BufRead>(reader: &mut R) -> io::Result<usize> {
    Ok(fill_buf(reader)?.len())
}

fn writes<W: TellWrite, P: WriterPolicy + Drop>(
    inner: W,
    buf: Buffer,
    policy: P,
    bytes: &[u8],
) -> (Answer, W, Buffer) {
    let mut it = writer_under(BufWriter::with_buffer(buf, inner), policy);
    let answer = kind(write(&mut it, bytes));
    let (inner, buf) = it.into_inner_with_buffer();
    (answer, inner, buf)
}

// How many bytes a call counts, and the capacity that it leaves.
type After = (usize, usize);

// Makes a call that comes to this.
fn takes<S: Attempts>(
    trial: &mut Trial,
    (inner, buf): (S, Buffer),
    call: Call,
    (count, capacity): After,
) -> (S, Buffer) {
    let (stream, held) = (print(&inner), print(&buf));
    let (mut answer, mut inner, mut buf) = inner.attempts(buf, call);
    if let Err(kind) = answer {
        trial.failed(kind);
        trial.unchanged(&inner, stream);
        trial.unchanged(&buf, held);
        (answer, inner, buf) = inner.attempts(buf, call);
    }
    trial.sees(answer.ok() == Some(count), "the count of a call");
    trial.sees(buf.capacity() == capacity, "the capacity behind a call");
    (inner, buf)
}

// The same of several calls over a buffer, one behind the other, where it could be made.
fn takes_over<S: Attempts>(
    trial: &mut Trial,
    made: Result<Buffer, GrowError>,
    inner: S,
    rows: &[(Call, After)],
) -> Option<(S, Buffer)> {
    match made {
        Ok(buf) => {
            let mut parts = (inner, buf);
            for &(call, after) in rows {
                parts = takes(trial, parts, call, after);
            }
            Some(parts)
        }
        Err(e) => {
            trial.refused(e);
            None
        }
    }
}

static BYTES: [u8; 20] = [
    0, 1, 2, 3, 4, 5, 6, 7, 8, 9, 10, 11, 12, 13, 14, 15, 16, 17, 18, 19,
];

// Over bytes that don't stand at the front, by or up to more than either kind has.
pub fn over_placed(alloc: Global, trial: &mut Trial) {
    for &(is_ring, grown, filled) in &[(false, 5005, 8997), (true, 8192, 8192)] {
        for &row in &[
            (Call::Reserve(5000), (0, grown)),
            (Call::Fill(9000), (5, filled)),
        ] {
            let _ = takes_over(trial, placed(alloc, is_ring), reading(&[4, 5]), &[row]);
        }
        for &row in &[
            (Call::Reserve(5000), (0, grown)),
            (Call::ReserveLines(5000), (0, grown)),
            (Call::WriteAtLeast(9000, &[4, 5]), (2, filled)),
            (Call::WriteExact(9000, &[4, 5]), (2, filled)),
        ] {
            let _ = takes_over(trial, placed(alloc, is_ring), empty_sink(), &[row]);
        }
    }
}

// Without a capacity at first. What a first fill shows stays where the buffer grows, and another one asks for nothing. What then
// comes without memory is a row of `replay`.
fn reads_from_nothing(alloc: Global, trial: &mut Trial) {
    let rows = [
        (Call::Fill(4), (4, 4)),
        (Call::Reserve(4), (0, 8)),
        (Call::Fill(4), (4, 8)),
    ];
    if let Some((inner, buf)) = takes_over(trial, empty(alloc, false, 0), reading(&BYTES), &rows) {
        trial.sees(buf.buf() == &BYTES[..4], "the first fill");
        trial.sees(inner.get_ref().asks == 1, "how often it is asked");
    }
}

// What is written is then sent.
fn writes_from_nothing(alloc: Global, trial: &mut Trial, rows: &[(Call, After)], bytes: &[u8]) {
    if let Some((inner, buf)) = takes_over(trial, empty(alloc, false, 0), empty_sink(), rows) {
        let mut it = BufWriter::with_buffer(buf, inner);
        trial.granted(flush(&mut it).is_ok());
        trial.sees(taken(it.get_ref()) == bytes, "what is sent");
    }
}

pub fn from_nothing(alloc: Global, trial: &mut Trial) {
    reads_from_nothing(alloc, trial);
    writes_from_nothing(alloc, trial, &[(Call::WriteAtLeast(4, &[1]), (1, 4))], &[1]);
    let rows = [
        (Call::WriteExact(4, &[1]), (1, 4)),
        (Call::Reserve(7), (0, 8)),
        (Call::WriteExact(4, &[2, 3]), (2, 8)),
        (Call::WriteExact(4, &[4, 5, 6]), (3, 8)),
        (Call::WriteExact(4, &[7, 8, 9, 10]), (4, 8)),
    ];
    writes_from_nothing(alloc, trial, &rows, &[1, 2, 3, 4, 5, 6, 7, 8, 9, 10]);
}

// A fill of several turns that is refused in one of them keeps the bytes of those before, 4096 each.
fn fills_greedily(
    trial: &mut Trial,
    it: &mut BufReader<Told<Source<'_>>, Greedy>,
    capacity: usize,
) {
    if let Err(kind) = kind(shown(it)) {
        let asks = it.get_ref().get_ref().asks;
        let came = asks.saturating_mul(4096).min(10000);
        trial.sees(it.buf_len() == came, "the bytes of the turns before");
        trial.failed(kind);
        trial.granted(shown(it).is_ok());
    }
    let state = (it.buf_len(), it.capacity());
    trial.sees(
        state == (10000, capacity),
        "what is shown, and the capacity of all turns",
    );
}

pub fn each_turn(alloc: Global, trial: &mut Trial) {
    for &(is_ring, capacity) in &[(false, 14096), (true, 16384)] {
        match empty(alloc, is_ring, 0) {
            Ok(buf) => {
                let it = BufReader::with_buffer(buf, reading(&[7; 10000]));
                fills_greedily(trial, &mut reader_under(it, Greedy), capacity);
            }
            Err(e) => trial.refused(e),
        }
    }
}
