//! Lists of calls whose record finds no memory: the calls before are recorded whole, and the next wasn't begun. The calls
//! that have no answer yet, played on the same run, end it as if nothing had happened.
use crate::streams::{Sink, Source, empty_sink, reading, taken};
use crate::trial::{Trial, print};
use buffer_redux::policy::{ReaderPolicy, WriterPolicy};
use buffer_redux::tell::{TellRead, TellWrite, Told};
use buffer_redux::{BufReader, BufWriter};
use redux_play::play::{
    ReaderAnswer, ReaderCall, ReaderRun, WriterAnswer, WriterCall, WriterRun, play_reader,
    play_writer,
};
use std::alloc::{AllocError, Global};
use std::fmt::Debug;
use tests_common::{reader, writer};

static READER_CALLS: [ReaderCall; 5] = [
    ReaderCall::Read(2),
    ReaderCall::Fill,
    ReaderCall::Consume(9),
    ReaderCall::ReadIntoBuf,
    ReaderCall::Read(4),
];

static READER_ANSWERS: [ReaderAnswer; 5] = [
    ReaderAnswer::Count(2),
    ReaderAnswer::Shown(2),
    ReaderAnswer::Count(2),
    ReaderAnswer::Count(1),
    ReaderAnswer::Count(1),
];

// How many bytes are handed out, how many are buffered, and how often the stream was asked, by the number of calls made.
static READER_STATES: [[usize; 3]; 6] = [
    [0, 0, 0],
    [2, 2, 1],
    [2, 2, 1],
    [4, 0, 1],
    [4, 1, 2],
    [5, 0, 2],
];

static WRITER_CALLS: [WriterCall<'static>; 3] = [
    WriterCall::Write(&[1]),
    WriterCall::Write(&[2, 3]),
    WriterCall::Flush,
];

static WRITER_ANSWERS: [WriterAnswer; 3] = [
    WriterAnswer::Count(1),
    WriterAnswer::Count(2),
    WriterAnswer::Done,
];

// How many bytes were sent, and how many are buffered.
static WRITER_STATES: [[usize; 2]; 4] = [[0, 0], [0, 1], [3, 0], [3, 0]];

static BYTES: [u8; 5] = [1, 2, 3, 4, 5];

// These play without a promise.
fn play_reads<R: TellRead, P: ReaderPolicy>(
    alloc: Global,
    rdr: &mut BufReader<R, P>,
    calls: &[ReaderCall],
    run: &mut ReaderRun,
) -> Result<(), AllocError> {
    play_reader(alloc, rdr, calls, run)
}

fn play_writes<W: TellWrite, P: WriterPolicy>(
    wrt: &mut BufWriter<W, P>,
    calls: &[WriterCall<'_>],
    run: &mut WriterRun,
) -> Result<(), AllocError> {
    play_writer(wrt, calls, run)
}

// Whether these are the first answers of a list, by what they print.
fn begin<T: Debug>(answers: &[T], all: &[T]) -> bool {
    print(&answers) == print(&all.get(..answers.len()).unwrap_or(&[]))
}

// Those behind so many.
fn behind<T>(all: &[T], count: usize) -> &[T] {
    all.get(count..).unwrap_or(&[])
}

// Plays the calls that have no answer yet, and says whether that was refused.
fn reads_on(
    alloc: Global,
    trial: &mut Trial,
    rdr: &mut BufReader<Told<Source<'_>>>,
    run: &mut ReaderRun,
) -> bool {
    let left = behind(&READER_CALLS, run.answers.len());
    let refused = play_reads(alloc, rdr, left, run).is_err();
    let (done, handed) = (run.answers.len(), run.handed.as_slice());
    let state = [handed.len(), rdr.buf_len(), rdr.get_ref().get_ref().asks];
    trial.sees(READER_STATES.get(done) == Some(&state), "what was read");
    trial.sees(BYTES.starts_with(handed), "the bytes that were handed out");
    trial.sees(
        begin(run.answers.as_slice(), &READER_ANSWERS),
        "the answers",
    );
    trial.sees(
        refused == (done < 5),
        "calls are left out, or nothing is refused",
    );
    refused
}

fn reads_all(
    alloc: Global,
    trial: &mut Trial,
    rdr: &mut BufReader<Told<Source<'_>>>,
    run: &mut ReaderRun,
) {
    if reads_on(alloc, trial, rdr, run) {
        trial.meets();
        let is_refused = reads_on(alloc, trial, rdr, run);
        trial.granted(!is_refused);
    }
}

pub fn reads(alloc: Global, trial: &mut Trial) {
    match reader(alloc, 4, &[], reading(&BYTES)) {
        Ok(mut rdr) => reads_all(alloc, trial, &mut rdr, &mut ReaderRun::new(alloc)),
        Err(e) => trial.refused(e),
    }
}

// Plays the calls that have no answer yet, and says whether that was refused.
fn writes_on(trial: &mut Trial, wrt: &mut BufWriter<Sink>, run: &mut WriterRun) -> bool {
    let left = behind(&WRITER_CALLS, run.answers.len());
    let refused = play_writes(wrt, left, run).is_err();
    let (done, sent) = (run.answers.len(), taken(wrt.get_ref()));
    let state = [sent.len(), wrt.buf_len()];
    trial.sees(WRITER_STATES.get(done) == Some(&state), "what was sent");
    trial.sees(BYTES.starts_with(sent), "the bytes that were sent");
    trial.sees(
        begin(run.answers.as_slice(), &WRITER_ANSWERS),
        "the answers",
    );
    trial.sees(
        refused == (done < 3),
        "calls are left out, or nothing is refused",
    );
    refused
}

fn writes_all(trial: &mut Trial, wrt: &mut BufWriter<Sink>, run: &mut WriterRun) {
    if writes_on(trial, wrt, run) {
        trial.meets();
        let is_refused = writes_on(trial, wrt, run);
        trial.granted(!is_refused);
    }
}

pub fn writes(alloc: Global, trial: &mut Trial) {
    match writer(alloc, 2, &[], empty_sink()) {
        Ok(mut wrt) => writes_all(trial, &mut wrt, &mut WriterRun::new(alloc)),
        Err(e) => trial.refused(e),
    }
}
