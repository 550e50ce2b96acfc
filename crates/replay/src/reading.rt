//! Playing a case of a reader.
use crate::case::{Foreign, ReaderCase, ReaderRule, ReaderWord};
use crate::play::{Outcome, Source, Unplayed, counting, first_buffer, is_refusal, joined, source};
use crate::print;
use crate::watched::Fault;
use buffer_redux::policy::{MinBuffered, ReaderPolicy, StdPolicy};
use buffer_redux::tell::{TellRead, Told};
use buffer_redux::{BufReader, Buffer};
use redux_play::play::{ReaderAnswer, ReaderCall, ReaderRun, play_reader};
use std::alloc::{AllocError, Global};
use std::io::{BufRead, ErrorKind};
use tests_common::claims::{Halves, Header};
use tests_common::constant::{Always, Never};
use tests_common::policies::{Copying, FailsAt, Fickle, Greedy, Growing, Limiting, Tidy};

// What the calls did, and what the fills lent, one behind another.
#[derive(Drop)]
struct Record {
    run: ReaderRun,
    shown: Vec<u8>,
}

// A policy whose minimum can be changed, if it has one.
trait SetMin {
    fn set_min(&mut self, _min: usize) {}
}

impl SetMin for StdPolicy {}

impl SetMin for Greedy {}

impl SetMin for Never {}

impl SetMin for Always {}

impl SetMin for Tidy {}

impl SetMin for Growing {}

impl SetMin for Limiting {}

impl SetMin for Fickle {}

impl SetMin for Header {}

impl SetMin for Halves {}

impl SetMin for Copying {}

impl SetMin for FailsAt {}

impl SetMin for MinBuffered {
    fn set_min(&mut self, min: usize) {
        MinBuffered::set_min(self, min);
    }
}

/// Plays a case of a reader over a source of which one call may go wrong.
pub fn reads(alloc: Global, case: &ReaderCase, fault: Fault) -> Result<Outcome, Unplayed> {
    let reader = reader(alloc, case, fault)?;
    let held = reader.buf_len();
    let mut record = Record {
        run: ReaderRun::new(alloc),
        shown: Vec::new(alloc),
    };
    let (source, buffer) = under_rule(alloc, reader, case, &mut record)?;
    Ok(outcome(alloc, case, held, &record, source.get_ref(), &buffer)?)
}

fn reader(
    alloc: Global,
    case: &ReaderCase,
    fault: Fault,
) -> Result<BufReader<Told<Source>>, Unplayed> {
    let buffer = first_buffer(alloc, case.storage)?;
    let script = case.script.as_slice();
    let source = source(alloc, buffer.len(), case.source, script, fault)?;
    Ok(BufReader::with_buffer(buffer, Told::new(source)))
}

fn under_rule<R: TellRead + Drop>(
    alloc: Global,
    reader: BufReader<R>,
    case: &ReaderCase,
    record: &mut Record,
) -> Result<(R, Buffer), AllocError> {
    match case.rule {
        ReaderRule::Std => played(alloc, reader, StdPolicy, case, record),
        ReaderRule::Min(n) => played(alloc, reader, MinBuffered(n), case, record),
        ReaderRule::Foreign(policy) => under_foreign(alloc, reader, policy, case, record),
    }
}

fn under_foreign<R: TellRead + Drop>(
    alloc: Global,
    reader: BufReader<R>,
    policy: Foreign,
    case: &ReaderCase,
    record: &mut Record,
) -> Result<(R, Buffer), AllocError> {
    match policy {
        Foreign::Greedy => played(alloc, reader, Greedy, case, record),
        Foreign::Never => played(alloc, reader, Never, case, record),
        Foreign::Always => played(alloc, reader, Always, case, record),
        Foreign::TooMuch => played(alloc, reader, StdPolicy, case, record),
        Foreign::Tidy(min) => played(alloc, reader, Tidy(MinBuffered(min)), case, record),
        Foreign::Growing => played(alloc, reader, Growing, case, record),
        Foreign::Limiting(limit) => played(alloc, reader, Limiting(limit), case, record),
        Foreign::Fickle => played(alloc, reader, Fickle { asked: 0 }, case, record),
        Foreign::Header => played(alloc, reader, Header, case, record),
        Foreign::Halves => played(alloc, reader, Halves, case, record),
        Foreign::Copying => played(alloc, reader, Copying::new(alloc), case, record),
        Foreign::FailsAt(question) => played(alloc, reader, FailsAt::new(question), case, record),
    }
}

// Plays the calls under a policy, and takes the reader apart.
fn played<R: TellRead + Drop, P: ReaderPolicy + SetMin + Drop>(
    alloc: Global,
    reader: BufReader<R>,
    policy: P,
    case: &ReaderCase,
    record: &mut Record,
) -> Result<(R, Buffer), AllocError> {
    let mut reader = reader.set_policy(policy);
    plays_words(alloc, &mut reader, case, record)?;
    Ok(reader.into_inner_with_buffer())
}

fn plays_words<R: TellRead, P: ReaderPolicy + SetMin>(
    alloc: Global,
    reader: &mut BufReader<R, P>,
    case: &ReaderCase,
    record: &mut Record,
) -> Result<(), AllocError> {
    let words = case.calls.as_slice();
    if case.prints_bytes {
        return plays_each(alloc, reader, words, record);
    }
    let calls = listed(alloc, words)?;
    plays(alloc, reader, calls.as_slice(), &mut record.run)
}

// The calls without the words for another minimum.
fn listed(alloc: Global, words: &[ReaderWord]) -> Result<Vec<ReaderCall>, AllocError> {
    let mut calls = Vec::new(alloc);
    for word in words {
        if let ReaderWord::Call(call) = *word {
            calls.push(call)?;
        }
    }
    Ok(calls)
}

fn plays<R: TellRead, P: ReaderPolicy>(
    alloc: Global,
    reader: &mut BufReader<R, P>,
    calls: &[ReaderCall],
    run: &mut ReaderRun,
) -> Result<(), AllocError> {
    play_reader(alloc, reader, calls, run)
}

// One by one, so that what a fill lends is seen.
fn plays_each<R: TellRead, P: ReaderPolicy + SetMin>(
    alloc: Global,
    reader: &mut BufReader<R, P>,
    words: &[ReaderWord],
    record: &mut Record,
) -> Result<(), AllocError> {
    for word in words {
        match *word {
            ReaderWord::SetMin(min) => set_min(reader, min),
            ReaderWord::Call(ReaderCall::Fill) => {
                let answer = fill(reader, &mut record.shown)?;
                record.run.answers.push(answer)?;
            }
            ReaderWord::Call(call) => plays(alloc, reader, &[call], &mut record.run)?,
        }
    }
    Ok(())
}

fn set_min<R: TellRead, P: SetMin>(reader: &mut BufReader<R, P>, min: usize) {
    reader.policy_mut().set_min(min);
}

// Adds what a fill lends.
fn fill<R: BufRead>(reader: &mut R, shown: &mut Vec<u8>) -> Result<ReaderAnswer, AllocError> {
    match reader.fill_buf() {
        Ok(lent) => {
            shown.extend_from_slice(lent)?;
            Ok(ReaderAnswer::Shown(lent.len()))
        }
        Err(e) => Ok(ReaderAnswer::Fault(e.kind())),
    }
}

// What came of the calls, where so many bytes were held at first.
fn outcome(
    alloc: Global,
    case: &ReaderCase,
    held: usize,
    record: &Record,
    source: &Source,
    buffer: &Buffer,
) -> Result<Outcome, AllocError> {
    let mut line = String::new(alloc);
    push_line(&mut line, alloc, case, record, source, buffer)?;
    Ok(Outcome {
        line,
        calls: source.notes().len(),
        joined: joined(alloc, record.run.handed.as_slice(), buffer)?,
        whole: counting(alloc, 0, held.saturating_add(source.inside().served()))?,
        returned: errors_of(alloc, record.run.answers.as_slice())?,
        caused: Vec::from_slice(alloc, source.errors())?,
    })
}

fn push_line(
    text: &mut String,
    alloc: Global,
    case: &ReaderCase,
    record: &Record,
    source: &Source,
    buffer: &Buffer,
) -> Result<(), AllocError> {
    let mut shown = record.shown.as_slice();
    for answer in record.run.answers.as_slice() {
        text.push_str(print::reader_word(alloc, *answer)?.as_str())?;
        if case.prints_bytes {
            push_shown(text, *answer, &mut shown)?;
        }
        text.push_str(" ")?;
    }
    print::push_state(text, buffer, source.notes())?;
    if case.prints_bytes {
        text.push_str(" | ")?;
        print::push_bytes(text, record.run.handed.as_slice())?;
    }
    Ok(())
}

// Adds the bytes that were shown, the first of these, and takes them off.
fn push_shown(
    text: &mut String,
    answer: ReaderAnswer,
    shown: &mut &[u8],
) -> Result<(), AllocError> {
    let ReaderAnswer::Shown(count) = answer else {
        return Ok(());
    };
    let (lent, others) = shown.split_at(count.min(shown.len()));
    *shown = others;
    text.push_str("=")?;
    print::push_bytes(text, lent)
}

// The kinds of the errors among these answers, but for refused growths.
fn errors_of(alloc: Global, answers: &[ReaderAnswer]) -> Result<Vec<ErrorKind>, AllocError> {
    let mut kinds = Vec::new(alloc);
    for answer in answers {
        if let ReaderAnswer::Fault(kind) = *answer
            && !is_refusal(kind)
        {
            kinds.push(kind)?;
        }
    }
    Ok(kinds)
}
