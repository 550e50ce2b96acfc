//! Playing a case of a writer.
use crate::case::{Foreign, WriterCase, WriterRule, WriterWord};
use crate::play::{Outcome, Unplayed, counting, first_buffer, is_refusal, joined, low_byte};
use crate::print;
use crate::watched::{Fault, Watched};
use buffer_redux::policy::{
    FlushAtLeast, FlushExact, FlushOn, FlushOnNewline, MinBuffered, StdPolicy, WriterPolicy,
};
use buffer_redux::tell::{TellWrite, Told};
use buffer_redux::{BufWriter, Buffer, IntoInnerError};
use redux_play::play::{WriterAnswer, WriterCall, WriterRun, play_writer};
use redux_script::ScriptWriter;
use std::alloc::{AllocError, Global};
use std::io::{ErrorKind, Write};
use tests_common::claims::Halves;
use tests_common::constant::{Always, Never, TooMuch};
use tests_common::policies::{FailsAt, Fickle, Greedy, Growing, Limiting, Tidy};

type Target = Watched<ScriptWriter>;

// What the calls of a writer did so far.
#[derive(Drop)]
struct Record {
    run: WriterRun,
    // What was held, and then what was accepted.
    accepted: Vec<u8>,
    // The kinds of the errors that were returned, and of those that the target had returned last in these calls.
    returned: Vec<ErrorKind>,
    caused: Vec<ErrorKind>,
    // How many errors the target had returned, and how many answers there were, by then.
    seen: usize,
    answered: usize,
}

/// Plays a case of a writer over a target of which one call may go wrong, by so many calls at once.
pub fn writes(
    alloc: Global,
    case: &WriterCase,
    fault: Fault,
    at_once: usize,
) -> Result<Outcome, Unplayed> {
    let buffer = first_buffer(alloc, case.storage)?;
    let first = low_byte(buffer.len());
    let mut record = Record::new(alloc, buffer.buf())?;
    let writer = writer(alloc, case, fault, buffer)?;
    let (target, buffer) = offered(alloc, writer, case, first, at_once, &mut record)?;
    Ok(outcome(alloc, record, target.get_ref(), &buffer)?)
}

// Plays the calls, of which the first write counts up from this byte, and takes the writer apart.
fn offered(
    alloc: Global,
    writer: BufWriter<Told<Target>>,
    case: &WriterCase,
    first: u8,
    at_once: usize,
    record: &mut Record,
) -> Result<(Told<Target>, Buffer), Unplayed> {
    let words = case.calls.as_slice();
    let offers = offers(alloc, words, first)?;
    let calls = calls(alloc, words, offers.as_slice())?;
    // The player knows no `write_all`, so each call beside one is played by itself.
    let has_all = words
        .iter()
        .any(|word| matches!(word, WriterWord::WriteAll(_)));
    let listed = Listed {
        calls: calls.as_slice(),
        at_once: if has_all { 1 } else { at_once.max(1) },
        unwraps: case.unwraps,
    };
    under_rule(alloc, writer, case.rule, listed, record)
}

// A call that the player knows, or a `write_all`.
#[derive(Clone, Copy)]
enum Step<'a> {
    Call(WriterCall<'a>),
    All(&'a [u8]),
}

// Calls, by how many at once they are played, and whether an `into_inner` follows.
#[derive(Clone, Copy)]
struct Listed<'a> {
    calls: &'a [Step<'a>],
    at_once: usize,
    unwraps: bool,
}

// What each word offers, if it is a write. What counts up goes on from one write to the next.
fn offers(alloc: Global, words: &[WriterWord], first: u8) -> Result<Vec<Vec<u8>>, AllocError> {
    let mut next = first;
    let mut offers = Vec::new(alloc);
    for word in words {
        offers.push(offer(alloc, word, &mut next)?)?;
    }
    Ok(offers)
}

fn offer(alloc: Global, word: &WriterWord, next: &mut u8) -> Result<Vec<u8>, AllocError> {
    let first = *next;
    match word {
        WriterWord::CountFrom(n) => {
            *next = low_byte(*n);
            Ok(Vec::new(alloc))
        }
        WriterWord::Write(n) | WriterWord::WriteAll(n) => {
            *next = first.wrapping_add(low_byte(*n));
            counting(alloc, first, *n)
        }
        WriterWord::WriteThese(bytes) => Vec::from_slice(alloc, bytes.as_slice()),
        _ => Ok(Vec::new(alloc)),
    }
}

fn calls<'a>(
    alloc: Global,
    words: &[WriterWord],
    offers: &'a [Vec<u8>],
) -> Result<Vec<Step<'a>>, AllocError> {
    let mut calls = Vec::new(alloc);
    for (word, bytes) in words.iter().zip(offers) {
        if let Some(call) = call_of(word, bytes.as_slice()) {
            calls.push(call)?;
        }
    }
    Ok(calls)
}

// The call that a word asks for, with these bytes for a write.
fn call_of<'a>(word: &WriterWord, bytes: &'a [u8]) -> Option<Step<'a>> {
    match word {
        WriterWord::CountFrom(_) => None,
        WriterWord::WriteAll(_) => Some(Step::All(bytes)),
        WriterWord::Write(_) | WriterWord::WriteThese(_) => {
            Some(Step::Call(WriterCall::Write(bytes)))
        }
        WriterWord::Flush => Some(Step::Call(WriterCall::Flush)),
        WriterWord::MakeRoom => Some(Step::Call(WriterCall::MakeRoom)),
        WriterWord::Reserve(n) => Some(Step::Call(WriterCall::Reserve(*n))),
    }
}

fn writer(
    alloc: Global,
    case: &WriterCase,
    fault: Fault,
    buffer: Buffer,
) -> Result<BufWriter<Told<Target>>, AllocError> {
    let target = ScriptWriter::new(alloc, case.script.as_slice())?;
    let target = Told::new(Watched::new(alloc, target, fault));
    Ok(BufWriter::with_buffer(buffer, target))
}

// What came of the calls.
fn outcome(
    alloc: Global,
    record: Record,
    target: &Target,
    buffer: &Buffer,
) -> Result<Outcome, AllocError> {
    let joined = joined(alloc, target.inside().taken(), buffer)?;
    let mut line = String::new(alloc);
    push_line(
        &mut line,
        alloc,
        record.run.answers.as_slice(),
        target,
        buffer,
    )?;
    Ok(Outcome {
        line,
        calls: target.notes().len(),
        joined,
        whole: record.accepted,
        returned: record.returned,
        caused: record.caused,
    })
}

fn under_rule(
    alloc: Global,
    writer: BufWriter<Told<Target>>,
    rule: WriterRule,
    listed: Listed<'_>,
    record: &mut Record,
) -> Result<(Told<Target>, Buffer), Unplayed> {
    match rule {
        WriterRule::Std => played(alloc, writer, StdPolicy, listed, record),
        WriterRule::AtLeast(n) => played(alloc, writer, FlushAtLeast(n), listed, record),
        WriterRule::Exact(n) => played(alloc, writer, FlushExact(n), listed, record),
        WriterRule::On(byte) => played(alloc, writer, FlushOn(byte), listed, record),
        WriterRule::Newline => played(alloc, writer, FlushOnNewline, listed, record),
        WriterRule::Foreign(policy) => under_foreign(alloc, writer, policy, listed, record),
    }
}

// Those that just a reader has say what std says.
fn under_foreign(
    alloc: Global,
    writer: BufWriter<Told<Target>>,
    policy: Foreign,
    listed: Listed<'_>,
    record: &mut Record,
) -> Result<(Told<Target>, Buffer), Unplayed> {
    match policy {
        Foreign::Greedy => played(alloc, writer, Greedy, listed, record),
        Foreign::Never => played(alloc, writer, Never, listed, record),
        Foreign::Always => played(alloc, writer, Always, listed, record),
        Foreign::TooMuch => played(alloc, writer, TooMuch, listed, record),
        Foreign::Tidy(min) => played(alloc, writer, Tidy(MinBuffered(min)), listed, record),
        Foreign::Growing => played(alloc, writer, Growing, listed, record),
        Foreign::Limiting(limit) => played(alloc, writer, Limiting(limit), listed, record),
        Foreign::Fickle => played(alloc, writer, Fickle { asked: 0 }, listed, record),
        Foreign::Halves => played(alloc, writer, Halves, listed, record),
        Foreign::FailsAt(n) => played(alloc, writer, FailsAt::new(n), listed, record),
        Foreign::Header | Foreign::Copying => played(alloc, writer, StdPolicy, listed, record),
    }
}

// Plays the calls under a policy, and takes the writer apart.
fn played<P: WriterPolicy + Drop>(
    alloc: Global,
    writer: BufWriter<Told<Target>>,
    policy: P,
    listed: Listed<'_>,
    record: &mut Record,
) -> Result<(Told<Target>, Buffer), Unplayed> {
    let mut writer = writer.set_policy(policy);
    plays_each(alloc, &mut writer, listed, record)?;
    if listed.unwraps {
        return unwrapped(alloc, writer, record);
    }
    Ok(writer.into_inner_with_buffer())
}

fn plays_each<P: WriterPolicy>(
    alloc: Global,
    writer: &mut BufWriter<Told<Target>, P>,
    listed: Listed<'_>,
    record: &mut Record,
) -> Result<(), AllocError> {
    for steps in listed.calls.chunks(listed.at_once.max(1)) {
        match steps {
            [Step::All(bytes)] => writes_all(writer, bytes, record)?,
            _ => plays_known(alloc, writer, steps, record)?,
        }
    }
    Ok(())
}

fn plays_known<P: WriterPolicy>(
    alloc: Global,
    writer: &mut BufWriter<Told<Target>, P>,
    steps: &[Step<'_>],
    record: &mut Record,
) -> Result<(), AllocError> {
    let calls = known(alloc, steps)?;
    plays(writer, calls.as_slice(), &mut record.run)?;
    record.note(calls.as_slice(), writer.get_ref().get_ref().errors())
}

// The calls that the player knows.
fn known<'a>(alloc: Global, steps: &[Step<'a>]) -> Result<Vec<WriterCall<'a>>, AllocError> {
    let mut calls = Vec::new(alloc);
    for step in steps {
        if let Step::Call(call) = *step {
            calls.push(call)?;
        }
    }
    Ok(calls)
}

// All of these bytes. Where that fails, as many were accepted as are now taken or buffered.
fn writes_all<P: WriterPolicy>(
    writer: &mut BufWriter<Told<Target>, P>,
    bytes: &[u8],
    record: &mut Record,
) -> Result<(), AllocError> {
    let answer = write_all(writer, bytes);
    let target = writer.get_ref().get_ref();
    let taken = target.inside().taken().len();
    let held = taken.saturating_add(writer.buf_len());
    let count = match answer {
        WriterAnswer::Done => bytes.len(),
        _ => held.saturating_sub(record.accepted.len()),
    };
    record.run.answers.push(answer)?;
    record.accept(WriterCall::Write(bytes), count)?;
    record.note(&[WriterCall::Write(bytes)], target.errors())
}

fn write_all<W: Write>(writer: &mut W, bytes: &[u8]) -> WriterAnswer {
    match writer.write_all(bytes) {
        Ok(()) => WriterAnswer::Done,
        Err(e) => WriterAnswer::Fault(e.kind()),
    }
}

fn plays<W: TellWrite, P: WriterPolicy>(
    writer: &mut BufWriter<W, P>,
    calls: &[WriterCall<'_>],
    run: &mut WriterRun,
) -> Result<(), AllocError> {
    play_writer(writer, calls, run)
}

// The target that `into_inner` returns, with a buffer that has nothing, or what it leaves where it fails.
fn unwrapped<P: WriterPolicy + Drop>(
    alloc: Global,
    writer: BufWriter<Told<Target>, P>,
    record: &mut Record,
) -> Result<(Told<Target>, Buffer), Unplayed> {
    match writer.into_inner() {
        Ok(target) => Ok((target, nothing_left(alloc, record)?)),
        Err(IntoInnerError(writer, e)) => {
            record.run.answers.push(WriterAnswer::Fault(e.kind()))?;
            let (target, buffer) = writer.into_inner_with_buffer();
            record.note(&[WriterCall::Flush], target.get_ref().errors())?;
            Ok((target, buffer))
        }
    }
}

fn nothing_left(alloc: Global, record: &mut Record) -> Result<Buffer, Unplayed> {
    record.run.answers.push(WriterAnswer::Done)?;
    Ok(Buffer::with_capacity(alloc, 0)?)
}

impl Record {
    // Before any call, over a buffer that holds these bytes.
    fn new(alloc: Global, held: &[u8]) -> Result<Record, AllocError> {
        Ok(Record {
            run: WriterRun::new(alloc),
            accepted: Vec::from_slice(alloc, held)?,
            returned: Vec::new(alloc),
            caused: Vec::new(alloc),
            seen: 0,
            answered: 0,
        })
    }

    // Notes what the last calls accepted, and their errors beside the last of the target's, if that is of these calls.
    fn note(&mut self, calls: &[WriterCall<'_>], errors: &[ErrorKind]) -> Result<(), AllocError> {
        let last = errors.iter().skip(self.seen).last().copied();
        self.seen = errors.len();
        for (at, call) in calls.iter().enumerate() {
            let place = self.answered.saturating_add(at);
            if let Some(answer) = self.run.answers.as_slice().get(place).copied() {
                self.note_answer(*call, answer, last)?;
            }
        }
        self.answered = self.run.answers.len();
        Ok(())
    }

    fn note_answer(
        &mut self,
        call: WriterCall<'_>,
        answer: WriterAnswer,
        last: Option<ErrorKind>,
    ) -> Result<(), AllocError> {
        match answer {
            WriterAnswer::Count(n) => self.accept(call, n),
            WriterAnswer::Fault(kind) if !is_refusal(kind) => {
                self.returned.push(kind)?;
                if let Some(last) = last {
                    self.caused.push(last)?;
                }
                Ok(())
            }
            _ => Ok(()),
        }
    }

    // `count` bytes of this call were accepted.
    fn accept(&mut self, call: WriterCall<'_>, count: usize) -> Result<(), AllocError> {
        match call {
            WriterCall::Write(bytes) => self
                .accepted
                .extend_from_slice(bytes.get(..count).unwrap_or(bytes)),
            _ => Ok(()),
        }
    }
}

fn push_line(
    text: &mut String,
    alloc: Global,
    answers: &[WriterAnswer],
    target: &Target,
    buffer: &Buffer,
) -> Result<(), AllocError> {
    for answer in answers {
        text.push_str(print::writer_word(alloc, *answer)?.as_str())?;
        text.push_str(" ")?;
    }
    print::push_state(text, buffer, target.notes())?;
    text.push_str(" | ")?;
    print::push_bytes(text, target.inside().taken())
}
