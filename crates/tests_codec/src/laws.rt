//! The laws that make calls: any number of them with their answers, and lists of payloads that are written and read again.
use crate::kinds::line_reader;
use codec::laws::{play_next, play_write, write_each};
use codec::{Delimited, PieceWriter, WritePieceError};
use frame_reader::WriteFrameError;
use line_play::{Ask, Played, play_calls};
use line_reader::LineError;
use redux_script::Answer;
use std::alloc::{AllocError, Global};
use std::io;
use std::io::ErrorKind;
use std::test::Fail;
use tests_common::{Log, Source, Target, line_writer, source, taken_lines, target};

// Notes a line or what came in its place, and a bar.
fn note_line(answer: &Result<Option<Vec<u8>>, LineError>, log: &mut Log) {
    match answer {
        Ok(Some(line)) => log.note(line.as_slice()),
        Ok(None) => log.note(b"end"),
        Err(why) => log.show(why),
    }
    log.note(b"|");
}

// The same of any call.
fn note_call(call: &Played, log: &mut Log) {
    match call {
        Played::Next(answer) | Played::NextTrimmed(answer) => note_line(answer, log),
        Played::NextBuffered(Some(line)) => log.note(line.as_slice()),
        Played::SkipLine(Ok(count)) => log.show(count),
        _ => log.note(b"none|"),
    }
}

// Lines of at most three bytes, of a stream that fails behind so many.
fn fails_at_five(alloc: Global) -> Result<Source, AllocError> {
    let script = [Answer::Serve(5), Answer::Fail(ErrorKind::TimedOut)];
    source(alloc, b"ab\nc\r\nabcdef\nx", &script)
}

fn note_answers(alloc: Global, log: &mut Log) -> io::Result<()> {
    let mut answers = Vec::new(alloc);
    let mut lines = line_reader(alloc, 3, fails_at_five(alloc)?)?;
    let played = play_next(alloc, &mut lines, 4, &mut answers);
    drop(lines);
    played?;
    for answer in &answers {
        note_line(answer, log);
    }
    Ok(())
}

const ASKED: [Ask; 8] = [
    Ask::NextBuffered,
    Ask::Next,
    Ask::NextTrimmed,
    Ask::NextTrimmed,
    Ask::Next,
    Ask::SkipLine,
    Ask::Next,
    Ask::Next,
];

fn note_calls(alloc: Global, log: &mut Log) -> io::Result<()> {
    let mut calls = Vec::new(alloc);
    let mut lines = line_reader(alloc, 3, fails_at_five(alloc)?)?;
    let played = play_calls(alloc, &mut lines, &ASKED, &mut calls);
    drop(lines);
    played?;
    for call in &calls {
        note_call(call, log);
    }
    Ok(())
}

#[test]
fn plays_calls(rt: HostRuntime) -> Result<(), Fail> {
    let mut log = Log::new(rt.alloc());
    note_answers(rt.alloc(), &mut log)?;
    log.note(b"\n");
    note_calls(rt.alloc(), &mut log)?;
    assert!(rt;
        log.is(
            b"ab|timed out|c\r|a line of more than 3 bytes is too long|\n\
none|ab|timed out|c|a line of more than 3 bytes is too long|7x|end|"
        )
    );
    Ok(())
}

fn owned(alloc: Global, payloads: &[&[u8]]) -> Result<Vec<Vec<u8>>, AllocError> {
    let mut all = Vec::new(alloc);
    for payload in payloads {
        all.push(Vec::from_slice(alloc, payload)?)?;
    }
    Ok(all)
}

fn are(found: &[Vec<u8>], payloads: &[Vec<u8>]) -> bool {
    found.len() == payloads.len() && found.iter().zip(payloads).all(|(one, other)| one == other)
}

const LINES: Delimited = Delimited { end: b'\n', max: 3 };

// Payloads, and behind how many comes the first that is refused, of lines of at most three bytes and of such frames.
static LISTS: [(&[&[u8]], Option<usize>); 3] = [
    (&[b"ab", b"", b"abc"], None),
    (&[], None),
    (&[b"abc", b"abcd"], Some(1)),
];

fn writer(alloc: Global) -> io::Result<PieceWriter<Target, Delimited>> {
    Ok(PieceWriter::new(alloc, target(alloc, &[])?, LINES)?)
}

// Behind how many the first was refused.
fn writes_each(alloc: Global, payloads: &[Vec<u8>]) -> io::Result<Option<usize>> {
    let mut writer = writer(alloc)?;
    let written = write_each(&mut writer, payloads);
    drop(writer);
    Ok(match written {
        Ok(()) => None,
        Err(e) => Some(e.taken),
    })
}

// The same where each is written, whatever came of those before.
fn plays_each(alloc: Global, payloads: &[Vec<u8>]) -> io::Result<Option<usize>> {
    let mut writer = writer(alloc)?;
    let mut answers = Vec::new(alloc);
    let played = play_write(&mut writer, payloads, &mut answers);
    drop(writer);
    let refused = answers.iter().position(|answer| answer.is_err());
    drop(answers);
    played?;
    Ok(refused)
}

// Whether lists come back whole, as lines and as frames, or are refused.
fn come_back(alloc: Global, payloads: &[Vec<u8>], refused: bool) -> bool {
    let lines = match codec::laws::round_trip(alloc, LINES, payloads) {
        Ok(both) => !refused && are(both.1.as_slice(), payloads),
        Err(why) => refused && matches!(why, WritePieceError::Refused(_)),
    };
    let frames = match frame_reader::laws::round_trip(alloc, payloads, 3) {
        Ok(both) => !refused && are(both.1.as_slice(), payloads),
        Err(why) => refused && matches!(why, WriteFrameError::TooLong(4)),
    };
    lines && frames
}

fn are_so(alloc: Global, payloads: &[Vec<u8>], taken: Option<usize>) -> io::Result<bool> {
    let each = writes_each(alloc, payloads)? == taken && plays_each(alloc, payloads)? == taken;
    Ok(each && come_back(alloc, payloads, taken.is_some()))
}

#[test]
fn writes_and_reads_lists(rt: HostRuntime) -> Result<(), Fail> {
    for &(list, taken) in &LISTS {
        let payloads = owned(rt.alloc(), list)?;
        let is_so = are_so(rt.alloc(), payloads.as_slice(), taken);
        drop(payloads);
        assert!(rt; is_so?);
    }
    Ok(())
}

// Lines over a buffer of four bytes, behind how many the stream failed, and what it took till then.
static SENT: [(&[Answer], Option<usize>, &'static [u8]); 2] = [
    (&[], None, b"ab\ncdefg\n"),
    (
        &[Answer::Serve(3), Answer::Fail(ErrorKind::StorageFull)],
        Some(1),
        b"ab\n",
    ),
];

fn sends_lines(alloc: Global, row: &(&[Answer], Option<usize>, &[u8])) -> io::Result<bool> {
    let payloads = owned(alloc, &[b"ab", b"cdefg"])?;
    let mut lines = line_writer(alloc, 4, b"", target(alloc, row.0)?)?;
    let written = line_play::write_each(&mut lines, payloads.as_slice());
    drop(payloads);
    let is_taken = taken_lines(&lines) == row.2;
    drop(lines);
    let taken = match written {
        Ok(()) => None,
        Err(e) => Some(e.taken),
    };
    Ok(is_taken && taken == row.1)
}

#[test]
fn writes_lines(rt: HostRuntime) -> Result<(), Fail> {
    for (at, row) in SENT.iter().enumerate() {
        assert!(rt; sends_lines(rt.alloc(), row)?, "row {at}");
    }
    Ok(())
}

// Lines come back where a buffer holds three that are so long, as none do here.
#[test]
fn lines_come_back(rt: HostRuntime) -> Result<(), Fail> {
    assert!(rt; line_play::round_trip(rt.alloc(), &[], 3)?.1.is_empty());
    assert!(rt; line_play::round_trip(rt.alloc(), &[], usize::MAX).is_err());
    Ok(())
}
