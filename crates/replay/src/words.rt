//! The words of a line.
ghost use Rattle.std.specs.Prelude.{◌≡◌, ◌++◌, IfSome};
ghost use Rattle.replay.specs.Words.{IsBufferWord, IsSized, IsReaderWord, IsWriterWord, mode_word};

use crate::case::{BufferCall, Mode, ReaderWord, WriterWord};
use programs::number;
use redux_play::play::ReaderCall;
use redux_script::Answer;
use std::alloc::{AllocError, Global};
use std::io::ErrorKind;

/// How the case of a line is to be played, and the line without the word for that.
pub fn mode(line: &str) -> (Mode, &str)
    ensures { line.now ≡ mode_word result.0 ++ result.1.now }
{
    if let Some(case) = line.strip_prefix("sweep ") {
        return (Mode::Sweep, case);
    }
    if let Some(case) = line.strip_prefix("lossy ") {
        return (Mode::LossySweep, case);
    }
    match line.strip_prefix("silent ") {
        Some(case) => (Mode::SilentSweep, case),
        None => (Mode::Once, line),
    }
}

// The letter that this word begins with, and the number behind it.
fn sized(word: &str) -> Option<(&str, usize)>
    ensures some { IfSome result (λ s. IsSized s.0.now s.1 word.now) }
{
    let (letter, digits) = word.split_at_checked(1)?;
    Some((letter, number(digits)?))
}

/// The call of a reader that this word is.
pub fn reader_call(word: &str) -> Option<ReaderWord>
    ensures some { IfSome result (λ call. IsReaderWord call word.now) }
{
    match word {
        "F" => Some(ReaderWord::Call(ReaderCall::Fill)),
        "I" => Some(ReaderWord::Call(ReaderCall::ReadIntoBuf)),
        "M" => Some(ReaderWord::Call(ReaderCall::MakeRoom)),
        _ => match sized(word)? {
            ("R", n) => Some(ReaderWord::Call(ReaderCall::Read(n))),
            ("C", n) => Some(ReaderWord::Call(ReaderCall::Consume(n))),
            ("V", n) => Some(ReaderWord::Call(ReaderCall::Reserve(n))),
            ("N", n) => Some(ReaderWord::SetMin(n)),
            _ => None,
        },
    }
}

/// The call of a writer that this word is.
pub fn writer_call(word: &str) -> Option<WriterWord>
    ensures some { IfSome result (λ call. IsWriterWord call word.now) }
{
    match word {
        "L" => Some(WriterWord::Flush),
        "M" => Some(WriterWord::MakeRoom),
        _ => match sized(word)? {
            ("@", n) => Some(WriterWord::CountFrom(n)),
            ("W", n) => Some(WriterWord::Write(n)),
            ("A", n) => Some(WriterWord::WriteAll(n)),
            ("V", n) => Some(WriterWord::Reserve(n)),
            _ => None,
        },
    }
}

/// The call of a bare buffer that this word is.
pub fn buffer_call(word: &str) -> Option<BufferCall>
    ensures some { IfSome result (λ call. IsBufferWord call word.now) }
{
    match word {
        "I" => Some(BufferCall::ReadFrom),
        "M" => Some(BufferCall::MakeRoom),
        "T" => Some(BufferCall::Limit),
        _ => match sized(word)? {
            ("C", n) => Some(BufferCall::Consume(n)),
            ("V", n) => Some(BufferCall::Reserve(n)),
            ("P", n) => Some(BufferCall::Push(n)),
            ("T", n) => Some(BufferCall::SetLimit(n)),
            _ => None,
        },
    }
}

/// The bytes that these pairs of digits stand for, if they are that.
pub fn hex_bytes(alloc: Global, digits: &str) -> Result<Option<Vec<u8>>, AllocError> {
    let mut bytes = Vec::new(alloc);
    for pair in digits.as_bytes().chunks(2) {
        let [high, low] = pair else {
            return Ok(None);
        };
        match (hex_digit(*high), hex_digit(*low)) {
            (Some(high), Some(low)) => bytes.push(high.wrapping_mul(16) | low)?,
            _ => return Ok(None),
        }
    }
    Ok(Some(bytes))
}

fn hex_digit(digit: u8) -> Option<u8> {
    match digit {
        b'0'..=b'9' => Some(digit - b'0'),
        b'a'..=b'f' => Some(digit - b'a' + 10),
        _ => None,
    }
}

/// The answer of a scripted stream that this word is.
pub fn answer(word: &str) -> Option<Answer> {
    match word {
        "a" => Some(Answer::Serve(usize::MAX)),
        "z" => Some(Answer::Serve(0)),
        "i" => Some(Answer::Interrupt(1)),
        _ => match word.strip_prefix("e:") {
            Some(name) => Some(Answer::Fail(kind_named(name)?)),
            None => Some(Answer::Serve(number(word)?)),
        },
    }
}

// The kinds of errors that have a name here.
static KINDS: [(&str, ErrorKind); 18] = [
    ("AlreadyExists", ErrorKind::AlreadyExists),
    ("BrokenPipe", ErrorKind::BrokenPipe),
    ("ConnectionAborted", ErrorKind::ConnectionAborted),
    ("ConnectionRefused", ErrorKind::ConnectionRefused),
    ("ConnectionReset", ErrorKind::ConnectionReset),
    ("Interrupted", ErrorKind::Interrupted),
    ("InvalidData", ErrorKind::InvalidData),
    ("InvalidInput", ErrorKind::InvalidInput),
    ("NotConnected", ErrorKind::NotConnected),
    ("NotFound", ErrorKind::NotFound),
    ("Other", ErrorKind::Other),
    ("OutOfMemory", ErrorKind::OutOfMemory),
    ("PermissionDenied", ErrorKind::PermissionDenied),
    ("TimedOut", ErrorKind::TimedOut),
    ("UnexpectedEof", ErrorKind::UnexpectedEof),
    ("Unsupported", ErrorKind::Unsupported),
    ("WouldBlock", ErrorKind::WouldBlock),
    ("WriteZero", ErrorKind::WriteZero),
];

fn kind_named(name: &str) -> Option<ErrorKind> {
    for (word, kind) in &KINDS {
        if *word == name {
            return Some(*kind);
        }
    }
    None
}

/// The name of a kind of error.
pub fn kind_name(kind: ErrorKind) -> &'static str {
    for (word, named) in &KINDS {
        if *named == kind {
            return word;
        }
    }
    "another"
}
