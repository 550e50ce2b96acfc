//! Reading a line: what it asks for, or why that can't be told.
use crate::case::{
    BufferCall, BufferCase, Case, Foreign, Kind, ReaderCase, ReaderRule, ReaderWord, Storage,
    StreamCase, WriterCase, WriterRule, WriterWord,
};
use crate::words::{answer, buffer_call, hex_bytes, reader_call, writer_call};
use programs::number;
use redux_script::Answer;
use std::alloc::{AllocError, AllocFailed, Global};
use std::fmt;

/// Why a line has no answer.
#[derive(Drop)]
pub enum Unread<'a> {
    /// The line is not four parts with ` | ` between them.
    Parts,
    /// This first part names no buffered stream.
    Stream(&'a str),
    /// This is no number of bytes that the source can have.
    Source(&'a str),
    /// This is no answer of a stream.
    Answer(&'a str),
    /// This is no call.
    Call(&'a str),
    /// A bare buffer is played just once.
    Swept,
    /// There is not enough memory.
    Memory,
}

impl From<AllocError> for Unread<'_> {
    fn from(_e: AllocError) -> Self {
        Unread::Memory
    }
}

impl<T: Drop> From<AllocFailed<T>> for Unread<'_> {
    fn from(_e: AllocFailed<T>) -> Self {
        Unread::Memory
    }
}

impl fmt::Display for Unread<'_> {
    fn fmt<W: fmt::Write>(&self, f: &mut fmt::Formatter<W>) -> fmt::Result {
        let (text, what) = match self {
            Unread::Stream(text) => (*text, "is no buffered stream"),
            Unread::Source(text) => (*text, "is no number of bytes for a source"),
            Unread::Answer(word) => (*word, "is no answer of a stream"),
            Unread::Call(word) => (*word, "is no call"),
            Unread::Parts => return f.write_str("not four parts"),
            Unread::Swept => return f.write_str("a bare buffer isn't swept"),
            Unread::Memory => return f.write_str("not enough memory"),
        };
        write!(f, "`{text}` {what}")
    }
}

// What the first part names.
#[derive(Clone, Copy)]
enum Stream {
    Reader {
        storage: Storage,
        rule: ReaderRule,
        prints_bytes: bool,
    },
    Writer(Storage, WriterRule),
    Bare(Storage),
}

/// What this line asks for.
pub fn case(alloc: Global, line: &str) -> Result<Case, Unread<'_>> {
    let (stream, source, script, calls) = parts(alloc, line)?;
    let count = number(source).ok_or(Unread::Source(source))?;
    match buffered_stream(alloc, stream)?.ok_or(Unread::Stream(stream))? {
        Stream::Reader {
            storage,
            rule,
            prints_bytes,
        } => Ok(Case::Stream(StreamCase::Reader(ReaderCase {
            storage,
            rule,
            prints_bytes,
            source: count,
            script: answers(alloc, script)?,
            calls: words(alloc, calls)?,
        }))),
        // A writer has no source.
        Stream::Writer(_, _) if count > 0 => Err(Unread::Source(source)),
        Stream::Writer(storage, rule) => {
            let (calls, unwraps) = unwrapping(calls);
            Ok(Case::Stream(StreamCase::Writer(WriterCase {
                storage,
                rule,
                script: answers(alloc, script)?,
                calls: words(alloc, calls)?,
                unwraps,
            })))
        }
        Stream::Bare(storage) => Ok(Case::Buffer(BufferCase {
            storage,
            source: count,
            script: answers(alloc, script)?,
            calls: words(alloc, calls)?,
        })),
    }
}

fn parts(alloc: Global, line: &str) -> Result<(&str, &str, &str, &str), Unread<'_>> {
    let parts: Vec<&str> = line.split(" | ").collect(alloc)?;
    match *parts.as_slice() {
        [stream, source, script, calls] => Ok((stream, source, script, calls)),
        _ => Err(Unread::Parts),
    }
}

fn buffered_stream(alloc: Global, text: &str) -> Result<Option<Stream>, AllocError> {
    let words: Vec<&str> = text.split_whitespace().collect(alloc)?;
    Ok(stream_of(words.as_slice()))
}

fn stream_of(words: &[&str]) -> Option<Stream> {
    let [side, kind, capacity, others @ ..] = words else {
        return None;
    };
    let (limit, others) = match others {
        ["limit", most, others @ ..] => (Some(number(*most)?), others),
        _ => (None, others),
    };
    let (held, rule) = match others {
        ["holds", count, rule @ ..] => (number(*count)?, rule),
        _ => (0, others),
    };
    let storage = Storage {
        kind: kind_of(*kind)?,
        capacity: capacity_of(*capacity)?,
        held,
        limit,
    };
    match *side {
        "reader" | "handing" => Some(Stream::Reader {
            storage,
            rule: reader_rule(rule)?,
            prints_bytes: *side == "handing",
        }),
        "writer" => Some(Stream::Writer(storage, writer_rule(rule)?)),
        "buffer" if rule.is_empty() => Some(Stream::Bare(storage)),
        _ => None,
    }
}

fn kind_of(word: &str) -> Option<Kind> {
    match word {
        "plain" => Some(Kind::Plain),
        "ring" => Some(Kind::Ring),
        _ => None,
    }
}

// The usual capacity is none.
fn capacity_of(word: &str) -> Option<Option<usize>> {
    match word {
        "usual" => Some(None),
        _ => Some(Some(number(word)?)),
    }
}

fn reader_rule(words: &[&str]) -> Option<ReaderRule> {
    match words {
        ["std"] => Some(ReaderRule::Std),
        ["min", n] => Some(ReaderRule::Min(number(*n)?)),
        _ => match foreign(words)? {
            Foreign::TooMuch => None,
            policy => Some(ReaderRule::Foreign(policy)),
        },
    }
}

// Those that a word alone names.
static NAMED: [(&str, Foreign); 9] = [
    ("greedy", Foreign::Greedy),
    ("never", Foreign::Never),
    ("always", Foreign::Always),
    ("toomuch", Foreign::TooMuch),
    ("growing", Foreign::Growing),
    ("fickle", Foreign::Fickle),
    ("header", Foreign::Header),
    ("halves", Foreign::Halves),
    ("copying", Foreign::Copying),
];

fn named(word: &str) -> Option<Foreign> {
    for (name, policy) in &NAMED {
        if *name == word {
            return Some(*policy);
        }
    }
    None
}

fn foreign(words: &[&str]) -> Option<Foreign> {
    match words {
        [name] => named(*name),
        ["tidy", min] => Some(Foreign::Tidy(number(*min)?)),
        ["limiting", limit] => Some(Foreign::Limiting(number(*limit)?)),
        ["failsat", question] => Some(Foreign::FailsAt(number(*question)?)),
        _ => None,
    }
}

fn writer_rule(words: &[&str]) -> Option<WriterRule> {
    match words {
        ["std"] => Some(WriterRule::Std),
        ["newline"] => Some(WriterRule::Newline),
        ["atleast", n] => Some(WriterRule::AtLeast(number(*n)?)),
        ["exact", n] => Some(WriterRule::Exact(number(*n)?)),
        ["on", byte] => Some(WriterRule::On(byte.parse::<u8>().ok()?)),
        _ => match foreign(words)? {
            Foreign::Header | Foreign::Copying => None,
            policy => Some(WriterRule::Foreign(policy)),
        },
    }
}

// What a word stands for, or why that can't be told.
trait Word: Drop + Sized {
    fn read(alloc: Global, word: &str) -> Result<Self, Unread<'_>>;
}

impl Word for Answer {
    fn read(_alloc: Global, word: &str) -> Result<Self, Unread<'_>> {
        answer(word).ok_or(Unread::Answer(word))
    }
}

impl Word for ReaderWord {
    fn read(_alloc: Global, word: &str) -> Result<Self, Unread<'_>> {
        reader_call(word).ok_or(Unread::Call(word))
    }
}

impl Word for BufferCall {
    fn read(_alloc: Global, word: &str) -> Result<Self, Unread<'_>> {
        buffer_call(word).ok_or(Unread::Call(word))
    }
}

impl Word for WriterWord {
    fn read(alloc: Global, word: &str) -> Result<Self, Unread<'_>> {
        match word.strip_prefix('w') {
            Some(digits) => match hex_bytes(alloc, digits)? {
                Some(bytes) => Ok(WriterWord::WriteThese(bytes)),
                None => Err(Unread::Call(word)),
            },
            None => writer_call(word).ok_or(Unread::Call(word)),
        }
    }
}

fn words<T: Word>(alloc: Global, text: &str) -> Result<Vec<T>, Unread<'_>> {
    let mut all = Vec::new(alloc);
    for word in text.split_whitespace() {
        all.push(T::read(alloc, word)?)?;
    }
    Ok(all)
}

// What the stream inside answers; `-` is nothing.
fn answers(alloc: Global, text: &str) -> Result<Vec<Answer>, Unread<'_>> {
    words(alloc, if text == "-" { "" } else { text })
}

// The calls without an `into_inner` behind them, and whether there is one.
fn unwrapping(text: &str) -> (&str, bool) {
    match text.strip_suffix('U') {
        Some(calls) if calls.is_empty() || calls.ends_with(' ') => (calls, true),
        _ => (text, false),
    }
}
