//! What a line asks for: a buffered reader or writer, or a bare buffer, what the stream answers, and the calls.
use redux_play::play::ReaderCall;
use redux_script::Answer;

/// What a line asks for.
#[derive(Drop)]
pub enum Case {
    Stream(StreamCase),
    Buffer(BufferCase),
}

/// A buffered stream, and its calls.
#[derive(Drop)]
pub enum StreamCase {
    Reader(ReaderCase),
    Writer(WriterCase),
}

/// How a case is played.
#[derive(Clone, Copy)]
pub enum Mode {
    /// Once, and its answers are printed.
    Once,
    /// Again and again, with each call of the stream inside going wrong in turn.
    Sweep,
    /// A sweep in which the call behind the one that goes wrong loses a byte.
    LossySweep,
    /// A sweep in which the error of the call that goes wrong is kept from the caller.
    SilentSweep,
}

/// The kind of a buffer.
#[derive(Clone, Copy)]
pub enum Kind {
    Plain,
    Ring,
}

/// The buffer that is asked for: of the usual capacity or another one, and with how many bytes it holds at first, as far as they
/// fit.
#[derive(Clone, Copy)]
pub struct Storage {
    pub kind: Kind,
    pub capacity: Option<usize>,
    pub held: usize,
    /// Its own limit, if it has one.
    pub limit: Option<usize>,
}

/// The policy of a reader.
#[derive(Clone, Copy)]
pub enum ReaderRule {
    Std,
    Min(usize),
    Foreign(Foreign),
}

/// The policy of a writer.
#[derive(Clone, Copy)]
pub enum WriterRule {
    Std,
    AtLeast(usize),
    Exact(usize),
    On(u8),
    Newline,
    Foreign(Foreign),
}

/// A policy that the library doesn't know, as `tests_common` has them.
#[derive(Clone, Copy)]
pub enum Foreign {
    Greedy,
    Never,
    Always,
    TooMuch,
    Tidy(usize),
    Growing,
    Limiting(usize),
    Fickle,
    Header,
    Halves,
    Copying,
    FailsAt(usize),
}

/// A call of a reader, which the player knows, or another minimum.
#[derive(Clone, Copy)]
pub enum ReaderWord {
    Call(ReaderCall),
    /// No call of the reader: its policy looks ahead by so many bytes from now on.
    SetMin(usize),
}

/// A call of a writer, with how many bytes a write offers, or which.
#[derive(Drop)]
pub enum WriterWord {
    /// No call: what is written next counts up from this number, modulo 256.
    CountFrom(usize),
    Write(usize),
    WriteThese(Vec<u8>),
    /// A `write_all`.
    WriteAll(usize),
    Flush,
    MakeRoom,
    Reserve(usize),
}

/// A buffered reader over a source of so many bytes, and the calls.
#[derive(Drop)]
pub struct ReaderCase {
    pub storage: Storage,
    pub rule: ReaderRule,
    /// Whether the bytes that a fill shows, and those that it handed out, are printed.
    pub prints_bytes: bool,
    pub source: usize,
    pub script: Vec<Answer>,
    pub calls: Vec<ReaderWord>,
}

/// A buffered writer, and the calls.
#[derive(Drop)]
pub struct WriterCase {
    pub storage: Storage,
    pub rule: WriterRule,
    pub script: Vec<Answer>,
    pub calls: Vec<WriterWord>,
    /// Whether an `into_inner` comes behind them.
    pub unwraps: bool,
}

/// A call of a bare buffer, with how many bytes it is for.
#[derive(Clone, Copy)]
pub enum BufferCall {
    ReadFrom,
    Consume(usize),
    MakeRoom,
    Reserve(usize),
    Push(usize),
    SetLimit(usize),
    Limit,
}

/// A bare buffer beside a source of so many bytes, and the calls.
#[derive(Drop)]
pub struct BufferCase {
    pub storage: Storage,
    pub source: usize,
    pub script: Vec<Answer>,
    pub calls: Vec<BufferCall>,
}
