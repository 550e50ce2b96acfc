//! Playing a case once, and what came of it.
ghost use Rattle.std.specs.Prelude.{IfOk};
ghost use Rattle.replay.specs.Answers.{CountsUp};

use crate::case::{Kind, Storage, StreamCase};
use crate::reading::reads;
use crate::watched::{Fault, Watched};
use crate::writing::writes;
use buffer_redux::{Buffer, GrowError};
use redux_script::{Answer, ScriptReader};
use std::alloc::{AllocError, AllocFailed, Global};
use std::io::ErrorKind;

/// What came of a case.
#[derive(Drop)]
pub struct Outcome {
    /// The line that answers it.
    pub line: String,
    /// How many calls the stream inside had.
    pub calls: usize,
    /// What was handed out, or what the stream inside took, and then what is buffered.
    pub joined: Vec<u8>,
    /// What was held, and then what the stream inside gave, or what was accepted.
    pub whole: Vec<u8>,
    /// The kinds of the errors that the calls returned.
    pub returned: Vec<ErrorKind>,
    /// The kinds that the stream inside returned for these. Of a writer it is told of one call at a time.
    pub caused: Vec<ErrorKind>,
}

/// Why a case was not played.
#[derive(Clone, Copy)]
pub enum Unplayed {
    /// Its buffer could not be made.
    Refused(GrowError),
    /// There is not enough memory for what came of it.
    Memory,
    /// A bare buffer is played just once.
    Swept,
}

impl From<GrowError> for Unplayed {
    fn from(e: GrowError) -> Self {
        Unplayed::Refused(e)
    }
}

impl From<AllocError> for Unplayed {
    fn from(_e: AllocError) -> Self {
        Unplayed::Memory
    }
}

impl<T: Drop> From<AllocFailed<T>> for Unplayed {
    fn from(_e: AllocFailed<T>) -> Self {
        Unplayed::Memory
    }
}

/// Plays a case over a stream of which one call may go wrong, a writer's by so many calls at once.
pub fn play_case(
    alloc: Global,
    case: &StreamCase,
    fault: Fault,
    at_once: usize,
) -> Result<Outcome, Unplayed> {
    match case {
        StreamCase::Reader(case) => reads(alloc, case, fault),
        StreamCase::Writer(case) => writes(alloc, case, fault, at_once),
    }
}

/// `count` bytes, which count up from `first`, modulo 256.
pub fn counting(alloc: Global, first: u8, count: usize) -> Result<Vec<u8>, AllocError>
    ensures { IfOk result (λ bytes. CountsUp first count bytes.items) }
{
    let mut bytes = Vec::with_capacity(alloc, count)?;
    for i in 0..count {
        bytes.push(first.wrapping_add((i % 256) as u8))?;
    }
    Ok(bytes)
}

/// The buffer that is asked for, with what it holds at first.
pub fn first_buffer(alloc: Global, storage: Storage) -> Result<Buffer, Unplayed> {
    let held = counting(alloc, 0, storage.held)?;
    let mut buffer = match (storage.kind, storage.capacity) {
        (Kind::Plain, Some(capacity)) => Buffer::with_capacity(alloc, capacity)?,
        (Kind::Ring, Some(capacity)) => Buffer::with_capacity_ringbuf(alloc, capacity)?,
        (Kind::Plain, None) => Buffer::new(alloc)?,
        (Kind::Ring, None) => Buffer::new_ringbuf(alloc)?,
    };
    if let Some(limit) = storage.limit {
        buffer.set_limit(limit)?;
    }
    let _ = buffer.copy_from_slice(held.as_slice());
    Ok(buffer)
}

/// What gives the bytes of a case.
pub type Source = Watched<ScriptReader>;

/// One of `count` bytes, which count on from what is held, and of which one call may go wrong.
pub fn source(
    alloc: Global,
    held: usize,
    count: usize,
    script: &[Answer],
    fault: Fault,
) -> Result<Source, AllocError> {
    let bytes = counting(alloc, low_byte(held), count)?;
    let source = ScriptReader::new(alloc, bytes.as_slice(), script)?;
    Ok(Watched::new(alloc, source, fault))
}

/// These bytes, and then what is buffered.
pub fn joined(alloc: Global, bytes: &[u8], buffer: &Buffer) -> Result<Vec<u8>, AllocError> {
    let mut joined = Vec::from_slice(alloc, bytes)?;
    joined.extend_from_slice(buffer.buf())?;
    Ok(joined)
}

/// This number, modulo 256.
pub fn low_byte(n: usize) -> u8 {
    (n % 256) as u8
}

/// Whether a refused growth has an error of this kind. It is none of the stream inside.
pub fn is_refusal(kind: ErrorKind) -> bool {
    kind == ErrorKind::InvalidInput || kind == ErrorKind::OutOfMemory
}
