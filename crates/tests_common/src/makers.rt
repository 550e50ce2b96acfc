//! Streams that answer by a script, and readers and writers over any stream. They promise nothing, as the calls of std don't.
use crate::holding;
use buffer_redux::policy::{ReaderPolicy, WriterPolicy};
use buffer_redux::tell::{Tell, TellWrite, Told};
use buffer_redux::{BufReader, BufWriter, GrowError, LineWriter};
use redux_script::{Answer, ScriptReader, ScriptWriter};
use std::alloc::{AllocError, Global};

/// A stream that gives these bytes, and answers by this script.
pub type Source = Told<ScriptReader>;

/// A stream that takes bytes, and answers by a script.
pub type Target = Told<ScriptWriter>;

/// A source of these bytes.
pub fn source(alloc: Global, bytes: &[u8], script: &[Answer]) -> Result<Source, AllocError> {
    Ok(Told::new(ScriptReader::new(alloc, bytes, script)?))
}

/// A target that has nothing yet.
pub fn target(alloc: Global, script: &[Answer]) -> Result<Target, AllocError> {
    Ok(Told::new(ScriptWriter::new(alloc, script)?))
}

/// A reader over a plain buffer of this capacity that holds the first of these bytes, as many as fit.
pub fn reader<R: Tell + Drop>(
    alloc: Global,
    capacity: usize,
    held: &[u8],
    inner: R,
) -> Result<BufReader<R>, GrowError> {
    Ok(BufReader::with_buffer(holding(alloc, capacity, held)?, inner))
}

/// A writer over such a buffer.
pub fn writer<W: TellWrite + Drop>(
    alloc: Global,
    capacity: usize,
    held: &[u8],
    inner: W,
) -> Result<BufWriter<W>, GrowError> {
    Ok(BufWriter::with_buffer(holding(alloc, capacity, held)?, inner))
}

/// A writer of lines over such a buffer.
pub fn line_writer<W: TellWrite + Drop>(
    alloc: Global,
    capacity: usize,
    held: &[u8],
    inner: W,
) -> Result<LineWriter<W>, GrowError> {
    Ok(LineWriter::with_buffer(holding(alloc, capacity, held)?, inner))
}

/// This reader under another policy.
pub fn reader_under<R: Tell, P: Drop, Q: ReaderPolicy>(
    reader: BufReader<R, P>,
    policy: Q,
) -> BufReader<R, Q> {
    reader.set_policy(policy)
}

/// This writer under another policy.
pub fn writer_under<W: TellWrite, P: Drop, Q: WriterPolicy>(
    writer: BufWriter<W, P>,
    policy: Q,
) -> BufWriter<W, Q> {
    writer.set_policy(policy)
}
