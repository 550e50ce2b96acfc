//! Lists of calls over a stream that comes in pieces, and that goes wrong at each call in turn.
use redux_script::Answer;
use std::alloc::{AllocError, Global};
use std::io;
use std::io::ErrorKind;

/// What came of a list of calls: how many were made again, since the stream failed in them, and how often the stream was called.
#[derive(Clone, Copy)]
pub struct Came {
    pub failed: usize,
    pub calls: usize,
}

/// A list of calls, each with what it is to answer.
pub trait Run {
    /// Makes the calls over a stream that answers by the script, those again that the stream failed in. Returns nothing where
    /// an answer is another.
    fn run(&self, alloc: Global, script: &[Answer]) -> io::Result<Option<Came>>;
}

/// A fault of the stream.
pub const FAULT: Answer = Answer::Fail(ErrorKind::Other);

// No run calls its stream so often.
const CALLS: usize = 500;

// A script of at most so many bytes a call, with this fault behind the first calls.
fn script(
    alloc: Global,
    most: usize,
    before: usize,
    fault: Answer,
) -> Result<Vec<Answer>, AllocError> {
    let mut script = Vec::from_slice(alloc, &[Answer::ServeEach(most)])?;
    script.resize(before.saturating_add(1), Answer::Serve(most))?;
    script.extend_from_slice(&[fault])?;
    Ok(script)
}

// What comes of a run with this fault behind so many calls.
fn behind<R: Run>(
    alloc: Global,
    run: &R,
    most: usize,
    before: usize,
    fault: Answer,
) -> io::Result<Option<Came>> {
    run.run(alloc, script(alloc, most, before, fault)?.as_slice())
}

// How often a run calls its stream, where a fault at each of these calls is told once and costs one call more.
fn swept<R: Run>(alloc: Global, run: &R, most: usize, fault: Answer) -> io::Result<Option<usize>> {
    let Some(Came { failed: 0, calls }) = behind(alloc, run, most, CALLS, fault)? else {
        return Ok(None);
    };
    for before in 0..calls {
        match behind(alloc, run, most, before, fault)? {
            Some(came) if came.failed == 1 && came.calls == calls.saturating_add(1) => {}
            _ => return Ok(None),
        }
    }
    Ok(Some(calls))
}

/// Each run in pieces of at most so many bytes, with this fault at each call of the stream in turn, and without. Returns how many
/// faults were met, each of which was told once, or else which run went wrong, and by how many bytes.
pub fn sweep<R: Run>(
    alloc: Global,
    runs: &[R],
    pieces: &[usize],
    fault: Answer,
) -> io::Result<Result<usize, (usize, usize)>> {
    let mut met = 0usize;
    for (row, run) in runs.iter().enumerate() {
        for &most in pieces {
            match swept(alloc, run, most, fault)? {
                Some(calls) => met = met.saturating_add(calls),
                None => return Ok(Err((row, most))),
            }
        }
    }
    Ok(Ok(met))
}
