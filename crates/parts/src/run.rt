//! A run as words ask for it, over any two streams that tell.
ghost use Rattle.std.specs.Prelude.{◌≡◌, ◌↔◌, [], IfSome, IsTrue, None, codes, map, string_bytes};
ghost use Rattle.std.specs.Option.{option_copied};
ghost use Rattle.multipart.specs.Multipart.{IsBoundary};
ghost use Rattle.parts.specs.Asked.{Asks, DidSo, FlushedUnless, NoneAsked, RunAnswers, RunDid, WasEnded};

use crate::ending::{InputFault, outcome_of};
use crate::error::RunError;
use crate::get::get;
use crate::list::list;
use buffer_redux::tell::{TellRead, TellWrite};
use buffer_redux::{BufReader, BufWriter};
use multipart::{Limits, Multipart, Stand};
use programs::{Ending, Outcome, Report, buffered};
use std::alloc::Global;
use std::io::Write;

// How many bytes the buffers have.
const CAPACITY: usize = 16384;

// How much of a body may be no text.
const LIMITS: Limits = Limits {
    head: 16384,
    parts: 1_000_000,
};

/// Does what these words ask for, which stand behind the program's name. Where they ask for nothing that it knows, neither stream
/// is called. Both streams come back.
pub fn run_asked<R: TellRead, W: TellWrite>(
    alloc: Global,
    words: &[String],
    reader: R,
    writer: W,
) -> (Outcome<InputFault>, R, W)
    ensures { RunDid R.remaining W.log W.trace (map string_bytes words.now) result.0 (R.log reader) (R.log result.1)
        (W.log writer) (W.log result.2) }
{
    let Some((boundary, name)) = asked(words) else {
        return (Outcome::Usual(Ending::Usage), reader, writer);
    };
    let (source, target) = match buffered(alloc, false, (CAPACITY, CAPACITY), reader, writer) {
        Ok(buffers) => buffers,
        Err((_, reader, writer)) => return (Outcome::Usual(Ending::Memory), reader, writer),
    };
    match Multipart::new(alloc, source, boundary, LIMITS) {
        Ok(parts) => run(parts, name, target),
        Err((source, _)) => {
            let (writer, _) = target.into_inner_with_buffer();
            (Outcome::Usual(Ending::Memory), source.into_inner(), writer)
        }
    }
}

/// What the program says of an outcome.
pub fn said(outcome: Outcome<InputFault>) -> Report<'static, InputFault>
    ensures program { result.program.now ≡ codes "parts" }
    ensures usage { result.usage.now ≡ codes "list BOUNDARY|get BOUNDARY NAME" }
    ensures outcome { result.outcome ≡ outcome }
{
    Report {
        program: "parts",
        usage: "list BOUNDARY|get BOUNDARY NAME",
        outcome,
    }
}

// What words ask for: the boundary, and the name of the part that is wanted, or none where parts are to be listed.
fn asked(words: &[String]) -> Option<(&[u8], Option<&[u8]>)>
    ensures boundary { IfSome result (λ a. IsBoundary a.0.now) }
    ensures some { IfSome result (λ a. Asks (map string_bytes words.now) a.0.now (option_copied a.1)) }
    ensures none { result ≡ None → NoneAsked (map string_bytes words.now) }
{
    match words {
        [what, boundary] if what.as_str() == "list" && is_boundary(boundary) => {
            Some((boundary.as_bytes(), None))
        }
        [what, boundary, name] if what.as_str() == "get" && is_boundary(boundary) => {
            Some((boundary.as_bytes(), Some(name.as_bytes())))
        }
        _ => None,
    }
}

// Whether a word is a boundary.
fn is_boundary(word: &str) -> bool
    ensures { IsTrue result ↔ IsBoundary word.now }
{
    multipart::is_boundary(word.as_bytes())
}

// Lists these parts, or writes the text of the first of this name. Both streams come back.
fn run<R: TellRead, W: TellWrite>(
    parts: Multipart<R>,
    name: Option<&[u8]>,
    target: BufWriter<W>,
) -> (Outcome<InputFault>, R, W)
    requires stands { parts.stand ≡ Stand.Preamble }
    requires none { parts.parts ≡ 0 }
    requires begins { parts.body.taken ≡ [] }
    requires unread { parts.body.reader.block.bytes ≡ [] }
    requires unwritten { target.block.bytes ≡ [] }
    ensures { DidSo R.remaining W.log W.trace (option_copied name.entry) parts target result.0 (R.log result.1) (W.log result.2) }
{
    let (mut parts, mut target) = (parts, target);
    let answer = list_or_get(&mut parts, name, &mut target);
    ended(answer, parts, target)
}

fn list_or_get<R: TellRead, W: TellWrite>(
    parts: &mut Multipart<R>,
    name: Option<&[u8]>,
    target: &mut BufWriter<W>,
) -> Result<(), RunError>
    requires stands { parts.old.stand ≡ Stand.Preamble }
    requires none { parts.old.parts ≡ 0 }
    requires begins { parts.old.body.taken ≡ [] }
    ensures { RunAnswers R.remaining W.log W.trace (option_copied name.entry) parts.old target.old result parts.new target.new }
{
    match name {
        None => list(parts, target),
        Some(name) => get(parts, name, target),
    }
}

// Flushes what was written, and says how the run ends.
fn ended<R: TellRead, W: TellWrite>(
    answer: Result<(), RunError>,
    parts: Multipart<R>,
    target: BufWriter<W>,
) -> (Outcome<InputFault>, R, W)
    ensures over { WasEnded W.log W.trace answer target result.0 (W.log result.2) }
    ensures read { R.log result.1 ≡ parts.body.reader.log }
{
    let mut target = target;
    let answer = flushed(answer, &mut target);
    let (writer, _) = target.into_inner_with_buffer();
    (
        outcome_of(&answer),
        parts.into_inner_torn().into_inner(),
        writer,
    )
}

// Flushes what was written, unless a write failed.
fn flushed<W: TellWrite>(
    answer: Result<(), RunError>,
    target: &mut BufWriter<W>,
) -> Result<(), RunError>
    ensures { FlushedUnless W.log W.trace answer target.old result target.new }
{
    match answer {
        Err(RunError::Write(e)) => Err(RunError::Write(e)),
        answer => {
            target.flush()?;
            answer
        }
    }
}
