//! Calls of all kinds, one after another, each with its answer.
ghost use Rattle.std.specs.Prelude.{◌<◌, List, length, map, IfOk, OnOk, OnErr, Some, option_map, vec_capacity, ℕ};
ghost use Rattle.line_reader.specs.Calls.{Call, call_lines};
ghost use Rattle.line_play.specs.Played.{AsksPlayed, AsksStopped, CallMade, kept_call};
ghost use Rattle.piece_reader.specs.Runs.{NextLost, kept_answer};
ghost use Rattle.line_reader.specs.NextLine.{NextBufferedLine, NextTrimmed};

use buffer_redux::tell::TellRead;
use line_reader::{LineError, LineReader};
use piece_reader::PayloadReader;
use std::alloc::{AllocError, Global};
use std::io;

/// A call of a reader of lines.
#[derive(Clone, Copy, Debug)]
pub enum Ask {
    Next,
    NextTrimmed,
    NextBuffered,
    SkipLine,
}

/// What it answered, with the line copied.
#[derive(Debug, Drop)]
pub enum Played {
    Next(Result<Option<Vec<u8>>, LineError>),
    NextTrimmed(Result<Option<Vec<u8>>, LineError>),
    NextBuffered(Option<Vec<u8>>),
    SkipLine(io::Result<u64>),
}

/// Makes these calls, whatever they return, and adds each with its answer to `played`. What was given, cut at the ends of its
/// lines, is the lines that were handed out and those that were skipped, then what is left (`whole_lines`).
///
/// An `Err` is refused memory. Room in the record is made before a call, where there is none: where that was refused, no further
/// call was begun. Where it was the memory for a line, that was handed out and is lost.
pub fn play_calls<R: TellRead>(
    alloc: Global,
    reader: &mut LineReader<R>,
    asks: &[Ask],
    played: &mut Vec<Played>,
) -> Result<(), AllocError>
    ensures played { OnOk result (AsksPlayed R.remaining reader.old asks.now
        (map kept_call played.old.items) (map kept_call played.new.items) reader.new) }
    ensures stopped { OnErr result (AsksStopped R.remaining reader.old asks.now (vec_capacity played.old)
        (map kept_call played.old.items) (map kept_call played.new.items) reader.new) }
{
    for ask in asks {
        played.reserve(1)?;
        played.push_reserved(play_one(alloc, reader, *ask)?);
    }
    Ok(())
}

// One of them. An `Err` is refused memory: the call was made, and its line is lost.
fn play_one<R: TellRead>(
    alloc: Global,
    reader: &mut LineReader<R>,
    ask: Ask,
) -> Result<Played, AllocError>
    ensures made { IfOk result (λ call. CallMade R.remaining reader.old ask (kept_call call) reader.new) }
    ensures lost { OnErr result ((call : Call) × CallMade R.remaining reader.old ask call reader.new
        × (0 < length (call_lines call))) }
{
    match ask {
        Ask::Next => Ok(Played::Next(reader.next_copied(alloc)?)),
        Ask::NextTrimmed => Ok(Played::NextTrimmed(trimmed_copied(alloc, reader)?)),
        Ask::NextBuffered => Ok(Played::NextBuffered(buffered_copied(alloc, reader)?)),
        Ask::SkipLine => Ok(Played::SkipLine(reader.skip_line())),
    }
}

// One call of `next_buffered`, of which the line is copied.
fn buffered_copied<R: TellRead>(
    alloc: Global,
    reader: &mut LineReader<R>,
) -> Result<Option<Vec<u8>>, AllocError>
    ensures next { IfOk result (λ found. NextBufferedLine R.remaining reader.old (option_map (λ line. line.items) found)
        reader.new) }
    ensures lost { OnErr result ((line : List ℕ) × NextBufferedLine R.remaining reader.old (Some line) reader.new) }
{
    match reader.next_buffered() {
        Some(line) => Ok(Some(Vec::from_slice(alloc, line)?)),
        None => Ok(None),
    }
}

// One call of `next_trimmed`, as `next_copied` makes one of `next`.
fn trimmed_copied<R: TellRead>(
    alloc: Global,
    reader: &mut LineReader<R>,
) -> Result<Result<Option<Vec<u8>>, LineError>, AllocError>
    ensures next { IfOk result (λ answer. NextTrimmed R.remaining reader.old (kept_answer answer) reader.new) }
    ensures lost { OnErr result (NextLost (NextTrimmed R.remaining) reader.old reader.new) }
{
    match reader.next_trimmed() {
        Ok(Some(line)) => Ok(Ok(Some(Vec::from_slice(alloc, line)?))),
        Ok(None) => Ok(Ok(None)),
        Err(e) => Ok(Err(e)),
    }
}
