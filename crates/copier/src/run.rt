//! The copy itself, over any two streams that tell.
ghost use Rattle.std.specs.Prelude.{◌≡◌, ◌≢◌, ◌≤◌, ◌⊎◌, ℕ, Bool, Result, codes, map, string_bytes, IfOk, IfErr, IsErrAnd, MatchResult};
ghost use Rattle.std.specs.declared.io.Error.{Error};
ghost use Rattle.buffer_redux.specs.Block.{IsBlock};
ghost use Rattle.programs.specs.Ending.{EndsAs};
ghost use Rattle.programs.specs.Streams.{EndsOnce, IsEmptyBuffer, OffersBuffer, RefusedBeforeCalls, capacity_asked};
ghost use Rattle.copier.specs.Settings.{AskFor};
ghost use Rattle.copier.specs.Copy.{CopiesAll, Copied, HoldsBackAtMost, IsBeginning, RunStopped, RunsThrough, most_held};

use crate::settings::settings;
use buffer_redux::tell::{TellRead, TellWrite};
use buffer_redux::{BufReader, BufWriter, copy_buf};
use programs::{Ending, GREATEST_CAPACITY, Outcome, Report, buffered};
use std::alloc::Global;
use std::convert::Infallible;
use std::io;
use std::io::{ErrorKind, Write};

/// Copies from `reader` to `writer` until the reader ends, through buffers of `cap` bytes, and returns how many bytes went
/// over. Both streams come back, also after a fault; nothing more is sent then. Once the reader has given nothing it isn't
/// called again.
///
/// Where it is asked, no more of what it gave waits than the writer's buffer holds, and none where that holds one byte.
pub fn run<R: TellRead, W: TellWrite>(
    alloc: Global,
    ring: bool,
    cap: usize,
    reader: R,
    writer: W,
) -> (io::Result<u64>, R, W)
    requires some { 1 ≤ cap }
    requires most { cap ≤ GREATEST_CAPACITY }
    ensures a_beginning { IsBeginning (R.log reader) (R.log result.1) (W.log writer) (W.log result.2) }
    ensures copied { IfOk result.0 (λ total.
        Copied total (R.log reader) (R.log result.1) (W.log writer) (W.log result.2)) }
    ensures stopped { IfErr result.0 (λ e.
        RunStopped e (R.log reader) (R.log result.1) (W.log writer) (W.log result.2)) }
    ensures once { EndsOnce (R.log reader).reads (R.log result.1).reads }
    ensures through { RunsThrough R.log W.log R.remaining W.trace ring cap result.0 reader result.1 writer result.2
        ⊎ IsErrAnd result.0 (λ e. RefusedBeforeCalls e (R.log reader) (R.log result.1) (W.log writer) (W.log result.2)) }
    ensures offers { OffersBuffer ring cap (R.log reader) (R.log result.1) }
    ensures sends { HoldsBackAtMost (most_held (capacity_asked ring cap)) (R.log reader) (R.log result.1)
        (W.log writer) (W.log result.2) }
{
    let (mut source, mut target) = match buffered(alloc, ring, (cap, cap), reader, writer) {
        Ok(buffers) => buffers,
        Err((e, reader, writer)) => return (Err(e), reader, writer),
    };
    let answer = copy_all(&mut source, &mut target);
    let (reader, _) = source.into_inner_with_buffer();
    let (writer, _) = target.into_inner_with_buffer();
    (answer, reader, writer)
}

// Copies all, and flushes.
fn copy_all<R: TellRead, W: TellWrite>(
    source: &mut BufReader<R>,
    target: &mut BufWriter<W>,
) -> io::Result<u64>
    requires source { IsEmptyBuffer 1 source.old.block }
    requires target { IsEmptyBuffer 1 target.old.block }
    requires whole { IsBlock source.old.block }
    ensures a_beginning { IsBeginning source.old.log source.new.log target.old.log target.new.log }
    ensures copied { IfOk result (λ total. Copied total source.old.log source.new.log target.old.log target.new.log) }
    ensures stopped { IfErr result (λ e. RunStopped e source.old.log source.new.log target.old.log target.new.log) }
    ensures once { EndsOnce source.old.log.reads source.new.log.reads }
    ensures all { CopiesAll R.remaining W.log W.trace result source.old source.new target.old target.new }
    ensures offers { (source.new.log.reads ≡ source.old.log.reads)
        ⊎ (source.new.log.reads.offer ≡ source.old.block.capacity) }
    ensures sends { HoldsBackAtMost (most_held target.old.block.capacity) source.old.log source.new.log
        target.old.log target.new.log }
{
    let total = copy_buf(source, target)?;
    if source.buf_len() > 0 {
        return Err(io::Error::from(ErrorKind::WriteZero));
    }
    target.flush()?;
    Ok(total)
}

/// Copies as these words ask for, which stand behind the program's name. Where they ask for nothing that it knows, neither
/// stream is called.
pub fn run_asked<R: TellRead, W: TellWrite>(
    alloc: Global,
    words: &[String],
    reader: R,
    writer: W,
) -> (Ending, R, W)
    ensures usage { ((result.0 ≡ Ending.Usage) × (R.log result.1 ≡ R.log reader) × (W.log result.2 ≡ W.log writer)
        × ¬ ((ring : Bool) × (cap : ℕ) × AskFor (map string_bytes words.now) ring cap))
        ⊎ ((result.0 ≢ Ending.Usage) × (ring : Bool) × (cap : ℕ) × AskFor (map string_bytes words.now) ring cap) }
    ensures a_beginning { IsBeginning (R.log reader) (R.log result.1) (W.log writer) (W.log result.2) }
    ensures once { EndsOnce (R.log reader).reads (R.log result.1).reads }
    ensures ran { (ring : Bool) (cap : ℕ) → AskFor (map string_bytes words.now) ring cap
        → (answer : Result ℕ Error) × EndsAs answer result.0
        × MatchResult answer (λ total. Copied total (R.log reader) (R.log result.1) (W.log writer) (W.log result.2))
        (λ e. RunStopped e (R.log reader) (R.log result.1) (W.log writer) (W.log result.2))
        × (RunsThrough R.log W.log R.remaining W.trace ring cap answer reader result.1 writer result.2
        ⊎ IsErrAnd answer (λ e. RefusedBeforeCalls e (R.log reader) (R.log result.1) (W.log writer) (W.log result.2))) }
    ensures offers { (ring : Bool) (cap : ℕ) → AskFor (map string_bytes words.now) ring cap
        → OffersBuffer ring cap (R.log reader) (R.log result.1) }
    ensures sends { (ring : Bool) (cap : ℕ) → AskFor (map string_bytes words.now) ring cap
        → HoldsBackAtMost (most_held (capacity_asked ring cap)) (R.log reader) (R.log result.1) (W.log writer) (W.log result.2) }
{
    let Some((ring, cap)) = settings(words) else {
        return (Ending::Usage, reader, writer);
    };
    let (answer, reader, writer) = run(alloc, ring, cap, reader, writer);
    (Ending::of(&answer), reader, writer)
}

/// What the program says of an ending.
pub fn said(ending: Ending) -> Report<'static, Infallible>
    ensures program { result.program.now ≡ codes "bufcopy" }
    ensures usage { result.usage.now ≡ codes "[std|ring] [CAPACITY]" }
    ensures outcome { result.outcome ≡ Outcome.Usual ending }
{
    Report {
        program: "bufcopy",
        usage: "[std|ring] [CAPACITY]",
        outcome: Outcome::Usual(ending),
    }
}
