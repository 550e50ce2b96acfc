//! Runs that spare a plain buffer moves, one after another.
ghost use Rattle.std.specs.Prelude.{◌≡◌, ℕ, ◌-◌, ◌≤◌, ◌⊎◌, is_ok, length, slice_index_or, vec_capacity, OnErr};
ghost use Rattle.std.specs.List.{All};
ghost use Rattle.std.specs.Result.{IsErrAnd};
ghost use Rattle.redux_buffer.specs.Block.{Block, Reserves};
ghost use Rattle.redux_buffer.specs.GrowError.{GrowthFailed};
ghost use Rattle.buffer_redux.specs.Buffered.{Buffered, with_block, with_policy};
ghost use Rattle.buffer_redux.specs.MinBuffered.{min_read_rules};
ghost use Rattle.redux_play.specs.PlayReader.{MakesNoRoom, ReaderPlays, WantsRoom, with_handed};
ghost use Rattle.redux_play.specs.declared.play.ReaderCall.TheVariants.{Read};
ghost use Rattle.buffer_redux.specs.Policy.{ClaimsToSpare};
ghost use Rattle.buffer_redux.specs.Seek.{plan_for, Seeks};
ghost use Rattle.buffer_redux.specs.Sparing.{BeginsEmpty, MovedAtMostGiven, Spared};

use crate::play::{ReaderCall, ReaderRun, play_reader};
use buffer_redux::BufReader;
use buffer_redux::policy::{MinBuffered, ReaderPolicy};
use redux_buffer::tell::{TellRead, TellSeek};
use std::alloc::{AllocError, Global};
use std::io;
use std::io::{Seek, SeekFrom};

/// Plays calls without a `MakeRoom` under a policy that spares a number. What was spared up to here is spared on.
///
/// So a plain buffer that was empty at some time, and then had three times that number as its capacity, has moved since
/// that time no more bytes than the reader was given.
pub fn play_sparing<R: TellRead, P: ReaderPolicy>(
    alloc: Global,
    reader: &mut BufReader<R, P>,
    calls: &[ReaderCall],
    run: &mut ReaderRun,
) -> Result<(), AllocError>
    ensures spared { (keep : ℕ) (first : Buffered R P) → ClaimsToSpare (P.rules.claims reader.old.policy).spares keep
        → All MakesNoRoom calls.now → Spared keep first reader.old → Spared keep first reader.new }
    ensures moved { (keep : ℕ) (first : Buffered R P) → ClaimsToSpare (P.rules.claims reader.old.policy).spares keep
        → All MakesNoRoom calls.now → Spared keep first reader.old → BeginsEmpty keep first
        → MovedAtMostGiven first reader.new }
    ensures claims { P.rules.claims reader.new.policy ≡ P.rules.claims reader.old.policy }
    ensures plays { ReaderPlays R.remaining P.rules
        (with_handed reader.old run.old.handed.items) calls.now run.old.answers.items (is_ok result)
        run.new.answers.items (with_handed reader.new run.new.handed.items) }
    ensures wanted { OnErr result (WantsRoom reader.new
        (slice_index_or calls.now (length run.new.answers.items - length run.old.answers.items) (Read 0))
        (vec_capacity run.old.answers) (vec_capacity run.old.handed) run.new) }
{
    play_reader(alloc, reader, calls, run)
}

/// What may come between two runs: another minimum, a growth of the buffer, and a seek. What was spared up to here is
/// spared on, and so is each number that is at least the new minimum; also where the growth or the seek fails. The new
/// minimum stays then too, and nothing but it is new where the growth was refused.
pub fn spare_between<R: TellSeek>(
    reader: &mut BufReader<R, MinBuffered>,
    min: usize,
    more: usize,
    to: SeekFrom,
) -> io::Result<u64>
    ensures spared { (keep : ℕ) (first : Buffered R MinBuffered) → Spared keep first reader.old
        → Spared keep first reader.new }
    ensures claims { (keep : ℕ) → min ≤ keep
        → ClaimsToSpare (min_read_rules.claims reader.new.policy).spares keep }
    ensures ended { (IsErrAnd result (GrowthFailed more reader.old.block)
        × (reader.new ≡ with_policy reader.old (record { 0 = min })))
        ⊎ ((grown : Block) × Reserves more reader.old.block grown × Seeks R.readies (plan_for to (length grown.bytes))
        (with_block (with_policy reader.old (record { 0 = min })) grown) result reader.new) }
{
    reader.policy_mut().set_min(min);
    reader.reserve(more)?;
    reader.seek(to)
}
