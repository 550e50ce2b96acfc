//! Copies a reader to a writer, and tells after each write how many bytes went over so far.
ghost use Rattle.std.specs.Prelude.{◌≡◌, ◌+◌, ◌≤◌, ◌⊎◌, ℕ, OnOk, IfOk, IfErr, MatchResult};
ghost use Rattle.std.specs.Io.Iter.{u64_saturate};
ghost use Rattle.buffer_redux.specs.Copy.{FillsMade, MovedBy, CopyEnded, StreamFailed, faults_met};
ghost use Rattle.uses.specs.Progress.{Tells, TooManyTurns};

use buffer_redux::copy_turn;
use buffer_redux::tell::{TellBufRead, TellWrite};
use std::io;
use std::io::ErrorKind;

/// Copies as [`copy_buf`](buffer_redux::copy_buf) does, and returns how many bytes went over. After each write that took
/// something `report` is called with the number so far. A fault is returned at once, and no byte is lost by it.
pub fn copy_with_progress<B: TellBufRead, W: TellWrite, F: FnMut(u64) + Drop>(
    from: &mut B,
    to: &mut W,
    mut report: F,
) -> io::Result<u64>
    requires callable { (state : F) (n : _) → F.pre state n }
    ensures moved { (n : ℕ)
        × MovedBy n (B.log from.old).fills (B.log from.new).fills (W.log to.old).writes (W.log to.new).writes
        × Tells (λ p n q. F.step p n tt q) report (B.log from.old).fills.consumes (B.log from.new).fills.consumes n
        × IfOk result (λ total. total ≡ u64_saturate n) }
    ensures ended { OnOk result (CopyEnded W.log W.trace W.call
        (B.log from.old).fills (B.log from.new).fills to.old to.new) }
    ensures caused { IfErr result (λ e.
        StreamFailed W.log W.trace W.call e (B.log from.old).fills (B.log from.new).fills to.old to.new
        ⊎ TooManyTurns e (B.log from.old).fills (B.log from.new).fills) }
    ensures at_once { MatchResult result
        (λ _. faults_met (B.log from.new).fills (W.log to.new).writes
        ≡ faults_met (B.log from.old).fills (W.log to.old).writes)
        (λ _. faults_met (B.log from.new).fills (W.log to.new).writes
        ≤ faults_met (B.log from.old).fills (W.log to.old).writes + 1) }
    ensures once { MatchResult result
        (λ _. FillsMade 1 (B.log from.old).fills (B.log from.new).fills (W.log to.old).writes (W.log to.new).writes)
        (λ _. FillsMade 0 (B.log from.old).fills (B.log from.new).fills (W.log to.old).writes (W.log to.new).writes) }
    ensures reader { B.trace from.old from.new }
    ensures writer { W.trace to.old to.new }
{
    let mut total = 0u64;
    for _ in 0..u64::MAX {
        let taken = copy_turn(from, to)?;
        if taken == 0 {
            return Ok(total);
        }
        total = total.saturating_add(taken as u64);
        report(total);
    }
    Err(io::Error::from(ErrorKind::Other))
}
