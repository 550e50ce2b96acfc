//! Reads a stream to its end over faults that pass, without losing a byte.
ghost use Rattle.std.specs.Prelude.{◌≡◌, ◌+◌, ◌-◌, ◌<◌, ◌≤◌, ◌↔◌, true, IsTrue, Ok, IfOk, IfErr, OnOk, MatchResult};
ghost use Rattle.std.specs.Prelude.{vec_items, vec_len, vec_capacity};
ghost use Rattle.buffer_redux.specs.BufReader.{RanDry};
ghost use Rattle.buffer_redux.specs.EmptyReads.{ReadsWhenEmpty};
ghost use Rattle.buffer_redux.specs.ReaderLaws.{WantsBytes};
ghost use Rattle.uses.specs.Survive.{Endures, Gains, MayGoOn, TurnFailed, TurnMoved};

use buffer_redux::BufReader;
use buffer_redux::policy::ReaderPolicy;
use buffer_redux::tell::TellRead;
use std::io;
use std::io::{BufRead, ErrorKind};

/// Appends what `reader` still has to `into`, up to its end, a fault that doesn't pass, or more than `faults` that do. It asks
/// nothing behind the end. After any fault the same call goes on where this one stopped.
pub fn read_patiently<R: TellRead, P: ReaderPolicy>(
    reader: &mut BufReader<R, P>,
    into: &mut Vec<u8>,
    faults: u32,
) -> io::Result<()>
    requires capacity { 0 < reader.old.block.capacity }
    requires wants { WantsBytes (P.rules.claims reader.old.policy) }
    ensures gained { Gains R.remaining P.rules reader.old (vec_items into.old) reader.new (vec_items into.new) }
    ensures end { OnOk result (RanDry reader.old reader.new) }
    ensures once { ReadsWhenEmpty P.rules → MatchResult result
        (λ _. reader.new.log.reads.zero_reads ≡ reader.old.log.reads.zero_reads + 1)
        (λ _. reader.new.log.reads.zero_reads ≡ reader.old.log.reads.zero_reads) }
    ensures endures { (P.rules.claims reader.old.policy).steady ≡ true
        → Endures faults result (vec_capacity into.old - vec_len into.new) reader.old reader.new }
{
    let mut left = faults;
    for _ in 0..u64::MAX {
        match read_turn(reader, into) {
            Ok(0) => return Ok(()),
            Ok(_) => {}
            Err(e) => {
                if left == 0 || !passes(&e) {
                    return Err(e);
                }
                left -= 1;
            }
        }
    }
    Err(io::Error::from(ErrorKind::Other))
}

// Whether a fault is one after which reading may go on.
fn passes(e: &io::Error) -> bool
    ensures { IsTrue result ↔ MayGoOn e.now }
{
    matches!(
        e.kind(),
        ErrorKind::Interrupted | ErrorKind::WouldBlock | ErrorKind::TimedOut
    )
}

// All that one fill shows. 0 only where the reader gave nothing.
fn read_turn<R: TellRead, P: ReaderPolicy>(
    reader: &mut BufReader<R, P>,
    into: &mut Vec<u8>,
) -> io::Result<usize>
    requires capacity { 0 < reader.old.block.capacity }
    requires wants { WantsBytes (P.rules.claims reader.old.policy) }
    ensures gained { Gains R.remaining P.rules reader.old (vec_items into.old) reader.new (vec_items into.new) }
    ensures dry { result ≡ Ok 0 → RanDry reader.old reader.new }
    ensures moved { IfOk result (λ n. TurnMoved n reader.old reader.new) }
    ensures caused { (P.rules.claims reader.old.policy).steady ≡ true
        → IfErr result (λ e. TurnFailed e (vec_capacity into.old - vec_len into.new) reader.old reader.new) }
    ensures capacity { vec_capacity into.old ≤ vec_capacity into.new }
    ensures once { ReadsWhenEmpty P.rules → MatchResult result
        (λ n. (n ≡ 0 → reader.new.log.reads.zero_reads ≡ reader.old.log.reads.zero_reads + 1)
        × (0 < n → reader.new.log.reads.zero_reads ≡ reader.old.log.reads.zero_reads))
        (λ _. reader.new.log.reads.zero_reads ≡ reader.old.log.reads.zero_reads) }
{
    let shown = reader.fill_buf()?;
    let len = shown.len();
    into.extend_from_slice(shown)?;
    reader.consume(len);
    Ok(len)
}
