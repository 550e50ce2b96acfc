//! Payloads that are known are read.
ghost use Rattle.std.specs.Prelude.{◌≡◌, ℕ, ◌⊎◌, List, Ok, Err, map, IfOk, IfErr, OnOk};
ghost use Rattle.std.specs.IoError.{error_kind};
ghost use Rattle.std.specs.declared.io.ErrorKind.TheVariants.{OutOfMemory};
ghost use Rattle.piece_reader.specs.KnownPayloads.{AllRead, ReadStopped};
ghost use Rattle.piece_reader.specs.Runs.{NextLost, kept_answer};

use piece_reader::KnownReader;
use std::alloc::Global;
use std::io;

/// Reads payloads of which it is known that they are left, and no others. An `Err` is refused memory for the payload that was
/// handed out last, or the fault of the inner reader; what is left then is the last of them.
pub fn read_each<P: KnownReader>(
    alloc: Global,
    reader: &mut P,
    payloads: &[Vec<u8>],
) -> io::Result<Vec<Vec<u8>>>
    requires left { P.has_left reader.old (map (λ v. v.items) payloads.now) }
    ensures same { IfOk result (λ kept. map (λ v. v.items) kept.items ≡ map (λ v. v.items) payloads.now) }
    ensures read { OnOk result (AllRead P.plays reader.old (map (λ v. v.items) payloads.now) reader.new) }
    ensures stopped { IfErr result (λ e. ReadStopped P.has_left P.faults P.stream_error P.plays reader.old
        (map (λ v. v.items) payloads.now) e reader.new) }
{
    let mut kept = Vec::new(alloc);
    for _ in payloads {
        match next_of_known(alloc, reader)? {
            Some(payload) => kept.push(payload)?,
            None => unreachable!(),
        }
    }
    match next_of_known(alloc, reader)? {
        Some(_) => unreachable!(),
        None => Ok(kept),
    }
}

// One call, where it is known what is left: no other `Err` than the stream's comes then.
fn next_of_known<P: KnownReader>(alloc: Global, reader: &mut P) -> io::Result<Option<Vec<u8>>>
    requires left { (payloads : List (List ℕ)) × P.has_left reader.old payloads }
    ensures next { IfOk result (λ found. P.goes reader.old (kept_answer (Ok found)) reader.new) }
    ensures failed { IfErr result (λ e. ((error_kind e ≡ OutOfMemory) × NextLost P.goes reader.old reader.new)
        ⊎ P.goes reader.old (Err (P.stream_error e)) reader.new) }
{
    match reader.next_copied(alloc)? {
        Ok(found) => Ok(found),
        Err(e) => Err(P::into_io(e)),
    }
}
