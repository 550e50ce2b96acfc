//! Counts lines by `read_until`.
ghost use Rattle.std.specs.Prelude.{◌<◌, ℕ, List, IfErr, IfOk, OnOk};
ghost use Rattle.buffer_redux.specs.BufReader.{ReadsToEnd};
ghost use Rattle.buffer_redux.specs.ReaderLaws.{WantsBytes};
ghost use Rattle.uses.specs.Tally.{ReadsLines, StopsInLines};

use buffer_redux::BufReader;
use buffer_redux::policy::ReaderPolicy;
use buffer_redux::tell::TellRead;
use std::alloc::Global;
use std::io;
use std::io::ErrorKind;

/// How many lines `reader` still has, of which the last may lack its line feed. It reads to the end.
///
/// After an `Err` whole lines are gone, and what the `read_until` that failed had of the next.
pub fn count_pieces<R: TellRead, P: ReaderPolicy>(
    alloc: Global,
    reader: &mut BufReader<R, P>,
) -> io::Result<u64>
    requires capacity { 0 < reader.old.block.capacity }
    requires wants { WantsBytes (P.rules.claims reader.old.policy) }
    ensures end { OnOk result ((bytes : List ℕ) × ReadsToEnd R.remaining P.rules reader.old bytes reader.new) }
    ensures pieces { IfOk result (λ n. ReadsLines R.remaining P.rules n reader.old reader.new) }
    ensures stopped { IfErr result (λ e. StopsInLines R.remaining P.rules e reader.old reader.new) }
{
    let mut line = Vec::new(alloc);
    for count in 0..u64::MAX {
        line.clear();
        if reader.read_until(b'\n', &mut line)? == 0 {
            return Ok(count);
        }
    }
    Err(io::Error::from(ErrorKind::Other))
}
