//! Counts the line feeds that a stream has.
ghost use Rattle.std.specs.Prelude.{◌≡◌, ◌+◌, ◌<◌, ℕ, List, true, IfOk, IfErr, OnErr, MatchResult, IfSome};
ghost use Rattle.buffer_redux.specs.BufReader.{ReadsAlong};
ghost use Rattle.buffer_redux.specs.EmptyReads.{ReadsWhenEmpty};
ghost use Rattle.buffer_redux.specs.ReaderLaws.{WantsBytes};
ghost use Rattle.buffer_redux.specs.Remaining.{reader_remaining};
ghost use Rattle.uses.specs.LineCount.{CountsLines, StopsAtOnce, line_feeds};

use buffer_redux::BufReader;
use buffer_redux::policy::ReaderPolicy;
use buffer_redux::tell::TellRead;
use std::io;
use std::io::{BufRead, ErrorKind};

/// How many line feeds `reader` still has, in its buffer and behind it. It reads to the end, and asks nothing behind that.
pub fn count_lines<R: TellRead, P: ReaderPolicy>(reader: &mut BufReader<R, P>) -> io::Result<u64>
    requires capacity { 0 < reader.old.block.capacity }
    requires wants { WantsBytes (P.rules.claims reader.old.policy) }
    ensures lines { IfOk result (λ n. CountsLines R.remaining P.rules n reader.old reader.new) }
    ensures caused { (P.rules.claims reader.old.policy).steady ≡ true
        → IfErr result (λ e. StopsAtOnce e reader.old reader.new) }
    ensures once { ReadsWhenEmpty P.rules → MatchResult result
        (λ _. reader.new.log.reads.zero_reads ≡ reader.old.log.reads.zero_reads + 1)
        (λ _. reader.new.log.reads.zero_reads ≡ reader.old.log.reads.zero_reads) }
    ensures part { OnErr result ((bytes : List ℕ) × ReadsAlong R.remaining P.rules reader.old bytes reader.new) }
    ensures known { IfOk result (λ n. IfSome (reader_remaining R.remaining P.rules reader.old)
        (λ bytes. n ≡ line_feeds bytes)) }
{
    let mut lines = 0u64;
    for _ in 0..u64::MAX {
        let shown = reader.fill_buf()?;
        let len = shown.len();
        if len == 0 {
            return Ok(lines);
        }
        let found = count_line_feeds(shown);
        match lines.checked_add(found as u64) {
            Some(sum) => lines = sum,
            None => break,
        }
        reader.consume(len);
    }
    Err(io::Error::from(ErrorKind::Other))
}

// How many of these bytes are line feeds.
fn count_line_feeds(bytes: &[u8]) -> usize
    ensures { result ≡ line_feeds bytes.now }
{
    bytes.iter().filter(|byte| **byte == b'\n').count()
}
