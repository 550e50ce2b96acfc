//! Tells a format by the first sixteen bytes of a stream, and hands the whole stream on.
ghost use Rattle.std.specs.Prelude.{◌≡◌, ◌+◌, ◌≤◌, ◌⊎◌, [], IfSome, IfOk, OnOk, is_ok, length, take};
ghost use Rattle.buffer_redux.specs.BufReader.{FillsToMinimum, ReadErrorCaused, ReadsInOrder, RanDry};
ghost use Rattle.buffer_redux.specs.MinBuffered.{min_read_rules};
ghost use Rattle.buffer_redux.specs.Remaining.{reader_remaining};
ghost use Rattle.buffer_redux.specs.Told.{told_stream};
ghost use Rattle.std.specs.Io.KnownBytes.{Keeps};
ghost use Rattle.uses.specs.Sniff.{format_of};

use buffer_redux::BufReader;
use buffer_redux::policy::MinBuffered;
use buffer_redux::tell::{TellRead, Told};
use std::alloc::Global;
use std::io;
use std::io::{BufRead, Read};

/// How many bytes tell a format.
const HEAD: usize = 16;

/// What the first bytes of a stream tell.
#[derive(Clone, Copy, Debug, PartialEq, Eq)]
pub enum Format {
    Png,
    Gzip,
    Zip,
    Other,
}

/// The format of a stream, and the stream with all its bytes, in a reader that waits for sixteen. The stream was asked
/// sixteen times at most.
pub fn open<R: Read + Drop>(
    alloc: Global,
    from: R,
) -> io::Result<(Format, BufReader<Told<R>, MinBuffered>)>
    ensures format { IfOk result (λ p. IfSome (R.remaining from) (λ xs. p.0 ≡ format_of (take 16 xs))) }
    ensures whole { IfOk result (λ p. Keeps (R.remaining from)
        (reader_remaining (λ t. R.remaining (told_stream t)) min_read_rules p.1)) }
    ensures policy { IfOk result (λ p. p.1.policy ≡ record { 0 = 16 }) }
    ensures capacity { IfOk result (λ p. p.1.block.capacity ≡ 8192) }
    ensures asks { IfOk result (λ p. p.1.log.reads.asks ≤ 16) }
{
    let mut reader = BufReader::new(alloc, Told::new(from))?.set_policy(MinBuffered(HEAD));
    let format = sniff(&mut reader)?;
    Ok((format, reader))
}

/// The format that the next bytes tell. They stay in the reader, which asks nobody where its minimum is there, and keeps
/// that.
pub fn sniff<R: TellRead>(reader: &mut BufReader<R, MinBuffered>) -> io::Result<Format>
    requires enough { 16 ≤ reader.old.policy.0 }
    ensures format { IfOk result (λ f. f ≡ format_of (take 16 reader.new.block.bytes)) }
    ensures shown { OnOk result ((16 ≤ length reader.new.block.bytes) ⊎ RanDry reader.old reader.new) }
    ensures ahead { FillsToMinimum reader.old.policy.0 reader.old (is_ok result) reader.new }
    ensures caused { ReadErrorCaused min_read_rules reader.old result reader.new }
    ensures once { reader.new.log.reads.zero_reads ≤ reader.old.log.reads.zero_reads + 1 }
    ensures kept { ReadsInOrder reader.old [] reader.new }
    ensures policy { reader.new.policy ≡ reader.old.policy }
    ensures still { reader.old.policy.0 ≤ length reader.old.block.bytes → reader.new.block ≡ reader.old.block }
    ensures known { IfSome (reader_remaining R.remaining min_read_rules reader.old)
        (λ xs. IfOk result (λ f. f ≡ format_of (take 16 xs))) }
    ensures left { Keeps (reader_remaining R.remaining min_read_rules reader.old)
        (reader_remaining R.remaining min_read_rules reader.new) }
{
    let shown = reader.fill_buf()?;
    Ok(format_by(&shown[..HEAD.min(shown.len())]))
}

// The format that these bytes begin as.
fn format_by(head: &[u8]) -> Format
    ensures { result ≡ format_of head.now }
{
    if head.starts_with(b"\x89PNG\r\n\x1a\n") {
        Format::Png
    } else if head.starts_with(&[0x1f, 0x8b]) {
        Format::Gzip
    } else if head.starts_with(b"PK\x03\x04") {
        Format::Zip
    } else {
        Format::Other
    }
}
