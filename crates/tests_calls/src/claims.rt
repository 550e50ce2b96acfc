//! Callers that rest on what a policy of their own claims.
ghost use Rattle.std.specs.Prelude.{◌≡◌, ◌<◌, ◌≤◌, false, length, IfOk, IsTrue, Ok};
ghost use Rattle.std.specs.List.{All};
ghost use Rattle.buffer_redux.specs.Buffered.{Buffered};
ghost use Rattle.buffer_redux.specs.BufReader.{RanDry};
ghost use Rattle.redux_play.specs.PlayReader.{MakesNoRoom};
ghost use Rattle.buffer_redux.specs.Sparing.{BeginsEmpty, MovedAtMostGiven, Spared};

use buffer_redux::BufReader;
use buffer_redux::tell::TellRead;
use redux_play::laws;
use redux_play::play::{ReaderCall, ReaderRun};
use std::alloc::{AllocError, Global};
use std::io;
use std::io::{BufRead, Read};
use tests_common::claims::{Halves, Header};

/// Whether sixteen bytes are in sight. Where they aren't, the reader has no more.
pub fn sees_header<R: TellRead>(reader: &mut BufReader<R, Header>) -> io::Result<bool>
    ensures seen { IfOk result (λ seen. IsTrue seen → 16 ≤ length reader.new.block.bytes) }
    ensures dry { result ≡ Ok false → RanDry reader.old reader.new }
{
    Ok(reader.fill_buf()?.len() >= 16)
}

/// Plays calls of which none makes room. Where the buffer was once empty and plain, of 48 bytes or more, no more bytes were
/// moved since than the reader gave.
pub fn play_headers<R: TellRead>(
    alloc: Global,
    reader: &mut BufReader<R, Header>,
    calls: &[ReaderCall],
    run: &mut ReaderRun,
) -> Result<(), AllocError>
    ensures moved { (first : Buffered R Header) → BeginsEmpty 16 first → Spared 16 first reader.old
        → All MakesNoRoom calls.now → MovedAtMostGiven first reader.new }
{
    laws::play_sparing(alloc, reader, calls, run)
}

/// Reads into a slice. It is given nothing only where the reader has no more.
pub fn read_some<R: TellRead>(
    reader: &mut BufReader<R, Halves>,
    out: &mut [u8],
) -> io::Result<usize>
    ensures dry { result ≡ Ok 0 → 0 < length out.old → RanDry reader.old reader.new }
{
    reader.read(out)
}
