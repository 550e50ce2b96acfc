//! A log that keeps the bytes which its device doesn't take, and sends them later.
ghost use Rattle.std.specs.Prelude.{◌≡◌, ◌<◌, ◌≤◌, ◌⊎◌, ℕ, [], ◌++◌, IfErr, OnErr, OnOk, length, take};
ghost use Rattle.buffer_redux.specs.Buffered.{over_buffer};
ghost use Rattle.buffer_redux.specs.BufWriter.{WriterStopped, WritesInOrder};
ghost use Rattle.buffer_redux.specs.Unwrapping.{KeepsUnsent};
ghost use Rattle.uses.specs.FullLog.{ClosesAgain};

use buffer_redux::tell::TellWrite;
use buffer_redux::{Buffer, LineWriter};
use redux_play::laws::keep_unsent_lines;
use std::io;
use std::io::{ErrorKind, Write};

/// Writes to the log, and returns how many bytes it took: all, unless there was a fault. The device isn't flushed.
pub fn put<W: TellWrite>(log: &mut LineWriter<W>, text: &[u8]) -> (usize, io::Result<()>)
    ensures taken { WritesInOrder log.old (take result.0 text.now) log.new }
    ensures all { OnOk result.1 (result.0 ≡ length text.now) }
    ensures within { result.0 ≤ length text.now }
    ensures some { OnErr result.1 (result.0 < length text.now) }
    ensures caused { IfErr result.1 (WriterStopped log.old.log.writes log.new.log.writes) }
    ensures flushes { log.new.log.writes.flushes ≡ log.old.log.writes.flushes }
{
    let mut at = 0;
    while at < text.len() {
        match log.write(&text[at..]) {
            Ok(0) => return (at, Err(io::Error::from(ErrorKind::WriteZero))),
            Ok(n) => at += n,
            Err(e) => return (at, Err(e)),
        }
    }
    (at, Ok(()))
}

/// Sends what the log holds. What the device doesn't take comes back beside it.
pub fn close<W: TellWrite>(log: LineWriter<W>) -> (W, Buffer)
    ensures { KeepsUnsent W.log W.trace log result.0 result.1 }
{
    keep_unsent_lines(log)
}

/// The same log again, over a device that may take bytes by now.
pub fn reopen<W: TellWrite>(device: W, unsent: Buffer) -> LineWriter<W>
    ensures { result ≡ over_buffer W.log (record {}) unsent device }
{
    LineWriter::with_buffer(unsent, device)
}

/// Closes the log, and tries so many times again to send what is left, as long as something is.
pub fn close_patiently<W: TellWrite>(log: LineWriter<W>, tries: u32) -> (W, Buffer)
    ensures often { (again : ℕ) × (again ≤ tries) × ((result.1.bytes ≡ []) ⊎ (again ≡ tries))
        × ClosesAgain W.log W.trace again log result.0 result.1 }
    ensures none_lost { (W.log result.0).writes.received ++ result.1.bytes ≡ log.log.writes.received ++ log.block.bytes }
{
    let (mut device, mut unsent) = close(log);
    for _ in 0..tries {
        if unsent.is_empty() {
            break;
        }
        (device, unsent) = close(reopen(device, unsent));
    }
    (device, unsent)
}
