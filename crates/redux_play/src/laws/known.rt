//! What goes over to a stream where std knows what the streams hold.
ghost use Rattle.std.specs.Prelude.{◌≡◌, ℕ, List, ◌++◌, IfErr, OnOk};
ghost use Rattle.std.specs.Io.KnownBytes.{Appends, Consumes};
ghost use Rattle.redux_buffer.specs.Copy.{CopyBuf, CopyRows, ReceivesAll};
ghost use Rattle.redux_buffer.specs.Faults.{SendErrorCaused};
ghost use Rattle.redux_buffer.specs.Told.{told_log, told_stream, ToldWrites};
ghost use Rattle.buffer_redux.specs.BufWriter.{WasFlushed};
ghost use Rattle.buffer_redux.specs.ReaderTells.{reader_log, ReaderWent};
ghost use Rattle.buffer_redux.specs.Remaining.{reader_remaining};

use buffer_redux::policy::{ReaderPolicy, WriterPolicy};
use buffer_redux::{BufReader, BufWriter};
use redux_buffer::copy_buf;
use redux_buffer::tell::{TellRead, TellWrite, Told};
use std::io;
use std::io::Write;

/// Of a reader of which std knows what is left, [`copy_buf`] moves just that to the writer. At `Ok` that was all, unless
/// the writer took nothing of something.
pub fn copy_known<R: TellRead, P: ReaderPolicy, W: TellWrite>(
    from: &mut BufReader<R, P>,
    to: &mut W,
) -> io::Result<u64>
    ensures moved { (bytes : List ℕ) × ((W.log to.new).writes.received ≡ (W.log to.old).writes.received ++ bytes)
        × Consumes (reader_remaining R.remaining P.rules from.old) (reader_remaining R.remaining P.rules from.new) bytes }
    ensures all { OnOk result (ReceivesAll (reader_remaining R.remaining P.rules from.old)
        (W.log to.old).writes (W.log to.new).writes) }
    ensures copied { CopyBuf W.log W.trace W.call result
        (reader_log from.old).fills (reader_log from.new).fills to.old to.new }
    ensures reader { ReaderWent R.remaining P.rules from.old from.new }
    ensures writer { W.trace to.old to.new }
    ensures turns { CopyRows reader_log W.log (ReaderWent R.remaining P.rules) W.trace W.call result
        (record { source = from.old; target = to.old }) (record { source = from.new; target = to.new }) }
{
    copy_buf(from, to)
}

/// After an Ok flush, a stream of std of which std knows what it holds has gained what was buffered.
pub fn flush_known<S: Write, P: WriterPolicy>(writer: &mut BufWriter<Told<S>, P>) -> io::Result<()>
    ensures held { OnOk result (Appends (S.contents (told_stream writer.old.inner))
        (S.contents (told_stream writer.new.inner)) writer.old.block.bytes) }
    ensures caused { IfErr result (λ e.
        SendErrorCaused writer.old.log.writes writer.new.log.writes e) }
    ensures flushed { WasFlushed told_log (ToldWrites S.contents) writer.old result writer.new }
{
    writer.flush()
}
