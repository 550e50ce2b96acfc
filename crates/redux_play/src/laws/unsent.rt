//! What becomes of the bytes that could not be sent when a writer is taken apart.
ghost use Rattle.std.specs.Prelude.{◌≡◌, []};
ghost use Rattle.buffer_redux.specs.Unwrapping.{DropsUnsent, KeepsUnsent};

use buffer_redux::{BufWriter, LineWriter};
use redux_buffer::Buffer;
use redux_buffer::tell::TellWrite;

/// What could not be sent is handed back by a handler that leaves it, so no byte is lost.
pub fn keep_unsent<W: TellWrite, P: Drop>(writer: BufWriter<W, P>) -> (W, Buffer)
    ensures { KeepsUnsent W.log W.trace writer result.0 result.1 }
{
    writer.finish(|_inner, _unsent, _fault| {})
}

/// What could not be sent is dropped by a handler that clears it, so the buffer always comes back empty. Bytes are
/// dropped only where sending failed.
pub fn drop_unsent<W: TellWrite, P: Drop>(writer: BufWriter<W, P>) -> (W, Buffer)
    ensures empty { result.1.bytes ≡ [] }
    ensures dropped { DropsUnsent W.log W.trace writer result.0 result.1 }
{
    writer.finish(|_inner, unsent, _fault| unsent.clear())
}

/// [`keep_unsent`] of a [`LineWriter`].
pub fn keep_unsent_lines<W: TellWrite>(lines: LineWriter<W>) -> (W, Buffer)
    ensures { KeepsUnsent W.log W.trace lines result.0 result.1 }
{
    lines.finish(|_inner, _unsent, _fault| {})
}

/// [`drop_unsent`] of a [`LineWriter`].
pub fn drop_unsent_lines<W: TellWrite>(lines: LineWriter<W>) -> (W, Buffer)
    ensures empty { result.1.bytes ≡ [] }
    ensures dropped { DropsUnsent W.log W.trace lines result.0 result.1 }
{
    lines.finish(|_inner, unsent, _fault| unsent.clear())
}
