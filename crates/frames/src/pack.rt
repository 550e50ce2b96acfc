//! Lines made frames, over any two streams that tell.
ghost use Rattle.std.specs.Prelude.{◌≡◌, ◌+◌, ◌*◌, [], false};
ghost use Rattle.codec.specs.PieceReader.{room_for};
ghost use Rattle.codec.specs.PieceWriter.{unsent};
ghost use Rattle.line_reader.specs.LineReader.{IsLineReader};
ghost use Rattle.frames.specs.Pack.{Packs};

use crate::fault::InputFault;
use crate::packing::Packing;
use buffer_redux::MakeError;
use buffer_redux::tell::{TellRead, TellWrite};
use forward::{Link, forward};
use frame_reader::FrameWriter;
use line_reader::LineReader;
use programs::RunError;
use std::alloc::Global;

/// Makes each line that `reader` gives a frame, and sends the frames to `writer`. What stands behind the last line's end is
/// a line too. A line of more than `most` bytes ends the run; the frames of the lines before it are sent then.
///
/// Nothing is held back: where the reader is asked, the frames of all whole lines that it gave were sent and flushed.
/// The writer is flushed once for each ask at most, and once more. Both streams come back, also after a fault. Once the reader
/// has given nothing it isn't called again.
pub fn pack<R: TellRead, W: TellWrite>(
    alloc: Global,
    most: u16,
    reader: R,
    writer: W,
) -> (Result<(), RunError<InputFault>>, R, W)
    ensures { Packs most (R.log reader) (R.log result.1) (W.log writer) (W.log result.2) result.0 }
{
    let source = match LineReader::new(alloc, reader, usize::from(most)) {
        Ok(source) => source,
        Err(MakeError(reader, e)) => return (Err(RunError::Io(e.into())), reader, writer),
    };
    // The buffer takes in the frames of all that one read gives, also where each line has one byte with its end.
    let room = 6 * (usize::from(most) + 2);
    let target = match FrameWriter::with_capacity(alloc, room, writer, most) {
        Ok(target) => target,
        Err(MakeError(writer, e)) => {
            return (Err(RunError::Io(e.into())), source.into_inner(), writer);
        }
    };
    let (answer, source, target) = pack_all(source, target);
    let (writer, _) = target.into_inner_with_buffer();
    (answer, source.into_inner(), writer)
}

// Makes all lines frames, and flushes them, also those before one that is too long. Both streams come back, and no buffer grew.
fn pack_all<R: TellRead, W: TellWrite>(
    source: LineReader<R>,
    target: FrameWriter<W>,
) -> (
    Result<(), RunError<InputFault>>,
    LineReader<R>,
    FrameWriter<W>,
)
    requires most { source.pieces.decoder.max ≡ target.encoder.max }
    requires whole { IsLineReader source }
    requires going { source.pieces.ended ≡ false }
    requires open { source.skipping ≡ false }
    requires nothing { source.pieces.reader.block.bytes ≡ [] }
    requires empty { unsent target ≡ [] }
    requires read { source.pieces.reader.block.capacity ≡ room_for 8192 (1 + source.pieces.decoder.max) }
    requires write { target.writer.block.capacity ≡ 6 * (target.encoder.max + 2) }
    ensures read_room { result.1.pieces.reader.block.capacity ≡ source.pieces.reader.block.capacity }
    ensures write_room { result.2.writer.block.capacity ≡ target.writer.block.capacity }
    ensures packs { Packs source.pieces.decoder.max source.pieces.reader.log result.1.pieces.reader.log target.writer.log
        result.2.writer.log result.0 }
{
    let mut link = Link::new(Packing {
        source,
        target,
        held: None,
    });
    let answer = forward(&mut link);
    let Packing {
        source,
        target,
        held: _,
    } = link.into_inner();
    (RunError::outcome(answer), source, target)
}
