//! Payloads printed as lines, over any two streams that tell.
ghost use Rattle.std.specs.Prelude.{◌≡◌, ◌+◌, ◌*◌, []};
ghost use Rattle.codec.specs.PieceReader.{room_for};
ghost use Rattle.frame_reader.specs.Next.{ReadsFrames};
ghost use Rattle.frames.specs.Unpack.{Unpacks};
ghost use Rattle.frames.specs.Unpacking.{IsLineTarget};

use crate::fault::InputFault;
use crate::unpacking::Unpacking;
use buffer_redux::tell::{TellRead, TellWrite};
use buffer_redux::{BufWriter, MakeError};
use forward::{Link, forward};
use frame_reader::FrameReader;
use programs::{RunError, buffered_writer};
use std::alloc::Global;

/// Prints the payload of each frame that `reader` gives as a line on `writer`. Bytes that are no frame of at most `most`
/// bytes end the run; the lines of the frames before them are sent then.
///
/// Nothing is held back: where the reader is asked, the lines of all whole frames that it gave were sent and flushed.
/// The writer is flushed once for each ask at most, and once more. Both streams come back, also after a fault. Once the reader
/// has given nothing it isn't called again.
pub fn unpack<R: TellRead, W: TellWrite>(
    alloc: Global,
    most: u16,
    reader: R,
    writer: W,
) -> (Result<(), RunError<InputFault>>, R, W)
    ensures { Unpacks most (R.log reader) (R.log result.1) (W.log writer) (W.log result.2) result.0 }
{
    let source = match FrameReader::new(alloc, reader, most) {
        Ok(source) => source,
        Err(MakeError(reader, e)) => return (Err(RunError::Io(e.into())), reader, writer),
    };
    // The buffer takes in the lines of all that one read gives.
    let room = 3 * (usize::from(most) + 2);
    let target = match buffered_writer(alloc, false, room, writer) {
        Ok(target) => target,
        Err(MakeError(writer, e)) => {
            return (Err(RunError::Io(e.into())), source.into_inner(), writer);
        }
    };
    let (answer, source, target) = unpack_all(source, target);
    let (writer, _) = target.into_inner_with_buffer();
    (answer, source.into_inner(), writer)
}

// Prints all payloads, and flushes them, also those before bytes that are no frame. Both streams come back, and no buffer grew.
fn unpack_all<R: TellRead, W: TellWrite>(
    source: FrameReader<R>,
    target: BufWriter<W>,
) -> (
    Result<(), RunError<InputFault>>,
    FrameReader<R>,
    BufWriter<W>,
)
    requires target { IsLineTarget source.decoder.max target }
    requires reads { ReadsFrames source }
    requires nothing { source.reader.block.bytes ≡ [] }
    requires empty { target.block.bytes ≡ [] }
    requires read { source.reader.block.capacity ≡ room_for 8192 (2 + source.decoder.max) }
    requires write { target.block.capacity ≡ 3 * (source.decoder.max + 2) }
    ensures read_room { result.1.reader.block.capacity ≡ source.reader.block.capacity }
    ensures write_room { result.2.block.capacity ≡ target.block.capacity }
    ensures unpacks { Unpacks source.decoder.max source.reader.log result.1.reader.log target.log result.2.log result.0 }
{
    let mut link = Link::new(Unpacking {
        source,
        target,
        held: None,
    });
    let answer = forward(&mut link);
    let Unpacking {
        source,
        target,
        held: _,
    } = link.into_inner();
    (RunError::outcome(answer), source, target)
}
