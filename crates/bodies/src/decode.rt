//! The payload of a body copied, over any two streams that tell.
ghost use Rattle.std.specs.Prelude.{◌≡◌, ℕ, List, [], ◌++◌, OnOk, vec_len};
ghost use Rattle.chunked.specs.Body.{IsBodyOfChunks};
ghost use Rattle.programs.specs.Streams.{IsEmptyBuffer};
ghost use Rattle.bodies.specs.Decode.{DecodesBody};
ghost use Rattle.bodies.specs.Decoding.{IsPieceTarget};

use crate::decoding::{Decoding, PIECE};
use crate::fault::InputFault;
use buffer_redux::tell::{TellRead, TellWrite};
use buffer_redux::{BufReader, BufWriter};
use chunked::{Chunked, ChunkedReader, Limits};
use forward::{Link, forward};
use programs::{RunError, buffered};
use std::alloc::Global;

/// Copies the payload of the body that `reader` gives to `writer`. A body that is wrong, or ends too early, ends the run; the
/// payload in what is right of it is sent then. What follows the body is left, and the run says so.
///
/// Nothing is held back: where the reader is asked, the payload in all that it gave was sent and flushed, also before it is asked
/// whether something follows. The writer is flushed once for each ask at most, and once more. Once the reader has given nothing
/// it isn't called again. At an `Ok` that last ask was for 16384 bytes or more. Both streams come back, also after a fault.
pub fn decode<R: TellRead, W: TellWrite>(
    alloc: Global,
    limits: Limits,
    reader: R,
    writer: W,
) -> (Result<(), RunError<InputFault>>, R, W)
    ensures decoded { OnOk result.0 ((body : List ℕ) × (payload : List ℕ) × IsBodyOfChunks limits body payload
        × ((R.log result.1).reads.given ≡ (R.log reader).reads.given ++ body)
        × ((W.log result.2).writes.received ≡ (W.log writer).writes.received ++ payload)) }
    ensures decodes { DecodesBody limits (R.log reader) (R.log result.1) (W.log writer) (W.log result.2) result.0 }
{
    let piece = match vec![in alloc; 0; PIECE] {
        Ok(piece) => piece,
        Err(e) => return (Err(RunError::Io(e.into())), reader, writer),
    };
    let (source, target) = match buffered(alloc, false, (PIECE, 2 * PIECE), reader, writer) {
        Ok(buffers) => buffers,
        Err((e, reader, writer)) => return (Err(RunError::Io(e)), reader, writer),
    };
    let (answer, rest, target) = decode_all(source, limits, target, piece);
    let (writer, _) = target.into_inner_with_buffer();
    (answer, rest.into_inner(), writer)
}

// Copies all payload. Both streams come back, and no buffer grew.
fn decode_all<R: TellRead, W: TellWrite>(
    source: BufReader<R>,
    limits: Limits,
    target: BufWriter<W>,
    piece: Vec<u8>,
) -> (Result<(), RunError<InputFault>>, BufReader<R>, BufWriter<W>)
    requires source { IsEmptyBuffer PIECE source.block }
    requires target { IsPieceTarget target }
    requires empty { target.block.bytes ≡ [] }
    requires room { vec_len piece ≡ PIECE }
    ensures read_room { result.1.block.capacity ≡ source.block.capacity }
    ensures write_room { result.2.block.capacity ≡ target.block.capacity }
    ensures decodes { DecodesBody limits source.log result.1.log target.log result.2.log result.0 }
{
    let mut link = Link::new(Decoding {
        source: ChunkedReader::new(source, Chunked(limits)),
        target,
        piece,
        held: 0,
    });
    let answer = forward(&mut link);
    let Decoding {
        source: body,
        target,
        piece: _,
        held: _,
    } = link.into_inner();
    (RunError::outcome(answer), body.into_inner_torn(), target)
}
