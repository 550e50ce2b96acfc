//! What is given made the payload of a body, over any two streams that tell.
ghost use Rattle.std.specs.Prelude.{◌≡◌, ℕ, ◌+◌, List, [], ◌++◌, OnOk};
ghost use Rattle.chunked.specs.ChunkedWriter.{around};
ghost use Rattle.programs.specs.Streams.{IsEmptyBuffer};
ghost use Rattle.bodies.specs.Encode.{Encodes, EndsBody, IsEncodedBody};

use crate::encoding::Encoding;
use crate::fault::InputFault;
use buffer_redux::tell::{TellRead, TellWrite};
use buffer_redux::{BufReader, BufWriter, IntoInnerError};
use chunked::ChunkedWriter;
use forward::{Link, forward};
use programs::{RunError, buffered};
use std::alloc::Global;
use std::io::Write;

// How many bytes of payload a chunk has at most: as many as one read may give.
const PIECE: usize = 8192;

/// Makes all that `reader` gives the payload of one body, which `writer` receives, and flushes it. What one read gave is one
/// chunk, and each read asks for 8192 bytes; where it gives nothing at once, the body is the last chunk alone.
///
/// Nothing is held back: where the reader is asked, all that it gave was sent in chunks and flushed.
/// Both streams come back, also after a fault. Nothing more is sent then, so the body that `writer` received has no end, unless
/// just its flush failed. Once the reader has given nothing it isn't called again.
pub fn encode<R: TellRead, W: TellWrite>(
    alloc: Global,
    reader: R,
    writer: W,
) -> (Result<(), RunError<InputFault>>, R, W)
    ensures encoded { OnOk result.0 ((body : List ℕ) × (payload : List ℕ) × IsEncodedBody body payload
        × ((R.log result.1).reads.given ≡ (R.log reader).reads.given ++ payload)
        × ((W.log result.2).writes.received ≡ (W.log writer).writes.received ++ body)) }
    ensures encodes { Encodes (R.log reader) (R.log result.1) (W.log writer) (W.log result.2) result.0 }
{
    let (source, target) = match buffered(alloc, false, (PIECE, 2 * PIECE), reader, writer) {
        Ok(buffers) => buffers,
        Err((e, reader, writer)) => return (Err(RunError::Io(e)), reader, writer),
    };
    let (answer, source, target) = encode_all(source, target);
    let (writer, _) = target.into_inner_with_buffer();
    (answer, source.into_inner(), writer)
}

// Makes all of it a body, and flushes that. Both streams come back, and no buffer grew.
fn encode_all<R: TellRead, W: TellWrite>(
    source: BufReader<R>,
    target: BufWriter<W>,
) -> (Result<(), RunError<InputFault>>, BufReader<R>, BufWriter<W>)
    requires empty { source.block.bytes ≡ [] }
    requires capacity { source.block.capacity ≡ PIECE }
    requires target { IsEmptyBuffer (around + PIECE) target.block }
    ensures read_room { result.1.block.capacity ≡ source.block.capacity }
    ensures write_room { result.2.block.capacity ≡ target.block.capacity }
    ensures encodes { Encodes source.log result.1.log target.log result.2.log result.0 }
{
    let mut link = Link::new(Encoding {
        source,
        target: ChunkedWriter::new(target),
    });
    let answer = forward(&mut link);
    let Encoding {
        source,
        target: body,
    } = link.into_inner();
    match answer {
        Ok(_) => {
            let (answer, target) = end(body);
            (answer, source, target)
        }
        Err(stopped) => (
            Err(RunError::of(stopped.cause)),
            source,
            body.into_inner_torn(),
        ),
    }
}

// Ends the body, and flushes it.
fn end<W: TellWrite>(body: ChunkedWriter<W>) -> (Result<(), RunError<InputFault>>, BufWriter<W>)
    requires between { body.due ≡ 0 }
    ensures { EndsBody body.writer result.0 result.1 }
{
    match body.finish() {
        Ok(mut target) => match target.flush() {
            Ok(()) => (Ok(()), target),
            Err(e) => (Err(RunError::Write(e)), target),
        },
        Err(IntoInnerError(body, e)) => (Err(RunError::Write(e)), body.into_inner_torn()),
    }
}
