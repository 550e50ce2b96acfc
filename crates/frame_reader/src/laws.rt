//! Laws, each as the contract of a function over the calls.
ghost use Rattle.std.specs.Prelude.{◌≡◌, ℕ, ◌+◌, ◌<◌, ◌^◌, List, [], ◌++◌, length};
ghost use Rattle.buffer_redux.specs.BufWriter.{WritesInOrder};
ghost use Rattle.buffer_redux.specs.Buffered.{Buffered};
ghost use Rattle.buffer_redux.specs.Sparing.{MovedAtMostGiven};
ghost use Rattle.buffer_redux.specs.declared.policy.StdPolicy.{StdPolicy};
ghost use Rattle.codec.specs.PieceWriter.{WriterState, IsUnused, unsent};
ghost use Rattle.codec.specs.PieceReader.{ReaderState, IsFresh, rest};
ghost use Rattle.codec.specs.WritePiece.{PiecesTaken};
ghost use Rattle.frame_reader.specs.declared.frame.Frames.{Frames};
ghost use Rattle.frame_reader.specs.Framed.{SplitsIntoFrames, framed_out};
ghost use Rattle.frame_reader.specs.Frames.{frame, frames};
ghost use Rattle.frame_reader.specs.Next.{FramesWent};

mod lists;
mod runs;

use crate::reader::FrameReader;
use crate::writer::FrameWriter;
use buffer_redux::tell::{TellRead, TellWrite};
pub use codec::laws::{
    KnownReader, PayloadReader, PayloadWriter, WriteEachError, next_known, play_next, play_write,
    read_each, write_each,
};
pub use lists::round_trip;

/// No frame begins another: what bytes begin with a frame settles its payload, and what is behind it.
pub fn one_frame()
    ensures { (p q xs ys : List ℕ) → length p < 2 ^ 16 → length q < 2 ^ 16
        → frame p ++ xs ≡ frame q ++ ys → (p ≡ q) × (xs ≡ ys) }
{}

/// However a stream is cut, it is the frames of one list of payloads alone, up to where no whole frame follows.
pub fn one_reading(max: u16)
    ensures { (stream : List ℕ) (ps qs : List (List ℕ)) (xs ys : List ℕ)
        → SplitsIntoFrames max stream ps xs → SplitsIntoFrames max stream qs ys → (ps ≡ qs) × (xs ≡ ys) }
{
    let _ = max;
}

// No fact of few words stands in front: each takes both what was handed out and what is left.
/// Since the reader was made, what was given is the frames that were handed out, then what is left; and no more bytes were
/// moved than were given.
pub fn since_new<R: TellRead>(reader: &FrameReader<R>)
    ensures given { (least : ℕ) (stream : R) (first : ReaderState R Frames) (payloads : List (List ℕ))
        → IsFresh R.log least (2 + first.decoder.max) stream first.decoder first
        → FramesWent R.remaining first payloads reader.now
        → reader.now.reader.log.reads.given
        ≡ (R.log stream).reads.given ++ (frames payloads ++ rest reader.now) }
    ensures moved { (least : ℕ) (stream : R) (first : ReaderState R Frames) (payloads : List (List ℕ))
        → IsFresh R.log least (2 + first.decoder.max) stream first.decoder first
        → FramesWent R.remaining first payloads reader.now
        → MovedAtMostGiven first.reader reader.now.reader }
{}

/// Since the writer was made, what the stream received, then what is buffered, is the frames of the payloads that were
/// taken in: so no frame was torn, whatever failed.
pub fn written_since_new<W: TellWrite>(writer: &FrameWriter<W>)
    ensures in_order { (first : Buffered W StdPolicy) (bytes : List ℕ) → first.block.bytes ≡ []
        → WritesInOrder first bytes writer.now.writer
        → writer.now.writer.log.writes.received ++ writer.now.writer.block.bytes ≡ first.log.writes.received ++ bytes }
    ensures exact { (least : ℕ) (stream : W) (first : WriterState W Frames) (payloads : List (List ℕ))
        → IsUnused W.log least (2 + first.encoder.max) stream first.encoder first
        → PiecesTaken W.trace (framed_out first.encoder.max) first payloads writer.now
        → writer.now.writer.log.writes.received ++ unsent writer.now
        ≡ (W.log stream).writes.received ++ frames payloads }
{}
