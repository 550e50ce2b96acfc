//! Laws, each as the contract of a function over the calls.
ghost use Rattle.std.specs.Prelude.{◌≡◌, ◌*◌, ◌^◌, ◌≤◌, ℕ, List, [], ◌∷◌, ◌++◌, IfErr, IfOk, IsOk, None, Ok, Option, Result};
ghost use Rattle.std.specs.List.{flat_map};
ghost use Rattle.buffer_redux.specs.Block.{Block};
ghost use Rattle.buffer_redux.specs.BufWriter.{WritesInOrder};
ghost use Rattle.buffer_redux.specs.Buffered.{Buffered};
ghost use Rattle.buffer_redux.specs.GrowError.{FitsWithin};
ghost use Rattle.buffer_redux.specs.MakeError.{growth};
ghost use Rattle.buffer_redux.specs.Sparing.{MovedAtMostGiven};
ghost use Rattle.buffer_redux.specs.Unbuffer.{StreamWent, unbuffered};
ghost use Rattle.buffer_redux.specs.declared.policy.StdPolicy.{StdPolicy};
ghost use Rattle.codec.specs.Encoding.{all_coded};
ghost use Rattle.piece_reader.specs.KnownPayloads.{AnswersKnown};
ghost use Rattle.piece_reader.specs.NextPiece.{NextAnswer, PiecesWent};
ghost use Rattle.codec.specs.PieceWriter.{WriterState, IsMadeOver, IsUnused, unsent};
ghost use Rattle.piece_reader.specs.PieceReader.{ReaderState, IsFresh, IsOver, TakenApart, left_of, rest, room_for};
ghost use Rattle.piece_reader.specs.Runs.{Cuts, NextRuns, NoneTold, RunWent, handed_payload};
ghost use Rattle.piece_reader.specs.Texts.{HasPieces, Splits};
ghost use Rattle.codec.specs.WritePiece.{PiecesTaken};

mod known;
mod lists;
mod runs;
mod written;

use crate::encoder::Encoder;
use crate::writer::PieceWriter;
use buffer_redux::tell::{TellRead, TellWrite};
use buffer_redux::{Buffer, MakeError};
pub use known::read_each;
pub use lists::round_trip;
use piece_reader::{Decoder, PieceReader};
pub use piece_reader::{KnownReader, PayloadReader};
pub use runs::{PayloadWriter, WriteEachError, play_next, play_write, write_each};
use std::alloc::Global;

/// A text is pieces in one way, and so is a stream of pieces before what is left.
pub fn one_reading<D: Decoder>(decoder: &D)
    ensures text { (text : List ℕ) (payloads others : List (List ℕ)) → HasPieces (D.grammar decoder.now) text payloads
        → HasPieces (D.grammar decoder.now) text others → payloads ≡ others }
    ensures stream { (stream left left' : List ℕ) (payloads others : List (List ℕ))
        → Splits (D.grammar decoder.now) stream payloads left → Splits (D.grammar decoder.now) stream others left'
        → (payloads ≡ others) × (left ≡ left') }
{}

// No fact of few words stands in front: each takes both what was handed out and what is left.
/// Since the reader was made, what was given is the bytes that were handed out, then what is left; and no more bytes were
/// moved than were given.
pub fn since_new<R: TellRead, D: Decoder>(reader: &PieceReader<R, D>)
    ensures given { (least most : ℕ) (stream : R) (finder : D) (first : ReaderState R D) (bytes : List ℕ)
        → IsFresh R.log least most stream finder first → PiecesWent R.remaining most first bytes reader.now
        → reader.now.reader.log.reads.given ≡ (R.log stream).reads.given ++ (bytes ++ rest reader.now) }
    ensures moved { (least most : ℕ) (stream : R) (finder : D) (first : ReaderState R D) (bytes : List ℕ)
        → IsFresh R.log least most stream finder first → PiecesWent R.remaining most first bytes reader.now
        → MovedAtMostGiven first.reader reader.now.reader }
{}

/// Since the writer was made, what the stream received, then what is buffered, is the pieces of the payloads that were taken
/// in: so no piece was torn, whatever failed.
pub fn written_since_new<W: TellWrite, E: Encoder>(writer: &PieceWriter<W, E>)
    ensures in_order { (first : Buffered W StdPolicy) (bytes : List ℕ) → first.block.bytes ≡ []
        → WritesInOrder first bytes writer.now.writer
        → writer.now.writer.log.writes.received ++ writer.now.writer.block.bytes ≡ first.log.writes.received ++ bytes }
    ensures exact { (least : ℕ) (stream : W) (maker : E) (first : WriterState W E) (payloads : List (List ℕ))
        → IsUnused W.log least (E.encoding maker).most stream maker first
        → PiecesTaken W.trace (E.encoding maker) first payloads writer.now
        → writer.now.writer.log.writes.received ++ unsent writer.now
        ≡ (W.log stream).writes.received ++ all_coded (E.encoding maker) payloads }
{}

/// A run of calls handed out just the bytes of its pieces, and what one did up to the end that it told is a text of them.
pub fn went<R: TellRead, D: Decoder>(reader: &PieceReader<R, D>)
    ensures text { (decoder : D) (answers : List (NextAnswer D.Wrong)) (bytes : List ℕ) → NoneTold answers
        → Cuts (D.grammar decoder) (answers ++ Ok None ∷ []) bytes
        → HasPieces (D.grammar decoder) bytes (flat_map handed_payload answers) }
    ensures went { (first : ReaderState R D) (answers : List (NextAnswer D.Wrong))
        → NextRuns R.remaining (D.grammar first.decoder) first answers reader.now
        → RunWent R.remaining (D.grammar first.decoder) first answers reader.now }
{}

/// Where just some payloads are left of a stream that is known, a call hands out the first, or answers `None` where there is
/// none; it has no other `Err` than the stream's own.
pub fn next_known<P: KnownReader>(reader: &P)
    ensures { (s : P) (payloads : List (List ℕ)) (answer : Result (Option (List ℕ)) P.Error)
        → P.goes s answer reader.now → P.has_left s payloads
        → AnswersKnown P.has_left P.faults P.stream_error s answer payloads reader.now }
{}

/// A reader that is taken apart and made again with another decoder has left what the first had. So the pieces of both, one
/// after another, are the front of what was left at first: the second decoder's begin just where the first one's ended. An end
/// that no call told is forgotten: `into_inner_with_buffer` says whether there is one. A refusal hands back what the reader was
/// taken apart into.
pub fn handed_over<R: TellRead, D: Decoder, E: Decoder>(
    alloc: Global,
    reader: PieceReader<R, D>,
    decoder: E,
) -> Result<PieceReader<R, E>, MakeError<(Buffer, R, E)>>
    ensures rest { IfOk result (λ next. (rest next ≡ rest reader) × (next.reader.inner ≡ reader.reader.inner)) }
    ensures left { IfOk result (λ next. left_of next ≡ left_of reader) }
    ensures over { IfOk result (λ next. (stream : R) × (buffer : Block) × TakenApart R.log reader stream buffer
        × IsOver R.log (E.grammar decoder).most buffer stream decoder next) }
    ensures handed_back { IfErr result (λ e. TakenApart R.log reader e.0.1 e.0.0 × (e.0.2 ≡ decoder)) }
    ensures within { FitsWithin (growth result) (room_for reader.reader.block.capacity (E.grammar decoder).most) (2 ^ 62) }
    ensures kept { 3 * (E.grammar decoder).most ≤ reader.reader.block.capacity → IsOk result }
    ensures went { IfOk result (λ next. (most more : ℕ) (first : ReaderState R D) (last : ReaderState R E) (bytes later : List ℕ)
        → PiecesWent R.remaining most first bytes reader → PiecesWent R.remaining more next later last
        → StreamWent R.remaining (left_of first) (bytes ++ later) (left_of last)) }
{
    let (inner, buffer, _ended) = reader.into_inner_with_buffer();
    PieceReader::with_buffer(alloc, buffer, inner, decoder)
}

/// A writer that is taken apart and made again with another encoder has not sent what the first hadn't. So the stream takes the
/// pieces of both, one after another, behind what was not sent at first. A refusal hands back what the writer was taken apart
/// into.
pub fn written_over<W: TellWrite, E: Encoder, F: Encoder>(
    alloc: Global,
    writer: PieceWriter<W, E>,
    encoder: F,
) -> Result<PieceWriter<W, F>, MakeError<(Buffer, W, F)>>
    ensures left { IfOk result (λ next. unbuffered next.writer ≡ unbuffered writer.writer) }
    ensures over { IfOk result (IsMadeOver W.log (F.encoding encoder).most writer.writer.block writer.writer.inner encoder) }
    ensures handed_back { IfErr result (λ e. (e.0.0 ≡ writer.writer.block) × (e.0.1 ≡ writer.writer.inner) × (e.0.2 ≡ encoder)) }
    ensures within { FitsWithin (growth result) (room_for writer.writer.block.capacity (F.encoding encoder).most) (2 ^ 62) }
    ensures kept { 3 * (F.encoding encoder).most ≤ writer.writer.block.capacity → IsOk result }
    ensures took { IfOk result (λ next. (first : WriterState W E) (last : WriterState W F) (payloads later : List (List ℕ))
        → PiecesTaken W.trace (E.encoding writer.encoder) first payloads writer
        → PiecesTaken W.trace (F.encoding encoder) next later last
        → WritesInOrder first.writer
        (all_coded (E.encoding writer.encoder) payloads ++ all_coded (F.encoding encoder) later) last.writer) }
{
    let (inner, buffer) = writer.into_inner_with_buffer();
    PieceWriter::with_buffer(alloc, buffer, inner, encoder)
}
