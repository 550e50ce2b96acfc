//! Readers of payloads, whatever these are cut from.
ghost use Rattle.std.specs.Prelude.{◌≡◌, ℕ, List, [], ◌∷◌, ◌++◌, Option, Result, IfOk, OnErr};
ghost use Rattle.std.specs.declared.io.Error.{Error};
ghost use Rattle.piece_reader.specs.declared.error.NextError.TheVariants.{Io};
ghost use Rattle.piece_reader.specs.KnownPayloads.{AnswersKnown};
ghost use Rattle.piece_reader.specs.KnownPieces.{HasLeft};
ghost use Rattle.piece_reader.specs.KnownPiecesLaws.{NextPiece-answers};
ghost use Rattle.piece_reader.specs.Looking.{LooksFromLast, LookSays};
ghost use Rattle.piece_reader.specs.NextPiece.{NextPiece};
ghost use Rattle.piece_reader.specs.Runs.{AnswerPlays, NextLost, RunWent, kept_answer};
ghost use Rattle.piece_reader.specs.RunsLaws.{NextPlays-more, NextPlays-none};

use crate::decoder::Decoder;
use crate::error::NextError;
use crate::reader::PieceReader;
use buffer_redux::tell::TellRead;
use std::alloc::{AllocError, Global};
use std::io;

/// A reader that hands out payloads, whatever they are cut from: pieces, frames or lines.
pub trait PayloadReader {
    /// Why a call hands out no payload.
    type Error: Drop;

    // What one call does to the reader, by its answer.
    ghost goes: { Self → Result (Option (List ℕ)) Self.Error → Self → Type 0 };

    // What calls do, one after another, by their answers: the run of them, and what they come to.
    ghost plays: { Self → List (Result (Option (List ℕ)) Self.Error) → Self → Type 0 };

    /// One call, with the payload copied. An `Err` is refused memory: the call was made, and its payload is lost, since how long
    /// it is shows in the call alone.
    fn next_copied(
        &mut self,
        alloc: Global,
    ) -> Result<Result<Option<Vec<u8>>, Self::Error>, AllocError>
        ensures next { IfOk result (λ answer. goes self.old (kept_answer answer) self.new) }
        ensures lost { OnErr result (NextLost goes self.old self.new) };

    // No call does nothing.
    ghost plays_none: { (s : Self) → plays s [] s };

    // One call more.
    ghost plays_more: { (s : Self) (answers : List (Result (Option (List ℕ)) Self.Error)) (m : Self)
        (answer : Result (Option (List ℕ)) Self.Error) (t : Self)
        → plays s answers m → goes m answer t → plays s (answers ++ answer ∷ []) t };
}

/// A reader of payloads that says which of them are left, where the bytes of its stream are known.
pub trait KnownReader: PayloadReader {
    // Just these payloads are left, and each of them may be handed out.
    ghost has_left: { Self → List (List ℕ) → Type 0 };

    // The faults that the stream inside met so far.
    ghost faults: { Self → List Error };

    // An error of the stream inside, as it is answered.
    ghost stream_error: { Error → Self.Error };

    /// The error of the stream inside that this one is.
    fn into_io(error: Self::Error) -> io::Error
        requires { (e : Error) × (error ≡ stream_error e) }
        ensures { error ≡ stream_error result };

    // A call hands out the first of those that are left, and fails by a fault of the stream alone.
    ghost answers_known: { (s : Self) (answer : Result (Option (List ℕ)) Self.Error) (payloads : List (List ℕ)) (t : Self)
        → has_left s payloads → Self.goes s answer t → AnswersKnown has_left faults stream_error s answer payloads t };
}

/// A call is one of `step`.
impl<R: TellRead, D: Decoder> PayloadReader for PieceReader<R, D> {
    type Error = NextError<D::Wrong>;

    ghost goes = { λ s. NextPiece R.remaining (D.grammar s.decoder) s };

    ghost plays = { λ s. AnswerPlays (NextPiece R.remaining (D.grammar s.decoder))
        (RunWent R.remaining (D.grammar s.decoder)) s };

    fn next_copied(
        &mut self,
        alloc: Global,
    ) -> Result<Result<Option<Vec<u8>>, NextError<D::Wrong>>, AllocError>
        ensures next { IfOk result (λ answer. NextPiece R.remaining (D.grammar self.old.decoder) self.old
            (kept_answer answer) self.new) }
        ensures lost { OnErr result (NextLost (λ s. NextPiece R.remaining (D.grammar s.decoder) s) self.old self.new) }
        ensures looked { LooksFromLast (LookSays D.grammar D.looks) self.old self.new }
    {
        match self.step() {
            Ok(Some(span)) => Ok(Ok(Some(Vec::from_slice(alloc, self.lent(span))?))),
            Ok(None) => Ok(Ok(None)),
            Err(e) => Ok(Err(e)),
        }
    }

    ghost plays_none = { λ s. NextPlays-none R.remaining (D.grammar s.decoder) s };

    ghost plays_more = { NextPlays-more R.remaining D.grammar };
}

impl<R: TellRead, D: Decoder> KnownReader for PieceReader<R, D> {
    ghost has_left = { λ s. HasLeft R.remaining (D.grammar s.decoder) s };

    ghost faults = { λ s. s.reader.log.reads.faults };

    ghost stream_error = { Io };

    fn into_io(error: NextError<D::Wrong>) -> io::Error {
        match error {
            NextError::Io(e) => e,
            NextError::Wrong(_) => unreachable!(),
        }
    }

    ghost answers_known = { λ s answer payloads t. NextPiece-answers R.remaining D.grammar D.lawful s t answer payloads };
}
