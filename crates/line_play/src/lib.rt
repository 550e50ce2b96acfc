//! What holds over many calls of a reader of lines: any of them are played, and lines are written and read again. Laws, each as
//! the contract of a function over the calls.
#![tactic(auto)]

ghost use Rattle.std.specs.Prelude.{◌≡◌, ◌↔◌, ℕ, List, [], ◌∷◌, ◌++◌, ◌⊎◌, false, map, true, None, Some, Ok, Result};
ghost use Rattle.std.specs.List.{All, flat_map, sum_by};
ghost use Rattle.std.specs.declared.io.Error.{Error};
ghost use Rattle.buffer_redux.specs.Sparing.{MovedAtMostGiven};
ghost use Rattle.piece_reader.specs.NextPiece.{PiecesWent};
ghost use Rattle.piece_reader.specs.PieceReader.{IsFresh, rest};
ghost use Rattle.piece_reader.specs.Runs.{AnswerRuns, Cuts, NoneTold, all_handed};
ghost use Rattle.piece_reader.specs.Texts.{HasPieces};
ghost use Rattle.line_reader.specs.Calls.{Call, CallGoes, CallsWent, call_asks, call_lines};
ghost use Rattle.line_reader.specs.KnownCalls.{LeavesBehind, TookFirstLines};
ghost use Rattle.line_reader.specs.Lines.{FitsLine, HasLines, IsLine};
ghost use Rattle.line_reader.specs.LineReader.{HasLine, LineState, IsLineReader, lined};
ghost use Rattle.line_reader.specs.NextLine.{LineAnswer, NextLine, NextTrimmed, piece_answer};
ghost use Rattle.line_reader.specs.SkipLine.{SkipsLine};

mod calls;
mod lists;

use buffer_redux::tell::TellRead;
pub use calls::{Ask, Played, play_calls};
pub use codec::laws::{
    KnownReader, PayloadReader, WriteEachError, next_known, play_next, read_each,
};
use line_reader::LineReader;
pub use lists::{round_trip, write_each};

/// A text is cut into lines in one way.
pub fn one_reading()
    ensures { (text : List ℕ) (lines others : List (List ℕ)) → HasLines text lines → HasLines text others
        → lines ≡ others }
{}

/// Since the reader was made, what was given is the bytes that were handed out or skipped, then what is left; and no more
/// bytes were moved than were given.
pub fn since_new<R: TellRead>(reader: &LineReader<R>)
    ensures given { (least most : ℕ) (stream : R) (first : LineState R) (bytes : List ℕ)
        → IsFresh R.log least most stream first.pieces.decoder first.pieces
        → PiecesWent R.remaining most first.pieces bytes reader.now.pieces
        → reader.now.pieces.reader.log.reads.given ≡ (R.log stream).reads.given ++ (bytes ++ rest reader.now.pieces) }
    ensures moved { (least most : ℕ) (stream : R) (first : LineState R) (bytes : List ℕ)
        → IsFresh R.log least most stream first.pieces.decoder first.pieces
        → PiecesWent R.remaining most first.pieces bytes reader.now.pieces
        → MovedAtMostGiven first.pieces.reader reader.now.pieces.reader }
{}

/// Any calls of `next`, `next_trimmed`, `next_buffered` and `skip_line` since the reader was made, whatever they answered: what
/// was given, cut at the ends of its lines, is the lines that were handed out and those that were skipped, in order, then what
/// went of a line that is being skipped, and what is left. No more lines are skipped than it was asked for.
pub fn whole_lines<R: TellRead>(reader: &LineReader<R>)
    ensures went { (least most : ℕ) (stream : R) (first : LineState R) (calls : List Call)
        → IsFresh R.log least most stream first.pieces.decoder first.pieces → IsLineReader first
        → AnswerRuns (CallGoes R.remaining) first calls reader.now
        → CallsWent R.remaining [] first (flat_map call_lines calls) (sum_by call_asks calls) reader.now }
{}

/// Any of these calls over a stream of which the lines are known, whatever they answered: what they handed out and skipped
/// are the first of these lines, whole and in order, and the others are left; an end is told behind the last alone.
pub fn known_lines<R: TellRead>(reader: &LineReader<R>)
    ensures took { (s : LineState R) (before : List ℕ) (lines : List (List ℕ)) (calls : List Call)
        → LeavesBehind R.remaining before s lines → AnswerRuns (CallGoes R.remaining) s calls reader.now
        → TookFirstLines R.remaining lines (flat_map call_lines calls) reader.now }
    ensures fresh { (least most : ℕ) (stream : R) (first : LineState R) (text : List ℕ) (lines : List (List ℕ))
        → IsFresh R.log least most stream first.pieces.decoder first.pieces → R.remaining stream ≡ Some text
        → HasLines text lines → LeavesBehind R.remaining [] first lines }
{}

/// Where `has_line` is true a call of `next` or `next_trimmed` asks nobody, and so does one of `skip_line` where an end of a
/// line is buffered, or the stream ended, which no call has told.
pub fn asks_nobody<R: TellRead>(reader: &LineReader<R>)
    ensures next { (s : LineState R) (answer : LineAnswer) → HasLine s → NextLine R.remaining s answer reader.now
        → reader.now.pieces.reader.log ≡ s.pieces.reader.log }
    ensures trimmed { (s : LineState R) (answer : LineAnswer) → HasLine s → NextTrimmed R.remaining s answer reader.now
        → reader.now.pieces.reader.log ≡ s.pieces.reader.log }
    ensures skips { (s : LineState R) (answer : Result ℕ Error)
        → (s.pieces.ended ≡ true) ⊎ (¬ (IsLine (rest s.pieces)))
        → SkipsLine R.remaining s answer reader.now → reader.now.pieces.reader.log ≡ s.pieces.reader.log }
{}

/// What a run of calls handed out, up to the one that told the end, is a text, and the lines that were handed out are its
/// lines. A text of lines that fit is one of these lines as pieces.
pub fn lines_of_text()
    ensures lines { (max : ℕ) (answers : List LineAnswer) (bytes : List ℕ) → NoneTold answers
        → Cuts (lined max) (map piece_answer (answers ++ Ok None ∷ [])) bytes → HasLines bytes (all_handed answers) }
    ensures pieces { (max : ℕ) (text : List ℕ) (lines : List (List ℕ))
        → (HasLines text lines × All (FitsLine max) lines) ↔ HasPieces (lined max) text lines }
{}
