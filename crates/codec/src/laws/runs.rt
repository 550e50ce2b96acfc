//! Any number of calls, one after another, each with its answer.
ghost use Rattle.std.specs.Prelude.{ℕ, List, [], ◌∷◌, ◌++◌, map, Result, Err, IfErr, OnOk, OnErr, is_ok, vec_capacity};
ghost use Rattle.std.specs.List.{All};
ghost use Rattle.piece_reader.specs.Runs.{AnswersPlayed, AnswersStopped, kept_answer};
ghost use Rattle.codec.specs.WriteRuns.{CallsEach, CallsPlayed};

use piece_reader::PayloadReader;
use std::alloc::{AllocError, Global};
use std::error::Error;
use std::fmt;

/// Asks for the next payload so many times, whatever is answered, and adds each answer to `answers`. What was handed out, then
/// what is left, are the stream, however it was cut.
///
/// An `Err` is refused memory. Room for an answer is made before its call, where there is none: where that was refused, no
/// further call was begun. Where it was the memory for a payload, that was handed out and is lost.
pub fn play_next<P: PayloadReader>(
    alloc: Global,
    reader: &mut P,
    calls: usize,
    answers: &mut Vec<Result<Option<Vec<u8>>, P::Error>>,
) -> Result<(), AllocError>
    ensures played { OnOk result (AnswersPlayed P.plays reader.old calls
        (map kept_answer answers.old.items) (map kept_answer answers.new.items) reader.new) }
    ensures stopped { OnErr result (AnswersStopped P.plays reader.old calls (vec_capacity answers.old)
        (map kept_answer answers.old.items) (map kept_answer answers.new.items) reader.new) }
{
    for _ in 0..calls {
        answers.reserve(1)?;
        answers.push_reserved(reader.next_copied(alloc)?);
    }
    Ok(())
}

/// A writer that takes payloads in, each whole or not at all: as a piece or a frame.
pub trait PayloadWriter {
    /// Why a payload was not taken in.
    type Error: Drop;

    // What one call with a payload does to the writer, by its answer.
    ghost goes: { Self → List ℕ → Result (Unit {0}) Self.Error → Self → Type 0 };

    // What calls with these payloads do, one after another, by their answers: the run of them, and what they took in.
    ghost plays: { Self → List (List ℕ) → List (Result (Unit {0}) Self.Error) → Self → Type 0 };

    // A payload that the writer takes.
    ghost takes: { Self → List ℕ → Type 0 };

    // An error that isn't about a payload.
    ghost fault: { Self.Error → Type 0 };

    /// Takes the payload in.
    fn write_payload(&mut self, payload: &[u8]) -> Result<(), Self::Error>
        ensures { goes self.old payload.now result self.new };

    // No call does nothing.
    ghost plays_none: { (s : Self) → plays s [] [] s };

    // One call more.
    ghost plays_more: { (s : Self) (payloads : List (List ℕ)) (answers : List (Result (Unit {0}) Self.Error)) (m : Self)
        (payload : List ℕ) (answer : Result (Unit {0}) Self.Error) (t : Self)
        → plays s payloads answers m → goes m payload answer t
        → plays s (payloads ++ payload ∷ []) (answers ++ answer ∷ []) t };

    // No call changes what is taken.
    ghost still_takes: { (s : Self) (payload : List ℕ) (answer : Result (Unit {0}) Self.Error) (t : Self)
        → goes s payload answer t → (other : List ℕ) → takes s other → takes t other };

    // Where a payload is taken, an error is a fault.
    ghost fails_by_fault: { (s : Self) (payload : List ℕ) (why : Self.Error) (t : Self)
        → takes s payload → goes s payload (Err why) t → fault why };
}

/// Writes each payload, whatever is answered, and adds each answer to `answers`. What the stream received since, then what is
/// buffered, is what was buffered, then what is written for the payloads whose call returned `Ok`: none is torn, whatever failed.
///
/// Room for each answer is made before its call, where there is none. Where memory for that is refused, the call was not begun.
pub fn play_write<P: PayloadWriter>(
    writer: &mut P,
    payloads: &[Vec<u8>],
    answers: &mut Vec<Result<(), P::Error>>,
) -> Result<(), AllocError>
    ensures { CallsPlayed P.plays writer.old (map (λ v. v.items) payloads.now) (vec_capacity answers.old)
        answers.old.items (is_ok result) answers.new.items writer.new }
{
    for payload in payloads {
        answers.reserve(1)?;
        answers.push_reserved(writer.write_payload(payload));
    }
    Ok(())
}

/// Why a payload of a list was not taken in.
#[derive(Debug, Drop)]
pub struct WriteEachError<E> {
    /// How many payloads were taken in. Who goes on begins with the one behind these, unless the writer may take a part of one.
    pub taken: usize,
    /// The error of its call.
    pub error: E,
}

impl<E: fmt::Display> fmt::Display for WriteEachError<E> {
    fn fmt<W: fmt::Write>(&self, f: &mut fmt::Formatter<W>) -> fmt::Result {
        write!(f, "after {} payloads: {}", self.taken, self.error)
    }
}

impl<E: fmt::Debug + fmt::Display + Drop> Error for WriteEachError<E> {}

/// Writes each payload, up to the first `Err`, which says how many were taken in before.
pub fn write_each<P: PayloadWriter>(
    writer: &mut P,
    payloads: &[Vec<u8>],
) -> Result<(), WriteEachError<P::Error>>
    ensures each { CallsEach P.goes P.plays writer.old (map (λ v. v.items) payloads.now) result writer.new }
    ensures fault { IfErr result (λ e. All (P.takes writer.old) (map (λ v. v.items) payloads.now) → P.fault e.error) }
{
    let mut taken = 0usize;
    for payload in payloads {
        match writer.write_payload(payload) {
            Ok(()) => {
                taken += 1;
            }
            Err(error) => return Err(WriteEachError { taken, error }),
        }
    }
    Ok(())
}
