//! Calls that are made again where they were interrupted.
ghost use Rattle.std.specs.Prelude.{Err};
ghost use Rattle.std.specs.declared.io.Error.{Error};
ghost use Rattle.redux_buffer.specs.Retried.{Retried, Step};

use crate::INTERRUPT_LIMIT;
use std::io;
use std::io::ErrorKind;

/// A call that may be interrupted, of something that it changes.
pub trait Attempt<S> {
    /// What it answers.
    type Answer;

    // Where it may be made.
    ghost may: { Self → S → Type 0 };

    // What it does: all that an attempt promises, so no fact stands in front.
    ghost step: { Self → Step S Self.Answer };

    /// Makes the call.
    fn attempt(&self, state: &mut S) -> io::Result<Self::Answer>
        requires may { may self.now state.old }
        ensures step { step self.now state.old result state.new };

    // Behind one that failed it may be made again.
    ghost again: { (call : Self) (s t : S) (e : Error) → may call s → step call s (Err e) t → may call t };
}

/// Makes a call, and makes it again where it was interrupted: 64 `Interrupted` in a row are retried, and the 65th is returned.
/// Any other fault is returned at once.
#[inline(always)]
pub fn retried<S, A: Attempt<S>>(call: &A, state: &mut S) -> io::Result<A::Answer>
    requires may { A.may call.now state.old }
    ensures retried { Retried (A.step call.now) state.old result state.new }
{
    match call.attempt(state) {
        Ok(answer) => Ok(answer),
        Err(e) => retry_apart(e, call, state),
    }
}

/// Goes on as [`retried`] does, behind a first call that answered this.
#[inline(always)]
pub fn retried_behind<S, A: Attempt<S>>(
    first: io::Result<A::Answer>,
    call: &A,
    state: &mut S,
) -> io::Result<A::Answer>
    requires may { A.may call.now state.old }
    ensures retried { (s : S) → A.step call.now s first state.old → Retried (A.step call.now) s result state.new }
{
    match first {
        Ok(answer) => Ok(answer),
        Err(fault) => retry_apart(fault, call, state),
    }
}

// Goes on after a first call that failed so. It stands apart, and what it answers is cleared in here, which is inlined, and so
// where it is called alone.
#[inline(always)]
fn retry_apart<S, A: Attempt<S>>(e: io::Error, call: &A, state: &mut S) -> io::Result<A::Answer>
    requires may { A.may call.now state.old }
    ensures retried { (s : S) → A.step call.now s (Err e) state.old → Retried (A.step call.now) s result state.new }
{
    retry(e, call, state)
}

#[cold]
#[inline(never)]
fn retry<S, A: Attempt<S>>(e: io::Error, call: &A, state: &mut S) -> io::Result<A::Answer>
    requires may { A.may call.now state.old }
    ensures retried { (s : S) → A.step call.now s (Err e) state.old → Retried (A.step call.now) s result state.new }
{
    let mut last = e;
    for _ in 0..INTERRUPT_LIMIT {
        if last.kind() != ErrorKind::Interrupted {
            return Err(last);
        }
        match call.attempt(state) {
            Ok(answer) => return Ok(answer),
            Err(e) => last = e,
        }
    }
    Err(last)
}
