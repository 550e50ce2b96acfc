//! Streams of std that answer by a script, for tests.
#![tactic(auto)]

ghost use Rattle.std.specs.Prelude.{◌≡◌, ◌-◌, ◌^◌, ◌≤◌, ◌⊎◌, [], IfOk};

mod fault_at;
mod reader;
mod seeker;
mod writer;

pub use fault_at::FaultAt;
pub use reader::ScriptReader;
pub use seeker::ScriptSeeker;
use std::alloc::{AllocError, Global};
use std::collections::VecDeque;
use std::io;
use std::io::ErrorKind;
pub use writer::ScriptWriter;

/// One entry of a script.
#[derive(Clone, Copy, Debug)]
pub enum Answer {
    /// One `Ok`, of at most this many bytes. `Serve(0)` is `Ok(0)`.
    Serve(usize),
    /// One `Err` of this kind.
    Fail(ErrorKind),
    /// This many `Err` of the kind `Interrupted`, one after another.
    Interrupt(usize),
    /// No answer of its own: from here on each call serves at most this many bytes.
    ServeEach(usize),
}

// What is left of a script, and what was asked so far.
#[derive(Debug, Drop)]
struct Script {
    // How many `Interrupted` come before the next of `answers`.
    interrupts: usize,
    // The most bytes that a call serves.
    most: usize,
    answers: VecDeque<Answer>,
    offers: Vec<usize>,
}

impl Script {
    ghost use Rattle.redux_script.specs.Script.{Answers, RunsOut, progress_of};

    fn new(alloc: Global, answers: &[Answer]) -> Result<Script, AllocError>
        ensures plan { IfOk result (λ s. (progress_of s).plan
            ≡ record { interrupts = 0; most = 2 ^ 64 - 1; answers = answers.now }) }
        ensures offers { IfOk result (λ s. (progress_of s).offers ≡ []) }
    {
        let answers = Vec::from_slice(alloc, answers)?;
        Ok(Script {
            interrupts: 0,
            most: usize::MAX,
            answers: VecDeque::from(answers),
            offers: Vec::new(alloc),
        })
    }

    // Notes a call that offers `offered` bytes, and answers how many of the `room` bytes it serves.
    fn next(&mut self, offered: usize, room: usize) -> io::Result<usize>
        ensures called { Answers (progress_of self.old) offered room result (progress_of self.new)
            ⊎ RunsOut (progress_of self.old) result (progress_of self.new) }
        ensures bound { IfOk result (λ n. n ≤ room) }
    {
        self.offers.push(offered)?;
        while self.interrupts == 0 {
            match self.answers.pop_front() {
                None => return Ok(self.most.min(room)),
                Some(Answer::Serve(n)) => return Ok(n.min(self.most).min(room)),
                Some(Answer::Fail(kind)) => return Err(io::Error::from(kind)),
                Some(Answer::Interrupt(times)) => self.interrupts = times,
                Some(Answer::ServeEach(most)) => self.most = most,
            }
        }
        self.interrupts -= 1;
        Err(io::Error::from(ErrorKind::Interrupted))
    }
}
