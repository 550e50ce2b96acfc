//! Playing a case again and again, with each call of the stream inside going wrong in turn.
use crate::case::StreamCase;
use crate::play::{Outcome, Unplayed, play_case};
use crate::watched::{Fault, Lie};
use redux_script::Answer;
use std::alloc::Global;
use std::io::ErrorKind;

// A call goes wrong by each of these, which have these words.
static ANSWERS: [(&str, Answer); 5] = [
    ("e:Other", Answer::Fail(ErrorKind::Other)),
    ("i", Answer::Interrupt(1)),
    ("i65", Answer::Interrupt(65)),
    ("z", Answer::Serve(0)),
    ("1", Answer::Serve(1)),
];

// No run makes so many calls.
const MOST_CALLS: usize = 1000;

// What came of all runs in which one call answers so.
#[derive(Clone, Copy)]
enum Swept {
    // All went well, and in so many the call was made.
    Kept(usize),
    // What went wrong first, and how many calls came before that.
    Wrong(&'static str, usize),
}

/// `kept` with how many calls went wrong, or what is lost first, at which call of the stream inside, and how that went wrong.
pub fn sweep(alloc: Global, case: &StreamCase, lie: Lie) -> Result<String, Unplayed> {
    let mut met = 0usize;
    for &(word, answer) in &ANSWERS {
        match sweep_by(alloc, case, answer, lie)? {
            Swept::Kept(count) => met = met.saturating_add(count),
            Swept::Wrong(what, before) => {
                return Ok(format!(in alloc; "{what} at call {before} by {word}")?);
            }
        }
    }
    Ok(format!(in alloc; "kept {met}")?)
}

fn sweep_by(alloc: Global, case: &StreamCase, answer: Answer, lie: Lie) -> Result<Swept, Unplayed> {
    for before in 0..MOST_CALLS {
        let fault = Fault {
            before,
            answer,
            lie,
        };
        let outcome = play_case(alloc, case, fault, 1)?;
        if let Some(wrong) = wrong_in(&outcome) {
            return Ok(Swept::Wrong(wrong, before));
        }
        if outcome.calls <= before {
            return Ok(Swept::Kept(before));
        }
    }
    Ok(Swept::Wrong("no end", MOST_CALLS))
}

// What is wrong with what came of a case.
fn wrong_in(outcome: &Outcome) -> Option<&'static str> {
    if outcome.joined != outcome.whole {
        return Some("lost");
    }
    if outcome.returned != outcome.caused {
        return Some("untold");
    }
    None
}
