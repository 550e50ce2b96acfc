//! Makes the lines of standard input frames, or prints the payloads of the frames of standard input as lines.
//!
//! One is not just the other undone: a last line without an end gets one, and a payload is printed as it is, also where it has
//! line feeds in it.
#![tactic(auto)]

mod fault;
mod pack;
mod packing;
mod run;
mod unpack;
mod unpacking;

use crate::fault::InputFault;
use crate::run::{run_asked, said};
use buffer_redux::tell::Told;
use programs::Outcome;
use std::process::ExitCode;

// Does what the word that the program was given asks for.
fn asked(rt: &HostRuntime) -> Outcome<InputFault> {
    let words = match programs::args(rt) {
        Ok(words) => words,
        Err(ending) => return Outcome::Usual(ending),
    };
    let (reader, writer) = (Told::new(rt.stdin()), Told::new(rt.stdout()));
    run_asked(rt.alloc(), words.as_slice(), reader, writer).0
}

fn main(rt: HostRuntime) -> ExitCode {
    let outcome = asked(&rt);
    programs::end(&rt, outcome.status(), said(outcome))
}
