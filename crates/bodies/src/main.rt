//! Copies the payload of the chunked body that standard input is to standard output, or makes standard input the payload of one.
#![tactic(auto)]

mod decode;
mod decoding;
mod encode;
mod encoding;
mod fault;
mod run;

use crate::fault::InputFault;
use crate::run::{run_asked, said};
use buffer_redux::tell::Told;
use programs::Outcome;
use std::process::ExitCode;

// Does what the word that the program was given asks for.
fn asked(rt: &HostRuntime) -> Outcome<InputFault> {
    let words = match programs::args(rt) {
        Ok(words) => words,
        Err(ending) => return Outcome::Usual(ending),
    };
    let (reader, writer) = (Told::new(rt.stdin()), Told::new(rt.stdout()));
    run_asked(rt.alloc(), words.as_slice(), reader, writer).0
}

fn main(rt: HostRuntime) -> ExitCode {
    let outcome = asked(&rt);
    programs::end(&rt, outcome.status(), said(outcome))
}
