//! Lists the parts of the multipart body that standard input is, or writes one of them to standard output.
//!
//! `parts list BOUNDARY` prints a line for each part: its name, its file's name, its type and the length of its text, with tabs
//! between them, `?` for each control byte in them, and `-` for what its head doesn't say. `parts get BOUNDARY NAME` writes the
//! text of the first part of this name.
#![tactic(auto)]

mod ending;
mod error;
mod get;
mod list;
mod run;
mod text;

use crate::ending::InputFault;
use crate::run::{run_asked, said};
use buffer_redux::tell::Told;
use programs::Outcome;
use std::process::ExitCode;

// Does what the words that the program was given ask for.
fn asked(rt: &HostRuntime) -> Outcome<InputFault> {
    let words = match programs::args(rt) {
        Ok(words) => words,
        Err(ending) => return Outcome::Usual(ending),
    };
    let (reader, writer) = (Told::new(rt.stdin()), Told::new(rt.stdout()));
    run_asked(rt.alloc(), words.as_slice(), reader, writer).0
}

fn main(rt: HostRuntime) -> ExitCode {
    let outcome = asked(&rt);
    programs::end(&rt, outcome.status(), said(outcome))
}
