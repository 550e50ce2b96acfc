//! Copies standard input to standard output through buffers.
//!
//! What is buffered is sent where the buffer is full, and at the end. So in a live pipe, as behind `tail -f`, take `bufcopy 1`,
//! which sends byte by byte, or `cat`.
#![tactic(auto)]

use buffer_redux::tell::Told;
use copier::run::{run_asked, said};
use programs::Ending;
use std::process::ExitCode;

// Copies as the words that the program was given ask for.
fn outcome(rt: &HostRuntime) -> Ending {
    let words = match programs::args(rt) {
        Ok(words) => words,
        Err(ending) => return ending,
    };
    let (reader, writer) = (Told::new(rt.stdin()), Told::new(rt.stdout()));
    run_asked(rt.alloc(), words.as_slice(), reader, writer).0
}

fn main(rt: HostRuntime) -> ExitCode {
    let ending = outcome(&rt);
    programs::end(&rt, ending.status(), said(ending))
}
