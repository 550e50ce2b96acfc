//! Calls that take memory. `tests/shell.sh` runs them with a refusal at each place in turn: it is told as what it is, and the
//! same call then succeeds over what the refusal left. By itself it meets no refusal but of more than any machine has.
#![tactic(auto)]

mod calls;
mod copies;
mod growths;
mod makers;
mod plays;
mod streams;
mod trial;

use crate::trial::Trial;
use std::alloc::Global;
use std::io;

// All that may meet a refusal.
fn checks(alloc: Global, trial: &mut Trial) {
    makers::blocks(alloc, trial);
    makers::over_streams(alloc, trial);
    makers::of_frames(alloc, trial);
    growths::blocks(alloc, trial);
    growths::twice(alloc, trial);
    growths::limited(alloc, trial);
    growths::pushes(alloc, trial);
    calls::over_placed(alloc, trial);
    calls::from_nothing(alloc, trial);
    calls::each_turn(alloc, trial);
    plays::reads(alloc, trial);
    plays::writes(alloc, trial);
    copies::both_kinds(alloc, trial);
}

fn main(rt: HostRuntime) -> io::Result<()> {
    let mut trial = Trial::new();
    checks(rt.alloc(), &mut trial);
    // These meet refusals of their own.
    if !trial.met {
        makers::huge(rt.alloc(), &mut trial);
    }
    match trial.wrong {
        Some(what) => println!(rt; "wrong: {what}"),
        None if trial.met => println!(rt; "refused"),
        None => println!(rt; "no refusal"),
    }
}
