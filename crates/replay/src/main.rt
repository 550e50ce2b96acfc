//! Plays lists of calls, one a line of standard input, and prints a line of answers for each.
//!
//! A line that begins with `#` is printed as it is. Any other has four parts, with ` | ` between them:
//!
//! 1. `reader`, `handing` or `writer`, `plain` or `ring`, the capacity, `usual` for 8192 that isn't asked for, and the policy:
//!    `std`, of a reader `min N`, of a writer `atleast N`, `exact N`, `on BYTE` or `newline`, or one of `tests_common`, which
//!    the library doesn't know: `greedy`, `never`, `always`, `toomuch` of a writer, `tidy MIN`, `growing`, `limiting LIMIT`,
//!    `fickle`, `halves`, `failsat QUESTION`, of a reader `header` and `copying`. `holds N` in front of the policy puts the
//!    first N bytes into the buffer, and `limit N` in front of that is the greatest capacity. Or it is `buffer`, a bare one,
//!    without a policy.
//! 2. How many bytes the source has. All bytes count up, modulo 256: from 0 those that are held, and on from there those of a
//!    source or of the first write. For a writer it is 0.
//! 3. What the stream inside answers, `-` for nothing: `a` gives or takes all, a number at most so many bytes, `z` is `Ok(0)`,
//!    `i` an `Interrupted`, `e:KIND` an error. Behind that each call gives or takes all.
//! 4. The calls: `Rn` reads n bytes, `F` fills, `Cn` consumes n, `I` reads into the buffer, `Wn` writes n bytes, which count up
//!    from one write to the next, `wHEX` these bytes, `An` n bytes by `write_all`, `L` flushes, `M` makes room, `Vn` reserves n,
//!    and `U`, the last of a writer, is `into_inner`, behind whose Ok no buffer is left. `@N` is no call: the next write counts
//!    from N; nor is `Nn` of a `handing`: its policy looks ahead by n from then on. A bare buffer has `Cn`, `I`, `M`, `Vn`, `Pn`,
//!    which pushes n bytes that count up, `Tn`, which sets its limit, and `T`, which is that.
//!
//! All calls of a `reader`, and all but `U` of a `writer` without an `An`, are played as one list.
//!
//! `sweep` in front of the line of a reader or a writer plays it again and again: with no call of the stream inside going wrong,
//! and with each of them in turn, by `e:Other`, `i`, `i65` (65 times `i`), `z` and `1`; those of a writer are played one by one.
//! After each run what was handed out, and then what is buffered, is compared with what was held, and then given; of a writer
//! what was received, and then what is buffered, with what was held, and then accepted; and the kind of each error, but for a
//! refused growth, with the stream's own. The line of answers is `kept` with how many calls went wrong in all runs, or what is
//! wrong first, as `lost at call 0 by i`: `lost` of bytes, `untold` of errors, `no end` past 1000 calls. `lossy` does the same,
//! and the call behind the one that goes wrong loses a byte, and `silent` keeps an error from the caller, so that `lost` and
//! `untold` can be seen.
//!
//! The line of answers has else:
//!
//! 1. A word for each call: `Cn` a count, `Sn` so many bytes shown, and `=` and these of `handing`, `D` done, `E:KIND` an error,
//!    `X:WHY` a refused growth.
//! 2. How many bytes are buffered then, the usable space, the capacity, and the bytes.
//! 3. How many bytes each read or write of the stream inside was offered, and `f` for a flush of it.
//! 4. Of a writer, the bytes that the one inside took, and of `handing`, a reader too, those that it handed out.
//!
//! Bytes are in hex, more than 64 as `#COUNT:HASH` by the hash FNV-1a of 64 bits, and `-` stands for none. Where the buffer is
//! refused, `X:WHY` is the line. For a line that can't be read or played a line says why, and the status at the end is 2, as
//! for words behind the program's name. It is 1 where standard input or output fails.
#![tactic(auto)]

mod bare;
mod case;
mod parse;
mod play;
mod print;
mod reading;
mod replay;
mod sweep;
mod watched;
mod words;
mod writing;

use crate::replay::{Ending, replay};
use buffer_redux::tell::Told;
use buffer_redux::{BufReader, BufWriter};
use std::io;
use std::process::ExitCode;

fn run(rt: &HostRuntime) -> io::Result<Ending> {
    match programs::args(rt) {
        Ok(words) if words.is_empty() => {}
        Ok(_) | Err(programs::Ending::Usage) => return Ok(Ending::Usage),
        Err(_) => return Err(io::ErrorKind::OutOfMemory.into()),
    }
    let input = BufReader::new(rt.alloc(), Told::new(rt.stdin()))?;
    let mut output = BufWriter::new(rt.alloc(), Told::new(rt.stdout()))?;
    replay(rt.alloc(), input, &mut output)
}

fn main(rt: HostRuntime) -> ExitCode {
    match run(&rt) {
        Ok(Ending::Usage) => programs::end(&rt, 2, "usage: replay < LINES"),
        Ok(ending) => ExitCode::from(ending.status()),
        Err(_) => {
            // There is nowhere left to tell of a fault here.
            let _ = rt.eprintln("replay: read or write failed");
            ExitCode::from(1)
        }
    }
}
