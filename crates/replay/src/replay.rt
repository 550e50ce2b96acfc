//! Lines in, answers out.
ghost use Rattle.std.specs.Prelude.{◌≡◌};

use crate::bare::plays_bare;
use crate::case::{Case, Mode};
use crate::parse::{Unread, case};
use crate::play::{Unplayed, play_case};
use crate::print::refusal_word;
use crate::sweep::sweep;
use crate::watched::{Fault, Lie};
use crate::words::mode;
use std::alloc::Global;
use std::io;
use std::io::{BufRead, ErrorKind, Write};

/// How a replay ends that read and wrote all.
#[derive(Clone, Copy)]
pub enum Ending {
    /// Each line was played.
    AllPlayed,
    /// A line was not.
    SomeUnread,
    /// None was read, since there were words behind the program's name.
    Usage,
}

impl Ending {
    /// The status that the process ends with.
    pub fn status(&self) -> u8
        ensures played { self.now ≡ Ending.AllPlayed → result ≡ 0 }
        ensures unread { self.now ≡ Ending.SomeUnread → result ≡ 2 }
        ensures usage { self.now ≡ Ending.Usage → result ≡ 2 }
    {
        match self {
            Ending::AllPlayed => 0,
            Ending::SomeUnread | Ending::Usage => 2,
        }
    }
}

/// Plays each line of `input`, and writes a line for each to `output`: its answers, or why it has none. A line that begins
/// with `#` is written as it is.
pub fn replay<R: BufRead + Drop, W: Write>(
    alloc: Global,
    input: R,
    output: &mut W,
) -> io::Result<Ending> {
    let mut ending = Ending::AllPlayed;
    let mut number: u64 = 0;
    for line in input.lines(alloc) {
        number = number.saturating_add(1);
        if !is_answered(alloc, number, line, output)? {
            ending = Ending::SomeUnread;
        }
    }
    output.flush()?;
    Ok(ending)
}

// Writes what comes of a line, and says whether that is an answer.
fn is_answered<W: Write>(
    alloc: Global,
    number: u64,
    line: io::Result<String>,
    output: &mut W,
) -> io::Result<bool> {
    match line {
        Ok(line) => answers(alloc, number, line.as_str(), output),
        Err(e) if e.kind() == ErrorKind::InvalidData => {
            writeln!(output, "line {number}: not text")?;
            Ok(false)
        }
        Err(e) => Err(e),
    }
}

fn answers<W: Write>(alloc: Global, number: u64, line: &str, output: &mut W) -> io::Result<bool> {
    match played(alloc, line) {
        Ok(text) => {
            writeln!(output, "{text}")?;
            Ok(true)
        }
        Err(e) => {
            writeln!(output, "line {number}: {e}")?;
            Ok(false)
        }
    }
}

fn played(alloc: Global, line: &str) -> Result<String, Unread<'_>> {
    if line.starts_with('#') {
        return Ok(String::from_str(alloc, line)?);
    }
    let (mode, line) = mode(line);
    let case = case(alloc, line)?;
    match answer(alloc, &case, mode) {
        Ok(text) => Ok(text),
        Err(Unplayed::Refused(e)) => Ok(String::from_str(alloc, refusal_word(e))?),
        Err(Unplayed::Memory) => Err(Unread::Memory),
        Err(Unplayed::Swept) => Err(Unread::Swept),
    }
}

fn answer(alloc: Global, case: &Case, mode: Mode) -> Result<String, Unplayed> {
    let case = match case {
        Case::Stream(case) => case,
        Case::Buffer(case) if matches!(mode, Mode::Once) => return plays_bare(alloc, case),
        Case::Buffer(_) => return Err(Unplayed::Swept),
    };
    match mode {
        Mode::Once => Ok(play_case(alloc, case, Fault::NONE, usize::MAX)?.line),
        Mode::Sweep => sweep(alloc, case, Lie::None),
        Mode::LossySweep => sweep(alloc, case, Lie::Loses),
        Mode::SilentSweep => sweep(alloc, case, Lie::Hides),
    }
}
