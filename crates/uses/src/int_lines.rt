//! Reads the numbers of a text, one on each line.
ghost use Rattle.std.specs.Prelude.{◌≡◌, ◌<◌, ◌^◌, ℕ, IfOk, IfErr, vec_items};
ghost use Rattle.std.specs.IoError.{error_kind};
ghost use Rattle.std.specs.declared.io.ErrorKind.TheVariants.{InvalidData};
ghost use Rattle.uses.specs.IntLines.{ReadsAsNumber, AreNumbers, AreKnownNumbers};

use buffer_redux::BufReader;
use buffer_redux::tell::Told;
use std::alloc::Global;
use std::io;
use std::io::{BufRead, ErrorKind};

/// The numbers of a text, through a buffer.
pub fn numbers_in(alloc: Global, text: &[u8]) -> io::Result<Vec<u64>>
    ensures { IfOk result (λ v. AreNumbers text.now (vec_items v)) }
{
    read_numbers(alloc, BufReader::new(alloc, Told::new(text))?)
}

/// The number on each line that a reader has left.
pub fn read_numbers<R: BufRead + Drop>(alloc: Global, reader: R) -> io::Result<Vec<u64>>
    ensures { IfOk result (λ v. AreKnownNumbers (R.remaining reader) (vec_items v)) }
{
    let mut numbers = Vec::new(alloc);
    let mut lines = reader.lines(alloc);
    for _turn in 0..u64::MAX {
        match lines.next() {
            None => return Ok(numbers),
            Some(line) => numbers.push(number_of(line?.as_str())?)?,
        }
    }
    Err(io::Error::from(ErrorKind::Other))
}

// The number that a line tells.
fn number_of(line: &str) -> io::Result<u64>
    ensures number { IfOk result (ReadsAsNumber line.now) }
    ensures refused { IfErr result (λ e. (error_kind e ≡ InvalidData)
        × ((n : ℕ) → n < 2 ^ 64 → ¬ (ReadsAsNumber line.now n))) }
{
    match line.parse::<u64>() {
        Ok(n) => Ok(n),
        Err(_) => Err(io::Error::from(ErrorKind::InvalidData)),
    }
}
