//! How calls that go on until all bytes are done take the answer of one turn, and reads until a slice is full.
ghost use Rattle.std.specs.Prelude.{◌≡◌, ◌<◌, ℕ, List, MatchResult, Result, Ok, Err, [], ◌++◌, length};
ghost use Rattle.std.specs.declared.io.Error.{Error};
ghost use Rattle.redux_buffer.specs.Retried.{Retried};
ghost use Rattle.buffer_redux.specs.AllBytes.{EndsBy};
ghost use Rattle.buffer_redux.specs.ReadAll.{FillsSlice, SliceRead, SliceStep};

use redux_buffer::INTERRUPT_LIMIT;
use std::io;
use std::io::ErrorKind;

// How many bytes further such a call goes on after a turn with this answer. Where the turn did nothing, that ends the call
// with an error of the kind `nothing`.
#[inline(always)]
pub(crate) fn progress(answer: io::Result<usize>, nothing: ErrorKind) -> io::Result<usize>
    ensures { MatchResult result (λ n. (answer ≡ Ok n) × (0 < n)) (EndsBy nothing answer) }
{
    match answer {
        Ok(0) => Err(io::Error::from(nothing)),
        Ok(n) => Ok(n),
        Err(e) => Err(e),
    }
}

// A reader that fills slices.
pub trait FillSlice {
    // What a read into a slice does, and what is done where these bytes were handed out.
    ghost reads: { Self → List ℕ → Result ℕ Error → List ℕ → Self → Type 0 };

    ghost handed: { Self → List ℕ → Self → Type 0 };

    // Reads once.
    fn read_once(&mut self, out: &mut [u8]) -> io::Result<usize>
        ensures read { reads self.old out.old result out.new self.new };

    // What a read hands out, and that such bytes join.
    ghost tells: { (s : Self) (was : List ℕ) (answer : Result ℕ Error) (slice : List ℕ) (t : Self) → reads s was answer slice t
        → SliceRead handed s was answer slice t };

    ghost joins: { (s m t : Self) (a b : List ℕ) → handed s a m → handed m b t → handed s (a ++ b) t };
}

// Goes on after the first read into a slice, which returned `answer`: makes it again where it was interrupted, and reads into
// what is left where it was short.
#[inline(always)]
pub(crate) fn fill_on<R: FillSlice>(
    answer: io::Result<usize>,
    reader: &mut R,
    out: &mut [u8],
) -> io::Result<()>
    requires some { 0 < length out.old }
    ensures fills { (s : R) (was : List ℕ) → R.handed s [] s → R.reads s was answer out.old reader.old
        → FillsSlice R.reads R.handed s was result out.new reader.new }
{
    let first = read_behind(answer, reader, out);
    let mut at = progress(first, ErrorKind::UnexpectedEof)?;
    while at < out.len() {
        at += progress(read_row(reader, &mut out[at..]), ErrorKind::UnexpectedEof)?;
    }
    Ok(())
}

// Reads, and again where that was interrupted.
#[inline(always)]
fn read_row<R: FillSlice>(reader: &mut R, out: &mut [u8]) -> io::Result<usize>
    ensures row { Retried (SliceStep R.reads) (reader.old, out.old) result (reader.new, out.new) }
{
    let answer = reader.read_once(out);
    read_behind(answer, reader, out)
}

// The same behind a first read, which returned `answer`.
#[inline(always)]
fn read_behind<R: FillSlice>(
    answer: io::Result<usize>,
    reader: &mut R,
    out: &mut [u8],
) -> io::Result<usize>
    ensures row { (s : R) (was : List ℕ) → R.reads s was answer out.old reader.old
        → Retried (SliceStep R.reads) (s, was) result (reader.new, out.new) }
{
    match answer {
        Ok(n) => Ok(n),
        Err(e) => read_again(e, reader, out),
    }
}

// The same where that failed so.
#[cold]
#[inline(never)]
fn read_again<R: FillSlice>(e: io::Error, reader: &mut R, out: &mut [u8]) -> io::Result<usize>
    ensures row { (s : R) (was : List ℕ) → R.reads s was (Err e) out.old reader.old
        → Retried (SliceStep R.reads) (s, was) result (reader.new, out.new) }
{
    let mut last = e;
    for _ in 0..INTERRUPT_LIMIT {
        if last.kind() != ErrorKind::Interrupted {
            return Err(last);
        }
        match reader.read_once(out) {
            Ok(n) => return Ok(n),
            Err(e) => last = e,
        }
    }
    Err(last)
}
