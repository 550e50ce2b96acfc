//! Payloads forwarded until there are no more.
ghost use Rattle.std.specs.Prelude.{◌≡◌, ℕ, List, ◌<◌, ◌≤◌, length, true, false, MatchResult};
ghost use Rattle.forward.specs.Forward.{Forwards};
ghost use Rattle.forward.specs.Steps.{ForwardsNext, RowGoes, TakesTurn};

use crate::error::{AskError, Cause, Stopped};
use crate::filter::Filter;
use crate::link::Link;
use redux_buffer::INTERRUPT_LIMIT;
use std::io::ErrorKind;

/// Forwards each payload, in order, until the stream that is read from ends, and returns how many those were, also those that
/// the filter dropped.
///
/// Nothing is held back: before the stream is asked, all that was taken in is sent and flushed. An ask that was interrupted is
/// made again, 64 times in a row, which begins anew where bytes came in one; for all of these the writer is flushed once at
/// most. A flush that is interrupted isn't made again: this ends by `Cause::Write`. An `Err` says which side stopped, and why,
/// and how many payloads were passed on or dropped: where what came was wrong, or a read failed, all that is due was flushed.
/// Behind a read that failed this may be called again, and goes on with what is buffered.
///
/// By a filter of `piece_filter`, with an `Answer` of `uses`:
///
/// ```
/// let source = PieceReader::new(alloc, stream, ByHeader(lengths))?;
/// let target = BufWriter::new(alloc, Told::new(Vec::new(alloc)))?;
/// let mut link = Link::new(Answering::new(source, target, Sifted));
/// let went = forward(&mut link);
/// assert!(rt; matches!(went, Ok(4)));
/// ```
pub fn forward<F: Filter>(link: &mut Link<F>) -> Result<u64, Stopped<F::Wrong>>
    requires ready { F.rules.ready link.old.filter }
    requires fresh { F.rules.fresh link.old.filter }
    ensures forwarded { (payloads : List (List ℕ)) × F.rules.takes link.old.filter payloads link.new.filter
        × MatchResult result (λ count. (length payloads ≡ count) × F.rules.hands link.old.filter payloads link.new.filter)
        (λ stopped. length payloads ≡ stopped.count) }
    ensures forwards { Forwards F.rules link.old result link.new }
{
    for count in 0..u64::MAX {
        match link.pass() {
            Ok(true) => continue,
            Ok(false) => {}
            Err(e) => {
                let cause = Cause::Write(e);
                return Err(Stopped { count, cause });
            }
        }
        match forward_asked(link) {
            Ok(true) => {}
            Ok(false) => return Ok(count),
            Err(cause) => return Err(Stopped { count, cause }),
        }
    }
    Err(Stopped {
        count: u64::MAX,
        cause: Cause::Count,
    })
}

// Forwards the next payload where none is there, and returns whether there was one: all that was taken in is sent and flushed,
// and then it is asked for.
#[inline(always)]
fn forward_asked<F: Filter>(link: &mut Link<F>) -> Result<bool, Cause<F::Wrong>>
    requires ready { F.rules.ready link.old.filter }
    requires lacks { F.rules.lacks link.old.filter }
    ensures { ForwardsNext F.rules link.old result link.new }
{
    if let Err(e) = link.flush() {
        return Err(Cause::Write(e));
    }
    match ask_retried(link) {
        Ok(true) => match link.pass() {
            Ok(passed) => Ok(passed),
            Err(e) => Err(Cause::Write(e)),
        },
        Ok(false) => Ok(false),
        Err(AskError::Wrong(why)) => Err(Cause::Wrong(why)),
        Err(AskError::Io(e)) => Err(Cause::Read(e)),
        Err(AskError::IoBehind(e)) => Err(Cause::Read(e)),
    }
}

// Asks for a payload. Of asks that are interrupted in a row the 65th ends it; one in which bytes came is the first of a row.
#[inline(always)]
fn ask_retried<F: Filter>(link: &mut Link<F>) -> Result<bool, AskError<F::Wrong>>
    requires ready { F.rules.ready link.old.filter }
    requires lacks { F.rules.lacks link.old.filter }
    requires sent { F.rules.sent link.old.filter }
    ensures { TakesTurn F.rules link.old result link.new }
{
    let mut row = 0;
    'tries: loop {
        let answer = link.ask();
        match interruptions_with(&answer, row) {
            Some(with) => row = with,
            None => return answer,
        }
    }
}

// How many asks in a row were interrupted with this one, where so many were before; `None` where it isn't made again.
#[inline(always)]
fn interruptions_with<W>(answer: &Result<bool, AskError<W>>, row: u32) -> Option<u32>
    ensures { RowGoes answer.now row result }
{
    match answer {
        Err(AskError::Io(e)) if e.kind() == ErrorKind::Interrupted && row < INTERRUPT_LIMIT => {
            Some(row + 1)
        }
        Err(AskError::IoBehind(e)) if e.kind() == ErrorKind::Interrupted => Some(1),
        _ => None,
    }
}
