//! The steps of a reader of a body, over the buffered reader.
ghost use Rattle.std.specs.Prelude.{[], ◌≡◌, ℕ, ◌-◌, ◌<◌, ◌≤◌, drop, length, min, take, IfOk};
ghost use Rattle.buffer_redux.specs.Buffered.{GoesPast};
ghost use Rattle.buffer_redux.specs.BufReader.{ReaderConsumes};
ghost use Rattle.body_reader.specs.Coding.{Carries, IsKnown, Looks};
ghost use Rattle.body_reader.specs.Between.{BeginsRead, FindsKnown, HandsOn, HandsShown, LeavesRest, LooksNext, PassesOn, ShowsOn, SkipsOn, TakesFront};

use crate::coding::{Coding, Look};
use crate::error::BodyError;
use crate::progress::Progress;
use buffer_redux::BufReader;
use buffer_redux::policy::ReaderPolicy;
use buffer_redux::tell::TellRead;
use std::io::{BufRead, Read};

/// Takes what is buffered and no payload, and says what comes next. Nobody is asked.
pub(crate) fn pass<R: TellRead, P: ReaderPolicy, C: Coding>(
    reader: &mut BufReader<R, P>,
    coding: &C,
    progress: &mut Progress<C::Place>,
) -> Look<C::Place, C::Wrong>
    requires place { (C.grammar coding.now).is_place progress.old.place }
    ensures passes { PassesOn R.remaining P.rules (C.grammar coding.now) reader.old progress.old reader.new progress.new }
    ensures next { LooksNext (C.grammar coding.now) progress.new.place reader.new.block.bytes result }
{
    loop {
        let look = coding.look(progress.place, reader.buffer());
        match look {
            Look::Passed(count, next) => {
                progress.take(next, &reader.buffer()[..count]);
                reader.consume(count);
            }
            _ => return look,
        }
    }
}

/// Takes what is no payload behind a look, and returns how many bytes of payload come next: 0 where the body ended.
#[inline(always)]
#[tactic(auto, using(crate::proofs::Skipping::skips_told))]
pub(crate) fn skip<R: TellRead, P: ReaderPolicy, C: Coding>(
    reader: &mut BufReader<R, P>,
    coding: &C,
    progress: &mut Progress<C::Place>,
    mut look: Look<C::Place, C::Wrong>,
) -> Result<u64, BodyError<C::Wrong>>
    requires place { (C.grammar coding.now).is_place progress.old.place }
    requires room { (C.grammar coding.now).ahead ≤ reader.old.block.capacity }
    requires next { LooksNext (C.grammar coding.now) progress.old.place reader.old.block.bytes look }
    ensures { (slice : ℕ) → SkipsOn R.remaining P.rules (C.grammar coding.now) slice reader.old progress.old result reader.new
        progress.new }
{
    loop {
        match look {
            Look::Payload(sure) => return Ok(sure),
            Look::More(need) => {
                let shown = reader.peek(need)?.len();
                if shown < need {
                    return Err(BodyError::Truncated(progress.count));
                }
            }
            Look::Wrong(why) => return Err(BodyError::Wrong(why, progress.count)),
            Look::Ended => return Ok(0),
            Look::Passed(_, _) => unreachable!(),
        }
        look = pass(reader, coding, progress);
    }
}

/// Has some byte of payload buffered, of which the next `sure` bytes are, and returns how many are buffered.
// One read is a look at a byte ahead too, and has one answer less.
#[inline(always)]
pub(crate) fn show<R: TellRead, P: ReaderPolicy, C: Coding>(
    reader: &mut BufReader<R, P>,
    coding: &C,
    progress: &Progress<C::Place>,
    sure: u64,
) -> Result<usize, BodyError<C::Wrong>>
    requires place { (C.grammar coding.now).is_place progress.now.place }
    requires room { (C.grammar coding.now).ahead ≤ reader.old.block.capacity }
    requires sure { Looks (C.grammar coding.now) progress.now.place reader.old.block.bytes (Look.Payload sure) }
    ensures { (slice : ℕ) → (reader.old.block.bytes ≡ [] → min sure slice ≤ reader.old.block.capacity)
        → ShowsOn R.remaining P.rules (C.grammar coding.now) slice reader.old progress.now result reader.new progress.now }
{
    let held = reader.buf_len();
    if held > 0 {
        return Ok(sure.min(held as u64) as usize);
    }
    match reader.read_into_buf() {
        Ok(0) => Err(BodyError::Truncated(progress.count)),
        Ok(came) => Ok(sure.min(came as u64) as usize),
        Err(e) => Err(BodyError::Io(e)),
    }
}

/// Has payload buffered, and returns how much: none only where the body ended.
pub(crate) fn fill_on<R: TellRead, P: ReaderPolicy, C: Coding>(
    reader: &mut BufReader<R, P>,
    coding: &C,
    progress: &mut Progress<C::Place>,
) -> Result<usize, BodyError<C::Wrong>>
    requires place { (C.grammar coding.now).is_place progress.old.place }
    requires room { (C.grammar coding.now).ahead ≤ reader.old.block.capacity }
    ensures { ShowsOn R.remaining P.rules (C.grammar coding.now) 0 reader.old progress.old result reader.new progress.new }
{
    let look = pass(reader, coding, progress);
    let sure = skip(reader, coding, progress, look)?;
    if sure == 0 {
        return Ok(0);
    }
    show(reader, coding, progress, sure)
}

/// Proceeds on behind the first `count` bytes, of which the first `known` are payload.
pub(crate) fn take_front<R: TellRead, P: ReaderPolicy, C: Coding>(
    reader: &mut BufReader<R, P>,
    coding: &C,
    progress: &mut Progress<C::Place>,
    known: &mut usize,
    count: usize,
)
    requires place { (C.grammar coding.now).is_place progress.old.place }
    requires known { IsKnown (C.grammar coding.now) progress.old.place known.old reader.old.block.bytes }
    requires some { 0 < count }
    requires few { count ≤ known.old }
    ensures { TakesFront R.remaining P.rules (C.grammar coding.now) count reader.old progress.old known.old reader.new
        progress.new known.new }
{
    let shown = &reader.buffer()[..count];
    let behind = coding.behind(progress.place, shown);
    progress.take(behind, shown);
    reader.consume(count);
    *known -= count;
}

/// Hands out of the first `known` bytes, which are payload.
pub(crate) fn hand_out<R: TellRead, P: ReaderPolicy, C: Coding>(
    reader: &mut BufReader<R, P>,
    coding: &C,
    progress: &mut Progress<C::Place>,
    known: &mut usize,
    out: &mut [u8],
) -> usize
    requires place { (C.grammar coding.now).is_place progress.old.place }
    requires known { IsKnown (C.grammar coding.now) progress.old.place known.old reader.old.block.bytes }
    requires some { 0 < known.old }
    requires room { 0 < length out.old }
    ensures count { result ≡ min known.old (length out.new) }
    ensures bytes { take result out.new ≡ take result reader.old.block.bytes }
    ensures rest { drop result out.new ≡ drop result out.old }
    ensures took { TakesFront R.remaining P.rules (C.grammar coding.now) result reader.old progress.old known.old reader.new
        progress.new known.new }
{
    let count = (*known).min(out.len());
    out[..count].copy_from_slice(&reader.buffer()[..count]);
    take_front(reader, coding, progress, known, count);
    count
}

/// Reads past the buffer of payload, of which the next `most` bytes are.
#[inline(never)]
pub(crate) fn read_past<R: TellRead, P: ReaderPolicy, C: Coding>(
    reader: &mut BufReader<R, P>,
    coding: &C,
    progress: &mut Progress<C::Place>,
    most: usize,
    out: &mut [u8],
) -> Result<usize, BodyError<C::Wrong>>
    requires place { (C.grammar coding.now).is_place progress.old.place }
    requires sure { Carries (C.grammar coding.now) progress.old.place most reader.old.block.bytes }
    requires past { GoesPast reader.old.block most }
    requires room { most ≤ length out.old }
    requires offers { min (length out.old) ((C.grammar coding.now).sure progress.old.place) ≤ most }
    ensures { (known : ℕ) → known ≡ 0 → HandsOn R.remaining P.rules (C.grammar coding.now) known reader.old progress.old out.new
        result reader.new progress.new known }
{
    let count = reader.read(&mut out[..most])?;
    if count == 0 {
        return Err(BodyError::Truncated(progress.count));
    }
    let behind = coding.behind(progress.place, &out[..count]);
    progress.take(behind, &out[..count]);
    Ok(count)
}

/// Hands out payload, of which the next `sure` bytes are.
#[inline(always)]
pub(crate) fn read_sure<R: TellRead, P: ReaderPolicy, C: Coding>(
    reader: &mut BufReader<R, P>,
    coding: &C,
    progress: &mut Progress<C::Place>,
    known: &mut usize,
    sure: u64,
    out: &mut [u8],
) -> Result<usize, BodyError<C::Wrong>>
    requires begins { BeginsRead (C.grammar coding.now) reader.old progress.old known.old out.old }
    requires sure { Looks (C.grammar coding.now) progress.old.place reader.old.block.bytes (Look.Payload sure) }
    ensures hands { HandsOn R.remaining P.rules (C.grammar coding.now) known.old reader.old progress.old out.new result
        reader.new progress.new known.new }
    ensures known { IsKnown (C.grammar coding.now) progress.new.place known.new reader.new.block.bytes }
    ensures rest { LeavesRest reader.old.block.capacity out.old result out.new }
{
    let most = sure.min(out.len() as u64) as usize;
    if most >= reader.capacity() && reader.buf_len() == 0 {
        return read_past(reader, coding, progress, most, out);
    }
    *known = show(reader, coding, progress, sure)?;
    Ok(hand_out(reader, coding, progress, known, out))
}

// Hands out payload behind a look, where the stream may have to be asked. A call of its own, so that what it answers is cleared
// there alone.
#[inline(never)]
fn read_slowly<R: TellRead, P: ReaderPolicy, C: Coding>(
    reader: &mut BufReader<R, P>,
    coding: &C,
    progress: &mut Progress<C::Place>,
    known: &mut usize,
    look: Look<C::Place, C::Wrong>,
    out: &mut [u8],
) -> Result<usize, BodyError<C::Wrong>>
    requires begins { BeginsRead (C.grammar coding.now) reader.old progress.old known.old out.old }
    requires next { LooksNext (C.grammar coding.now) progress.old.place reader.old.block.bytes look }
    ensures hands { HandsOn R.remaining P.rules (C.grammar coding.now) known.old reader.old progress.old out.new result
        reader.new progress.new known.new }
    ensures known { IsKnown (C.grammar coding.now) progress.new.place known.new reader.new.block.bytes }
    ensures rest { LeavesRest reader.old.block.capacity out.old result out.new }
{
    let sure = skip(reader, coding, progress, look)?;
    if sure == 0 {
        return Ok(0);
    }
    read_sure(reader, coding, progress, known, sure, out)
}

/// Hands out payload, at least a byte unless the body ended or the slice is empty.
pub(crate) fn read_on<R: TellRead, P: ReaderPolicy, C: Coding>(
    reader: &mut BufReader<R, P>,
    coding: &C,
    progress: &mut Progress<C::Place>,
    known: &mut usize,
    out: &mut [u8],
) -> Result<usize, BodyError<C::Wrong>>
    requires place { (C.grammar coding.now).is_place progress.old.place }
    requires room { (C.grammar coding.now).ahead ≤ reader.old.block.capacity }
    requires held { IsKnown (C.grammar coding.now) progress.old.place known.old reader.old.block.bytes }
    ensures hands { HandsOn R.remaining P.rules (C.grammar coding.now) known.old reader.old progress.old out.new result
        reader.new progress.new known.new }
    ensures known { IsKnown (C.grammar coding.now) progress.new.place known.new reader.new.block.bytes }
    ensures rest { LeavesRest reader.old.block.capacity out.old result out.new }
    ensures left { 0 < known.old → IfOk result (λ n. (n ≡ min known.old (length out.new)) × (known.new ≡ known.old - n)) }
    ensures consumed { 0 < known.old → IfOk result (λ n. 0 < n → ReaderConsumes P.rules n reader.old reader.new) }
{
    if out.is_empty() {
        return Ok(0);
    }
    if let Some(look) = find_known(reader, coding, progress, known) {
        return match look {
            Look::Payload(sure) => read_sure(reader, coding, progress, known, sure, out),
            Look::Ended => Ok(0),
            _ => read_slowly(reader, coding, progress, known, look, out),
        };
    }
    Ok(hand_out(reader, coding, progress, known, out))
}

/// Knows what payload is buffered behind what is none, unless some is known, or says what comes in its place. Nobody is asked.
#[inline(always)]
#[tactic(auto, using(crate::proofs::Showing::known_found, crate::proofs::Showing::none_found))]
pub(crate) fn find_known<R: TellRead, P: ReaderPolicy, C: Coding>(
    reader: &mut BufReader<R, P>,
    coding: &C,
    progress: &mut Progress<C::Place>,
    known: &mut usize,
) -> Option<Look<C::Place, C::Wrong>>
    requires place { (C.grammar coding.now).is_place progress.old.place }
    requires known { IsKnown (C.grammar coding.now) progress.old.place known.old reader.old.block.bytes }
    ensures { FindsKnown R.remaining P.rules (C.grammar coding.now) reader.old progress.old known.old result reader.new
        progress.new known.new }
{
    if *known > 0 {
        return None;
    }
    let look = pass(reader, coding, progress);
    let held = reader.buf_len();
    match look {
        Look::Payload(sure) => {
            if held == 0 {
                return Some(look);
            }
            *known = sure.min(held as u64) as usize;
            None
        }
        _ => Some(look),
    }
}

/// Hands out payload that is buffered. Nobody is asked.
pub(crate) fn hand_buffered<R: TellRead, P: ReaderPolicy, C: Coding>(
    reader: &mut BufReader<R, P>,
    coding: &C,
    progress: &mut Progress<C::Place>,
    known: &mut usize,
    out: &mut [u8],
) -> usize
    requires place { (C.grammar coding.now).is_place progress.old.place }
    requires known { IsKnown (C.grammar coding.now) progress.old.place known.old reader.old.block.bytes }
    ensures hands { HandsShown R.remaining P.rules (C.grammar coding.now) reader.old progress.old known.old out.new result
        reader.new progress.new known.new }
    ensures rest { drop result out.new ≡ drop result out.old }
{
    let mut handed = 0;
    while handed < out.len() {
        if let Some(_) = find_known(reader, coding, progress, known) {
            return handed;
        }
        handed += hand_out(reader, coding, progress, known, &mut out[handed..]);
    }
    handed
}
