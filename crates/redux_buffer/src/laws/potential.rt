//! What each call does to the potential of a plain buffer: the bytes that it has moved, and how far its bytes reach beyond
//! a number of places, whatever that number is.
//!
//! Only bytes that are appended raise it, and `make_room` where it doesn't pay. So who makes room only where it pays moves
//! no more bytes than were appended.
//!
//! Each function is its call, and says beside that what became of the bytes.
ghost use Rattle.std.specs.Prelude.{◌≡◌, ◌*◌, ◌≤◌, ℕ, ◌++◌, length, min, take, drop, MatchResult, IfErr, OnOk, OnErr, IsOk, IsOkUnless};
ghost use Rattle.redux_buffer.specs.Block.{Plain, ConsumesFirst, Clears, Reserves, Extends, PushesBytes};
ghost use Rattle.redux_buffer.specs.Block.{MakesRoom, usable, capacity_for, capacity_to_push, limit_of, with_limit};
ghost use Rattle.redux_buffer.specs.GrowError.{FitsWithin};
ghost use Rattle.redux_buffer.specs.Potential.{PlainRises, potential};
ghost use Rattle.redux_buffer.specs.Transfer.{FailedRow, ReadsFrom, WritesTo, Sends};

use crate::buffer::Buffer;
use crate::grow_error::GrowError;
use crate::tell::{TellRead, TellWrite};
use std::io;

/// Dropping bytes doesn't raise the potential.
pub fn consume(buffer: &mut Buffer, n: usize)
    ensures potential { PlainRises 0 buffer.old buffer.new }
    ensures bytes { ConsumesFirst n buffer.old buffer.new }
{
    buffer.consume(n);
}

/// Copying bytes out doesn't raise it.
pub fn copy_to_slice(buffer: &mut Buffer, out: &mut [u8]) -> usize
    ensures potential { PlainRises 0 buffer.old buffer.new }
    ensures count { result ≡ min (length buffer.old.bytes) (length out.old) }
    ensures copied { out.new ≡ take result buffer.old.bytes ++ drop result out.old }
    ensures bytes { ConsumesFirst result buffer.old buffer.new }
{
    buffer.copy_to_slice(out)
}

/// Dropping all bytes doesn't raise it.
pub fn clear(buffer: &mut Buffer)
    ensures potential { PlainRises 0 buffer.old buffer.new }
    ensures bytes { Clears buffer.old buffer.new }
{
    buffer.clear();
}

/// A growth doesn't raise it, nor one that is refused.
pub fn reserve(buffer: &mut Buffer, additional: usize) -> Result<(), GrowError>
    ensures potential { PlainRises 0 buffer.old buffer.new }
    ensures grown { OnOk result (Reserves additional buffer.old buffer.new) }
    ensures unchanged { OnErr result (buffer.new ≡ buffer.old) }
    ensures limit { FitsWithin result (capacity_for buffer.old additional) buffer.old.limit }
    ensures succeeds { additional ≤ usable buffer.old → IsOk result }
{
    buffer.reserve(additional)
}

/// A limit doesn't raise it, nor one that is refused.
pub fn set_limit(buffer: &mut Buffer, limit: usize) -> Result<(), GrowError>
    ensures potential { PlainRises 0 buffer.old buffer.new }
    ensures set { OnOk result (buffer.new ≡ with_limit buffer.old (min limit (limit_of buffer.old.kind))) }
    ensures unchanged { OnErr result (buffer.new ≡ buffer.old) }
    ensures below { FitsWithin result buffer.old.capacity limit }
    ensures refused { IsOkUnless result GrowError.TooLarge }
{
    buffer.set_limit(limit)
}

/// Appending raises it by at most the bytes that were appended.
pub fn copy_from_slice(buffer: &mut Buffer, src: &[u8]) -> usize
    ensures potential { PlainRises result buffer.old buffer.new }
    ensures count { result ≡ min (usable buffer.old) (length src.now) }
    ensures bytes { Extends (take result src.now) buffer.old buffer.new }
{
    buffer.copy_from_slice(src)
}

/// Pushing raises it by at most the bytes that were pushed, also where the buffer grows for them, and a refusal not at all.
pub fn push_bytes(buffer: &mut Buffer, b: &[u8]) -> Result<(), GrowError>
    ensures potential { MatchResult result
        (λ _. PlainRises (length b.now) buffer.old buffer.new) (λ _. PlainRises 0 buffer.old buffer.new) }
    ensures pushed { OnOk result (PushesBytes b.now buffer.old buffer.new) }
    ensures unchanged { OnErr result (buffer.new ≡ buffer.old) }
    ensures limit { FitsWithin result (capacity_to_push buffer.old b.now) buffer.old.limit }
    ensures succeeds { length b.now ≤ usable buffer.old → IsOk result }
{
    buffer.push_bytes(b)
}

/// Reading raises it by at most the bytes that came, and a fault not at all.
pub fn read_from<R: TellRead>(buffer: &mut Buffer, rdr: &mut R) -> io::Result<usize>
    ensures potential { MatchResult result
        (λ n. PlainRises n buffer.old buffer.new) (λ _. PlainRises 0 buffer.old buffer.new) }
    ensures read { ReadsFrom buffer.old (R.log rdr.old) result buffer.new (R.log rdr.new) }
    ensures not_asked { usable buffer.old ≡ 0 → rdr.new ≡ rdr.old }
{
    buffer.read_from(rdr)
}

/// A write of all bytes doesn't raise it, whatever is taken of them.
pub fn write_to<W: TellWrite>(buffer: &mut Buffer, wrt: &mut W) -> io::Result<usize>
    ensures potential { PlainRises 0 buffer.old buffer.new }
    ensures wrote { WritesTo buffer.old (W.log wrt.old) result buffer.new (W.log wrt.new) }
    ensures not_asked { length buffer.old.bytes ≡ 0 → wrt.new ≡ wrt.old }
    ensures trace { W.trace wrt.old wrt.new }
{
    buffer.write_to(wrt)
}

/// Sending the first bytes doesn't raise it.
pub fn write_max<W: TellWrite>(buffer: &mut Buffer, max: usize, wrt: &mut W) -> io::Result<()>
    ensures potential { PlainRises 0 buffer.old buffer.new }
    ensures sent { Sends max buffer.old (W.log wrt.old) result buffer.new (W.log wrt.new) }
    ensures row { IfErr result (λ e. FailedRow W.log W.trace e wrt.old wrt.new) }
    ensures trace { W.trace wrt.old wrt.new }
{
    buffer.write_max(max, wrt)
}

/// Sending all bytes doesn't raise it.
pub fn write_all<W: TellWrite>(buffer: &mut Buffer, wrt: &mut W) -> io::Result<()>
    ensures potential { PlainRises 0 buffer.old buffer.new }
    ensures sent { Sends (length buffer.old.bytes) buffer.old (W.log wrt.old) result
        buffer.new (W.log wrt.new) }
    ensures row { IfErr result (λ e. FailedRow W.log W.trace e wrt.old wrt.new) }
    ensures trace { W.trace wrt.old wrt.new }
{
    buffer.write_all(wrt)
}

/// Making room doesn't raise it where that pays: the capacity is at least three times the number, and no more than the
/// number is buffered, nor fits behind what is.
pub fn make_room(buffer: &mut Buffer)
    ensures potential { (keep : ℕ) → 3 * keep ≤ buffer.old.capacity → length buffer.old.bytes ≤ keep
        → usable buffer.old ≤ keep → buffer.old.kind ≡ Plain → potential keep buffer.new ≤ potential keep buffer.old }
    ensures bytes { MakesRoom buffer.old buffer.new }
{
    buffer.make_room();
}
