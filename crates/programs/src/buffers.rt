//! The buffers of a run.
ghost use Rattle.std.specs.Prelude.{◌≡◌, ◌+◌, ◌<◌, ◌≤◌, [], ◌++◌, length, IfOk, IfErr, OnErr, OnOk, MatchResult, Ok};
ghost use Rattle.buffer_redux.specs.Block.{IsNew, MakesRoom, Plain, usable};
ghost use Rattle.buffer_redux.specs.Buffered.{Buffered, with_block};
ghost use Rattle.buffer_redux.specs.BufWriter.{WasSent, WritesInOrder};
ghost use Rattle.buffer_redux.specs.declared.policy.StdPolicy.{StdPolicy};
ghost use Rattle.buffer_redux.specs.Faults.{MetInterrupts, SendErrorCaused};
ghost use Rattle.programs.specs.Streams.{RefusedBeforeCalls, capacity_asked, kind_asked};
ghost use Rattle.programs.specs.TakenIn.{TakesAll};

use buffer_redux::tell::{TellRead, TellWrite};
use buffer_redux::{BufReader, BufWriter, Buffer, GrowError, MakeError};
use std::alloc::Global;
use std::io;

/// The greatest capacity of a buffer, in bytes.
pub const GREATEST_CAPACITY: usize = 1048576;

/// A buffered reader and a buffered writer of these capacities over the two streams, of rings the next multiples of 4096. Where
/// one is refused, both streams come back, and none was called.
pub fn buffered<R: TellRead, W: TellWrite>(
    alloc: Global,
    ring: bool,
    capacities: (usize, usize),
    reader: R,
    writer: W,
) -> Result<(BufReader<R>, BufWriter<W>), (io::Error, R, W)>
    requires source { capacities.0 ≤ GREATEST_CAPACITY }
    requires target { capacities.1 ≤ GREATEST_CAPACITY }
    ensures source { IfOk result (λ b. IsNew (kind_asked ring) (capacity_asked ring capacities.0) b.0.block) }
    ensures target { IfOk result (λ b. IsNew (kind_asked ring) (capacity_asked ring capacities.1) b.1.block) }
    ensures reader { IfOk result (λ b. b.0.inner ≡ reader) }
    ensures writer { IfOk result (λ b. b.1.inner ≡ writer) }
    ensures read { IfOk result (λ b. b.0.log ≡ R.log reader) }
    ensures written { IfOk result (λ b. b.1.log ≡ W.log writer) }
    ensures refused { IfErr result (λ e. RefusedBeforeCalls e.0 (R.log reader) (R.log e.1) (W.log writer) (W.log e.2)) }
{
    let source = match new_buffer(alloc, ring, capacities.0) {
        Ok(source) => source,
        Err(e) => return Err((e.into(), reader, writer)),
    };
    match buffered_writer(alloc, ring, capacities.1, writer) {
        Ok(target) => Ok((BufReader::with_buffer(source, reader), target)),
        Err(MakeError(writer, e)) => Err((e.into(), reader, writer)),
    }
}

/// A buffered writer of this capacity, of a ring the next multiple of 4096.
pub fn buffered_writer<W: TellWrite>(
    alloc: Global,
    ring: bool,
    cap: usize,
    writer: W,
) -> Result<BufWriter<W>, MakeError<W>>
    requires { cap ≤ GREATEST_CAPACITY }
    ensures made { IfOk result (λ w. IsNew (kind_asked ring) (capacity_asked ring cap) w.block) }
    ensures inner { IfOk result (λ w. w.inner ≡ writer) }
    ensures log { IfOk result (λ w. w.log ≡ W.log writer) }
    ensures handed_back { IfErr result (λ e. e.0 ≡ writer) }
    ensures refused { IfErr result (λ e. e.1 ≡ GrowError.Memory) }
{
    match new_buffer(alloc, ring, cap) {
        Ok(target) => Ok(BufWriter::with_buffer(target, writer)),
        Err(e) => Err(MakeError(writer, e)),
    }
}

fn new_buffer(alloc: Global, ring: bool, cap: usize) -> Result<Buffer, GrowError>
    requires { cap ≤ GREATEST_CAPACITY }
    ensures made { IfOk result (IsNew (kind_asked ring) (capacity_asked ring cap)) }
    ensures refused { IfErr result (λ e. e ≡ GrowError.Memory) }
{
    if ring {
        Buffer::with_capacity_ringbuf(alloc, cap)
    } else {
        Buffer::with_capacity(alloc, cap)
    }
}

/// Takes in the first bytes, and then the second, for which the buffer has room: all of them, or none where sending failed. Where
/// they don't fit behind what is buffered, that is sent before, once. Nothing is flushed.
///
/// An interrupted write is answered only behind `INTERRUPT_LIMIT` others.
#[inline(always)]
pub fn put_all<W: TellWrite>(
    target: &mut BufWriter<W>,
    first: &[u8],
    second: &[u8],
) -> io::Result<()>
    requires plain { target.old.block.kind ≡ Plain }
    requires inside { length first.now + length second.now ≤ target.old.block.capacity }
    ensures in_order { OnOk result (WritesInOrder target.old (first.now ++ second.now) target.new) }
    ensures none { OnErr result (WritesInOrder target.old [] target.new) }
    ensures kind { target.new.block.kind ≡ target.old.block.kind }
    ensures capacity { target.new.block.capacity ≡ target.old.block.capacity }
    ensures takes { TakesAll (length first.now + length second.now) (λ _. ⊥) target.old (first.now ++ second.now) result
        target.new }
{
    make_room(target, first.len() + second.len())?;
    target.put(first);
    target.put(second);
    Ok(())
}

// Sends all that is buffered where so many more bytes don't fit, and makes all free space usable. Nothing is flushed.
// An interrupted write is answered only behind `INTERRUPT_LIMIT` others in a row.
fn make_room<W: TellWrite>(target: &mut BufWriter<W>, whole: usize) -> io::Result<()>
    requires plain { target.old.block.kind ≡ Plain }
    requires inside { whole ≤ target.old.block.capacity }
    ensures none { WritesInOrder target.old [] target.new }
    ensures not_flushed { target.new.log.writes.flushed ≡ target.old.log.writes.flushed }
    ensures flushes { target.new.log.writes.flushes ≡ target.old.log.writes.flushes }
    ensures room { OnOk result (whole ≤ usable target.new.block) }
    ensures met { OnOk result (MetInterrupts target.old.log.writes target.new.log.writes) }
    ensures caused { IfErr result (λ e. SendErrorCaused target.old.log.writes target.new.log.writes e) }
    ensures kind { target.new.block.kind ≡ target.old.block.kind }
    ensures capacity { target.new.block.capacity ≡ target.old.block.capacity }
    ensures fits { length target.old.block.bytes + whole ≤ target.old.block.capacity → (result ≡ Ok tt)
        × MakesRoom target.old.block target.new.block × (target.new ≡ with_block target.old target.new.block) }
    ensures sends { target.old.block.capacity < length target.old.block.bytes + whole → (m : Buffered W StdPolicy)
        × WasSent W.log W.trace target.old result m × MatchResult result
        (λ _. MakesRoom m.block target.new.block × (target.new ≡ with_block m target.new.block)) (λ _. target.new ≡ m) }
{
    if target.capacity() - target.buf_len() < whole {
        target.send()?;
    }
    target.make_room();
    Ok(())
}
