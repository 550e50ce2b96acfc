//! The buffer that pieces go through.
ghost use Rattle.std.specs.Prelude.{◌≡◌, ◌*◌, ◌≤◌, ◌^◌, [], IfErr, IfOk, IsOk};
ghost use Rattle.buffer_redux.specs.Block.{IsBlock, Plain, usable, with_limit};
ghost use Rattle.buffer_redux.specs.GrowError.{FitsWithin};
ghost use Rattle.buffer_redux.specs.MakeError.{growth};
ghost use Rattle.piece_reader.specs.PieceReader.{room_for};

use buffer_redux::{Buffer, GrowError, MakeError};
use std::alloc::Global;

/// An empty plain buffer of `capacity` bytes, or as many as three pieces of at most `most` take where that is more, which no
/// call lets grow. So moving a beginning to the front is paid for by the bytes that were given since it was moved last.
pub fn piece_buffer(alloc: Global, capacity: usize, most: usize) -> Result<Buffer, GrowError>
    ensures empty { IfOk result (λ b. b.bytes ≡ []) }
    ensures usable { IfOk result (λ b. usable b ≡ room_for capacity most) }
    ensures plain { IfOk result (λ b. b.kind ≡ Plain) }
    ensures capacity { IfOk result (λ b. b.capacity ≡ room_for capacity most) }
    ensures limit { IfOk result (λ b. b.limit ≡ room_for capacity most) }
    ensures consumed { IfOk result (λ b. b.consumed ≡ 0) }
    ensures moved { IfOk result (λ b. b.moved ≡ 0) }
    ensures whole { IfOk result IsBlock }
    ensures within { FitsWithin result (room_for capacity most) (2 ^ 62) }
{
    let capacity = capacity.max(most.saturating_mul(3));
    let mut buffer = Buffer::with_capacity(alloc, capacity)?;
    buffer.set_limit(capacity)?;
    Ok(buffer)
}

/// A buffer of yours for pieces of at most `most` bytes: this one, where it is plain and three pieces fit, and else a new one
/// with its bytes. No call lets it grow. A refusal hands it back.
pub fn fit_buffer(
    alloc: Global,
    mut buffer: Buffer,
    most: usize,
) -> Result<Buffer, MakeError<Buffer>>
    ensures bytes { IfOk result (λ b. b.bytes ≡ buffer.bytes) }
    ensures plain { IfOk result (λ b. b.kind ≡ Plain) }
    ensures capacity { IfOk result (λ b. b.capacity ≡ room_for buffer.capacity most) }
    ensures limit { IfOk result (λ b. b.limit ≡ room_for buffer.capacity most) }
    ensures same { IfOk result (λ b. buffer.kind ≡ Plain → 3 * most ≤ buffer.capacity → b ≡ with_limit buffer buffer.capacity) }
    ensures consumed { IfOk result (λ b. b.consumed ≤ buffer.consumed) }
    ensures moved { IfOk result (λ b. b.moved ≤ buffer.moved) }
    ensures whole { IfOk result IsBlock }
    ensures handed_back { IfErr result (λ e. e.0 ≡ buffer) }
    ensures within { FitsWithin (growth result) (room_for buffer.capacity most) (2 ^ 62) }
    ensures kept { buffer.kind ≡ Plain → 3 * most ≤ buffer.capacity → IsOk result }
{
    let capacity = buffer.capacity();
    if !buffer.is_ringbuf() && most.saturating_mul(3) <= capacity {
        return match buffer.set_limit(capacity) {
            Ok(()) => Ok(buffer),
            Err(e) => Err(MakeError(buffer, e)),
        };
    }
    match piece_buffer(alloc, capacity, most) {
        Ok(mut fitted) => {
            fitted.append(buffer.buf());
            Ok(fitted)
        }
        Err(e) => Err(MakeError(buffer, e)),
    }
}
