//! Laws of the buffer, each as the contract of a function over its calls.
ghost use Rattle.std.specs.Prelude.{◌≡◌, ◌+◌, ◌≤◌, [], length, min, take, drop};
ghost use Rattle.redux_buffer.specs.Block.{Ring, IsBlock, OnlyRingMoves, usable};

use crate::buffer::Buffer;

pub mod potential;

/// What is true of every buffer: its bytes and its usable space fit its capacity, which is within its limit; an empty
/// plain buffer and every ring can use all their free space; growths aside, a ring has moved at most what was consumed. It does
/// nothing.
#[inline(always)]
pub fn block_law(buffer: &Buffer)
    ensures { IsBlock buffer.now }
{
    buffer.is_block();
}

/// Growths aside, a ring has moved at most as many bytes as were consumed from it. It does nothing.
#[inline(always)]
pub fn ring_law(buffer: &Buffer)
    ensures { buffer.now.kind ≡ Ring → buffer.now.moved ≤ buffer.now.consumed }
{
    buffer.is_block();
}

/// What is copied into an empty buffer and out of it again are the bytes that fitted. Those that fit only the buffer stay
/// in it.
pub fn copy_through(buffer: &mut Buffer, src: &[u8], out: &mut [u8]) -> usize
    requires { buffer.old.bytes ≡ [] }
    ensures count { result ≡ min (usable buffer.old) (min (length src.now) (length out.old)) }
    ensures bytes { take result out.new ≡ take result src.now }
    ensures rest { drop result out.new ≡ drop result out.old }
    ensures left { buffer.new.bytes ≡ drop result (take (usable buffer.old) src.now) }
    ensures through { buffer.new.consumed ≡ buffer.old.consumed + result }
    ensures capacity { buffer.new.capacity ≡ buffer.old.capacity }
    ensures limit { buffer.new.limit ≡ buffer.old.limit }
    ensures kind { buffer.new.kind ≡ buffer.old.kind }
    ensures moved { OnlyRingMoves buffer.old buffer.new }
    ensures whole { IsBlock buffer.new }
{
    let _ = buffer.copy_from_slice(src);
    buffer.copy_to_slice(out)
}
