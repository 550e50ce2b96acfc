//! The storage of a buffer: bytes that were all written, zeros at first.
ghost use Rattle.std.specs.Prelude.{◌≡◌, false, ◌+◌, ◌-◌, ◌^◌, ◌≤◌, ◌<◌, ℕ, List, ◌++◌, length, take, drop, slice_range, replicate, IfOk, IsOk, IsOkUnless, OnOk, OnErr};
ghost use Rattle.std.specs.Borrow.{sem};
ghost use Rattle.redux_buffer.specs.GrowError.{FitsWithin};
ghost use Rattle.redux_buffer.specs.RawLends.{lends_range};

use crate::MAX_CAPACITY;
use crate::grow_error::GrowError;
use std::alloc::Global;
use std::marker::Model;

/// A block of bytes, all of them written: zeros when it is made or grown. Contracts see the list of its bytes.
///
/// ```
/// let mut block = RawBuf::with_capacity(alloc, 2)?;
/// block.as_mut_slice().copy_from_slice(b"ab");
/// assert!(rt; block.as_slice() == b"ab".as_slice());
/// ```
#[derive(Debug, Drop)]
pub struct RawBuf {
    buf: Vec<u8>,
}

impl Model for RawBuf {
    ghost use Rattle.std.specs.Prelude.{ℕ, List, length, ◌≤◌, ◌^◌};

    ghost Value = { List ℕ };

    ghost view = { λ r. r.buf.items };

    ghost invariant = { λ r. length r.buf.items ≤ 2 ^ 62 };
}

impl RawBuf {
    /// A block of `cap` zero bytes; `TooLarge` past [`MAX_CAPACITY`], `Memory` where that was refused.
    pub fn with_capacity(alloc: Global, cap: usize) -> Result<Self, GrowError>
        ensures zeroed { IfOk result (λ r. r ≡ replicate cap 0) }
        ensures limit { FitsWithin result cap (2 ^ 62) }
        ensures succeeds { cap ≡ 0 → IsOk result }
    {
        if cap > MAX_CAPACITY {
            return Err(GrowError::TooLarge);
        }
        let Ok(mut buf) = Vec::with_capacity(alloc, cap) else {
            return Err(GrowError::Memory);
        };
        let Ok(()) = buf.resize(cap, 0) else {
            return Err(GrowError::Memory);
        };
        Ok(RawBuf { buf })
    }

    /// The number of bytes.
    pub fn capacity(&self) -> usize
        ensures value { result ≡ length self.now }
        ensures limit { result ≤ 2 ^ 62 }
    {
        self.buf.len()
    }

    /// The bytes.
    pub fn as_slice(&self) -> &[u8]
        ensures value { result.now ≡ self.now }
        ensures limit { length result.now ≤ 2 ^ 62 }
    {
        self.buf.as_slice()
    }

    /// The bytes, for writing.
    pub fn as_mut_slice(&mut self) -> &mut [u8]
        ensures* writes_back { sem 𝓛 (lends_range self.entry 0 result) }
        ensures value { result.now ≡ self.old }
    {
        self.buf.as_mut_slice()
    }

    // The bytes `start..end`, for writing.
    pub(crate) fn range_mut(&mut self, start: usize, end: usize) -> &mut [u8]
        requires start_le_end { start ≤ end }
        requires in_bounds { end ≤ length self.old }
        ensures* writes_back { sem 𝓛 (lends_range self.entry start result) }
        ensures value { result.now ≡ slice_range self.old start end }
    {
        self.buf.slice_mut(start..end)
    }

    // Writes zeros over the bytes `start..end`.
    pub(crate) fn clear_range(&mut self, start: usize, end: usize)
        requires start_le_end { start ≤ end }
        requires in_bounds { end ≤ length self.old }
        ensures { self.new ≡ take start self.old ++ (replicate (end - start) 0 ++ drop end self.old) }
    {
        self.range_mut(start, end).fill(0);
    }

    // A block of `cap` bytes that begins with the bytes `start..end`. They stay here too.
    pub(crate) fn copy_of(&self, start: usize, end: usize, cap: usize) -> Result<RawBuf, GrowError>
        requires start_le_end { start ≤ end }
        requires in_bounds { end ≤ length self.now }
        requires room { end - start ≤ cap }
        requires limit { cap ≤ 2 ^ 62 }
        ensures copied { IfOk result (λ r. r ≡ slice_range self.now start end ++ replicate (cap - (end - start)) 0) }
        ensures refused { IsOkUnless result GrowError.Memory }
        ensures succeeds { cap ≡ 0 → IsOk result }
    {
        let Ok(mut buf) = Vec::with_capacity(*self.buf.allocator(), cap) else {
            return Err(GrowError::Memory);
        };
        let Ok(()) = buf.extend_from_slice(&self.buf.as_slice()[start..end]) else {
            return Err(GrowError::Memory);
        };
        let Ok(()) = buf.resize(cap, 0) else {
            return Err(GrowError::Memory);
        };
        Ok(RawBuf { buf })
    }

    /// Adds `n` zero bytes at the end. A refusal changes nothing: `TooLarge` past [`MAX_CAPACITY`] in all, `Memory` where that
    /// was refused.
    pub fn reserve(&mut self, n: usize) -> Result<(), GrowError>
        ensures grown { OnOk result (self.new ≡ self.old ++ replicate n 0) }
        ensures unchanged { OnErr result (self.new ≡ self.old) }
        ensures limit { FitsWithin result (length self.old + n) (2 ^ 62) }
        ensures succeeds { n ≡ 0 → IsOk result }
    {
        let len = self.buf.len();
        if n > MAX_CAPACITY - len {
            return Err(GrowError::TooLarge);
        }
        let Ok(()) = self.buf.reserve_exact(n) else {
            return Err(GrowError::Memory);
        };
        let Ok(()) = self.buf.resize(len + n, 0) else {
            return Err(GrowError::Memory);
        };
        Ok(())
    }

    /// Always `false`: a `Vec` can't be asked to grow only where it stands.
    pub fn reserve_in_place(&mut self, _n: usize) -> bool
        ensures never { result ≡ false }
        ensures unchanged { self.new ≡ self.old }
    {
        false
    }
}
