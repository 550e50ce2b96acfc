//! The ring.
ghost use Rattle.std.specs.Prelude.{◌≡◌, [], true, false, ◌+◌, ◌-◌, ◌^◌, ◌≤◌, ◌<◌, ◌↔◌, ◌++◌, length, min, take, drop, nat_le, IsTrue, IfOk, IsOk, OnOk, OnErr};
ghost use Rattle.std.specs.Borrow.{Lends, Array, sem, u8};
ghost use Rattle.redux_buffer.specs.GrowError.{FitsWithin};
ghost use Rattle.redux_buffer.specs.Block.{Ring, IsPlaced, IsNew, BytesWritten, ConsumesFirst, Reserves, MakesRoom, CountsShift, usable, capacity_for, with_tail, with_bytes, compact, round};
ghost use Rattle.redux_buffer.specs.contracts.slice_deque_buf.SliceDequeBuf.{the_row};

use crate::count::Count;
use crate::grow_error::GrowError;
use crate::raw_buf::RawBuf;
use crate::tail_span::TailSpan;
use crate::{MAX_RING, RING_UNIT};
use std::alloc::Global;
use std::marker::Model;

/// The ring: all its free space can be written at any time, and both that space and the bytes are one slice.
///
/// The bytes stand at `head..end` of storage that is twice the capacity, and `stop` is one capacity behind `head`. The tail
/// is `end..stop` where the storage reaches that far. Once a [`consume`](SliceDequeBuf::consume) has taken the head past the
/// capacity it doesn't: the bytes go to the front when more are next written, and the tail is what is behind them there. That
/// is fewer moves than in the `consume` itself: what is consumed before that write is not moved, and a ring that was emptied
/// by then moves nothing. The bytes go to the front when the ring grows, too.
///
/// [`StdBuf`](crate::std_buf::StdBuf) has the same fields in the same order: the compiler then makes one code of what both do.
#[derive(Debug, Drop)]
pub struct SliceDequeBuf {
    buf: RawBuf,
    head: usize,
    end: usize,
    stop: usize,
    consumed: Count,
    moved: Count,
}

impl Model for SliceDequeBuf {
    ghost use Rattle.std.specs.Prelude.{◌≡◌, ◌+◌, ◌-◌, ◌*◌, ◌≤◌, ◌^◌, length, slice_range, nat_le, nat_lt, if◌then◌else◌};
    ghost use Rattle.redux_buffer.specs.Block.{Placed, Ring};

    ghost Value = { Placed };

    ghost view = { λ b. record {
      block = record {
        bytes = slice_range b.buf b.head b.end;
        tail = if nat_lt (length b.buf) b.stop then slice_range b.buf (b.end - b.head) (b.stop - b.head)
            else slice_range b.buf b.end b.stop;
        capacity = b.stop - b.head;
        limit = 2 ^ 61;
        kind = Ring;
        tail_behind = nat_le b.stop (length b.buf);
        consumed = b.consumed.total;
        moved = b.moved.total;
      };
      place = b.head;
    } };

    ghost invariant = { λ b. (b.head ≤ b.end) × (b.end ≤ b.stop) × (b.end ≤ length b.buf)
        × (length b.buf ≡ 2 * (b.stop - b.head)) × (b.stop - b.head ≤ 2 ^ 61) × (b.head ≡ b.end → b.end ≡ 0)
        × (b.moved.total + b.head ≤ b.consumed.total) };
}

// The least multiple of the unit that is at least `n`.
fn round_up(n: usize) -> usize
    requires { n ≤ 2 ^ 61 }
    ensures value { result ≡ round n }
    ensures limit { result ≤ 2 ^ 61 }
    ensures above { n ≤ result }
{
    (n + (RING_UNIT - 1)) / RING_UNIT * RING_UNIT
}

impl SliceDequeBuf {
    /// An empty ring whose capacity in bytes is the least multiple of [`RING_UNIT`] that is at least `cap`; `TooLarge` past
    /// [`MAX_RING`], `Memory` where that was refused.
    pub fn with_capacity(alloc: Global, cap: usize) -> Result<Self, GrowError>
        ensures empty { IfOk result (λ b. (b.block.bytes ≡ []) × (b.block.capacity ≡ round cap)) }
        ensures made { IfOk result (λ b. IsNew Ring (round cap) b.block × IsPlaced b) }
        ensures limit { FitsWithin result (round cap) (2 ^ 61) }
        ensures succeeds { cap ≡ 0 → IsOk result }
    {
        if cap > MAX_RING {
            return Err(GrowError::TooLarge);
        }
        let cap = round_up(cap);
        let buf = RawBuf::with_capacity(alloc, 2 * cap)?;
        Ok(SliceDequeBuf {
            buf,
            head: 0,
            end: 0,
            stop: cap,
            consumed: Count::zero(),
            moved: Count::zero(),
        })
    }

    /// The capacity in bytes, half of the memory that the ring takes.
    pub fn capacity(&self) -> usize
        ensures value { result ≡ self.now.block.capacity }
        ensures whole { IsPlaced self.now }
        ensures kind { self.now.block.kind ≡ Ring }
    {
        self.stop - self.head
    }

    /// How many bytes it holds.
    pub fn len(&self) -> usize
        ensures value { result ≡ length self.now.block.bytes }
        ensures whole { IsPlaced self.now }
        ensures kind { self.now.block.kind ≡ Ring }
    {
        self.end - self.head
    }

    /// How many bytes can be written behind those that it holds: the capacity without them.
    pub fn usable_space(&self) -> usize
        ensures value { result ≡ usable self.now.block }
        ensures whole { IsPlaced self.now }
        ensures kind { self.now.block.kind ≡ Ring }
    {
        self.stop - self.end
    }

    /// The bytes.
    pub fn buf(&self) -> &[u8]
        ensures { result.now ≡ self.now.block.bytes }
    {
        &self.buf.as_slice()[self.head..self.end]
    }

    // Whether the tail reaches past the storage.
    pub(crate) fn is_past(&self) -> bool
        ensures value { IsTrue result ↔ (self.now.block.capacity < self.now.place) }
        ensures apart { result ≡ true → self.now.block.tail_behind ≡ false }
        ensures kind { self.now.block.kind ≡ Ring }
    {
        self.stop > self.buf.capacity()
    }

    // Moves the bytes to the front.
    #[inline(never)]
    pub(crate) fn compact(&mut self)
        requires { self.old.block.capacity < self.old.place }
        ensures { self.new ≡ compact self.old }
    {
        let len = self.end - self.head;
        self.buf.as_mut_slice().copy_within(self.head..self.end, 0);
        self.moved.add(len);
        self.stop -= self.head;
        self.head = 0;
        self.end = len;
    }

    /// Lends all free space as one slice. What is written there counts once [`bytes_written`](SliceDequeBuf::bytes_written)
    /// says so, unless another call comes between.
    pub fn write_buf(&mut self) -> &mut [u8]
        ensures* writes_back { sem 𝓛 (Lends the_row (Array u8 0) self.entry result (with_tail self.old)) }
        ensures value { result.now ≡ self.old.block.tail }
    {
        if self.stop > self.buf.capacity() {
            self.compact();
        }
        let (start, end) = (self.end, self.stop);
        self.buf.range_mut(start, end)
    }

    /// The bytes, for writing.
    pub fn buf_mut(&mut self) -> &mut [u8]
        ensures* writes_back { sem 𝓛 (Lends the_row (Array u8 0) self.entry result
            (λ w. record self.old { block = with_bytes self.old.block w })) }
        ensures value { result.now ≡ self.old.block.bytes }
    {
        let (start, end) = (self.head, self.end);
        self.buf.range_mut(start, end)
    }

    /// Takes the first `n` bytes of the tail, or all of it where it has fewer, as the last bytes.
    pub fn bytes_written(&mut self, n: usize)
        ensures bytes { BytesWritten n self.old.block self.new.block }
        ensures shift { CountsShift 0 self.old self.new }
        ensures whole { IsPlaced self.new }
    {
        let written = n.min(self.stop - self.end);
        if self.stop > self.buf.capacity() {
            self.compact();
            // A step that changes the place counts every byte that is held after it.
            self.moved.add(written);
        }
        self.end += written;
    }

    /// Drops the first `n` bytes, or all where it holds fewer.
    pub fn consume(&mut self, n: usize)
        ensures bytes { ConsumesFirst n self.old.block self.new.block }
        ensures shift { CountsShift (min n (length self.old.block.bytes)) self.old self.new }
        ensures whole { IsPlaced self.new }
    {
        if n < self.len() {
            self.head += n;
            self.stop += n;
            self.consumed.add(n);
        } else {
            self.clear();
        }
    }

    // Drops the first `n` bytes, which it holds. To drop all stands apart, so that to drop some is short in its caller.
    pub(crate) fn consume_exact(&mut self, n: usize)
        requires within { n ≤ length self.old.block.bytes }
        ensures bytes { ConsumesFirst n self.old.block self.new.block }
        ensures shift { CountsShift n self.old self.new }
        ensures whole { IsPlaced self.new }
    {
        let at = self.head + n;
        if at < self.end {
            self.head = at;
            self.stop += n;
            self.consumed.add(n);
        } else {
            self.clear_apart();
        }
    }

    // Drops all bytes.
    fn clear(&mut self)
        ensures bytes { ConsumesFirst (length self.old.block.bytes) self.old.block self.new.block }
        ensures shift { CountsShift (length self.old.block.bytes) self.old self.new }
        ensures whole { IsPlaced self.new }
    {
        let len = self.len();
        self.stop -= self.head;
        self.head = 0;
        self.end = 0;
        self.consumed.add(len);
    }

    #[cold]
    #[inline(never)]
    fn clear_apart(&mut self)
        ensures bytes { ConsumesFirst (length self.old.block.bytes) self.old.block self.new.block }
        ensures shift { CountsShift (length self.old.block.bytes) self.old self.new }
        ensures whole { IsPlaced self.new }
    {
        self.clear();
    }

    // Where the tail stands.
    pub(crate) fn span(&self) -> TailSpan
        ensures space { result.stop ≡ result.end + usable self.now.block }
        ensures behind { nat_le result.stop result.storage ≡ self.now.block.tail_behind }
        ensures whole { IsPlaced self.now }
        ensures kind { self.now.block.kind ≡ Ring }
    {
        TailSpan {
            end: self.end,
            stop: self.stop,
            storage: self.buf.capacity(),
        }
    }

    // Lends the first `n` bytes of the tail, where it doesn't reach past the storage.
    pub(crate) fn write_front(&mut self, n: usize) -> &mut [u8]
        requires fits { n ≤ usable self.old.block }
        requires in_front { self.old.place ≤ self.old.block.capacity }
        ensures* writes_back { sem 𝓛 (Lends the_row (Array u8 0) self.entry result (with_tail self.old)) }
        ensures value { result.now ≡ take n self.old.block.tail }
    {
        let (start, end) = (self.end, self.end + n);
        self.buf.range_mut(start, end)
    }

    // Takes the first `n` bytes of the tail, which doesn't reach past the storage, as the last bytes.
    pub(crate) fn commit(&mut self, n: usize)
        requires fits { n ≤ usable self.old.block }
        requires in_front { self.old.place ≤ self.old.block.capacity }
        ensures bytes { BytesWritten n self.old.block self.new.block }
        ensures place { self.new.place ≡ self.old.place }
        ensures moved { self.new.block.moved ≡ self.old.block.moved }
        ensures whole { IsPlaced self.new }
        ensures kind { self.new.block.kind ≡ Ring }
    {
        self.end += n;
    }

    // Copies the first bytes to the front of `out`, as many as fit, drops them, and returns how many those are.
    pub(crate) fn take_out(&mut self, out: &mut [u8]) -> usize
        ensures count { result ≡ min (length self.old.block.bytes) (length out.old) }
        ensures copied { out.new ≡ take result self.old.block.bytes ++ drop result out.old }
        ensures bytes { ConsumesFirst result self.old.block self.new.block }
        ensures shift { CountsShift result self.old self.new }
        ensures whole { IsPlaced self.new }
    {
        let n = out.len().min(self.len());
        out[..n].copy_from_slice(&self.buf()[..n]);
        self.consume_exact(n);
        n
    }

    /// Does nothing: all free space can be written as it is.
    pub fn make_room(&mut self)
        ensures unchanged { self.new ≡ self.old }
        ensures bytes { MakesRoom self.old.block self.new.block }
        ensures shift { CountsShift 0 self.old self.new }
        ensures whole { IsPlaced self.new }
    {
        // Names a field, so that what is true of every ring is known here.
        let _ = &self.stop;
    }

    /// Makes sure that `additional` more bytes can be written. The capacity stays a multiple of [`RING_UNIT`], and the bytes of
    /// a ring that grew stand at the front. A refusal changes nothing: `TooLarge` past [`MAX_RING`], `Memory` where that was
    /// refused.
    pub fn reserve(&mut self, additional: usize) -> Result<(), GrowError>
        ensures grown { OnOk result (Reserves additional self.old.block self.new.block) }
        ensures place { self.old.block.capacity < self.new.block.capacity → self.new.place ≡ 0 }
        ensures shift { CountsShift 0 self.old self.new }
        ensures unchanged { OnErr result (self.new ≡ self.old) }
        ensures limit { FitsWithin result (capacity_for self.old.block additional) self.old.block.limit }
        ensures succeeds { additional ≤ usable self.old.block → IsOk result }
        ensures whole { IsPlaced self.new }
    {
        let len = self.end - self.head;
        if additional <= self.stop - self.end {
            return Ok(());
        }
        if additional > MAX_RING - len {
            return Err(GrowError::TooLarge);
        }
        let cap = round_up(len + additional);
        if self.head > 0 {
            // Bytes that have to move anyhow are moved once, into a new block.
            self.buf = self.buf.copy_of(self.head, self.end, 2 * cap)?;
            self.head = 0;
            self.end = len;
            self.stop = cap;
            return Ok(());
        }
        self.buf.reserve(2 * (cap - self.stop))?;
        // What the growth adds to the tail may have been written before.
        self.buf.clear_range(self.stop, cap.min(2 * self.stop));
        self.stop = cap;
        Ok(())
    }
}
