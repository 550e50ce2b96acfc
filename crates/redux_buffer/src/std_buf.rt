//! The plain buffer.
ghost use Rattle.std.specs.Prelude.{◌≡◌, true, false, [], ◌+◌, ◌-◌, ◌^◌, ◌≤◌, ◌<◌, ◌↔◌, ◌++◌, length, min, take, drop, nat_le, IsTrue, IfOk, IsOk, OnOk, OnErr};
ghost use Rattle.std.specs.Borrow.{Lends, Array, sem, u8};
ghost use Rattle.redux_buffer.specs.GrowError.{FitsWithin};
ghost use Rattle.redux_buffer.specs.Block.{Plain, IsPlaced, IsNew, BytesWritten, ConsumesFirst, Reserves, MakesRoom, CountsShift, usable, capacity_for, with_tail, with_bytes};
ghost use Rattle.redux_buffer.specs.contracts.std_buf.StdBuf.{the_row};

use crate::MAX_CAPACITY;
use crate::count::Count;
use crate::grow_error::GrowError;
use crate::raw_buf::RawBuf;
use crate::tail_span::TailSpan;
use std::alloc::Global;
use std::marker::Model;

/// The plain buffer: its bytes stand at `pos..end` of a [`RawBuf`], and what is behind them, up to `stop`, can be written.
/// `stop` is the end of the storage.
///
/// It moves its bytes in [`make_room`](StdBuf::make_room) alone.
///
/// [`SliceDequeBuf`](crate::slice_deque_buf::SliceDequeBuf) has the same fields in the same order: the compiler then makes one
/// code of what both do.
#[derive(Debug, Drop)]
pub struct StdBuf {
    buf: RawBuf,
    pos: usize,
    end: usize,
    stop: usize,
    consumed: Count,
    moved: Count,
}

impl Model for StdBuf {
    ghost use Rattle.std.specs.Prelude.{◌≡◌, ◌≤◌, ◌^◌, true, length, drop, slice_range};
    ghost use Rattle.redux_buffer.specs.Block.{Placed, Plain};

    ghost Value = { Placed };

    ghost view = { λ b. record {
      block = record {
        bytes = slice_range b.buf b.pos b.end;
        tail = drop b.end b.buf;
        capacity = b.stop;
        limit = 2 ^ 62;
        kind = Plain;
        tail_behind = true;
        consumed = b.consumed.total;
        moved = b.moved.total;
      };
      place = b.pos;
    } };

    ghost invariant = { λ b. (b.pos ≤ b.end) × (b.end ≤ b.stop) × (b.stop ≡ length b.buf) × (b.stop ≤ 2 ^ 62)
        × (b.pos ≡ b.end → b.end ≡ 0) };
}

impl StdBuf {
    /// An empty buffer of capacity `cap` in bytes; `TooLarge` past [`MAX_CAPACITY`](crate::MAX_CAPACITY), `Memory` where that was
    /// refused.
    pub fn with_capacity(alloc: Global, cap: usize) -> Result<Self, GrowError>
        ensures empty { IfOk result (λ b. (b.block.bytes ≡ []) × (b.block.capacity ≡ cap)) }
        ensures made { IfOk result (λ b. IsNew Plain cap b.block × IsPlaced b) }
        ensures limit { FitsWithin result cap (2 ^ 62) }
        ensures succeeds { cap ≡ 0 → IsOk result }
    {
        let buf = RawBuf::with_capacity(alloc, cap)?;
        Ok(StdBuf {
            buf,
            pos: 0,
            end: 0,
            stop: cap,
            consumed: Count::zero(),
            moved: Count::zero(),
        })
    }

    /// The capacity in bytes.
    pub fn capacity(&self) -> usize
        ensures value { result ≡ self.now.block.capacity }
        ensures whole { IsPlaced self.now }
        ensures kind { self.now.block.kind ≡ Plain }
    {
        self.stop
    }

    /// How many bytes it holds.
    pub fn len(&self) -> usize
        ensures value { result ≡ length self.now.block.bytes }
        ensures whole { IsPlaced self.now }
        ensures kind { self.now.block.kind ≡ Plain }
    {
        self.end - self.pos
    }

    /// How many bytes can be written behind those that it holds.
    pub fn usable_space(&self) -> usize
        ensures value { result ≡ usable self.now.block }
        ensures whole { IsPlaced self.now }
        ensures kind { self.now.block.kind ≡ Plain }
    {
        self.stop - self.end
    }

    /// The bytes.
    pub fn buf(&self) -> &[u8]
        ensures { result.now ≡ self.now.block.bytes }
    {
        &self.buf.as_slice()[self.pos..self.end]
    }

    /// Whether it is empty.
    pub fn check_cursors(&mut self) -> bool
        ensures empty { IsTrue result ↔ (length self.old.block.bytes ≡ 0) }
        ensures unchanged { self.new ≡ self.old }
    {
        self.pos == self.end
    }

    /// Lends the whole usable tail. What is written there counts once [`bytes_written`](StdBuf::bytes_written) says so, unless
    /// another call comes between.
    pub fn write_buf(&mut self) -> &mut [u8]
        ensures* writes_back { sem 𝓛 (Lends the_row (Array u8 0) self.entry result (with_tail self.old)) }
        ensures value { result.now ≡ self.old.block.tail }
    {
        let (start, end) = (self.end, self.stop);
        self.buf.range_mut(start, end)
    }

    /// The bytes, for writing.
    pub fn buf_mut(&mut self) -> &mut [u8]
        ensures* writes_back { sem 𝓛 (Lends the_row (Array u8 0) self.entry result
            (λ w. record self.old { block = with_bytes self.old.block w })) }
        ensures value { result.now ≡ self.old.block.bytes }
    {
        let (start, end) = (self.pos, self.end);
        self.buf.range_mut(start, end)
    }

    /// Takes the first `n` bytes of the tail, or all of it where it has fewer, as the last bytes.
    pub fn bytes_written(&mut self, n: usize)
        ensures bytes { BytesWritten n self.old.block self.new.block }
        ensures shift { CountsShift 0 self.old self.new }
        ensures whole { IsPlaced self.new }
    {
        let room = self.stop - self.end;
        self.end += n.min(room);
    }

    /// Drops the first `n` bytes, or all where it holds fewer.
    pub fn consume(&mut self, n: usize)
        ensures bytes { ConsumesFirst n self.old.block self.new.block }
        ensures shift { CountsShift (min n (length self.old.block.bytes)) self.old self.new }
        ensures whole { IsPlaced self.new }
    {
        if n < self.len() {
            self.pos += n;
            self.consumed.add(n);
        } else {
            self.clear();
        }
    }

    // Drops the first `n` bytes, which it holds. To drop all stands apart, so that to drop some is short in its caller.
    pub(crate) fn consume_exact(&mut self, n: usize)
        requires within { n ≤ length self.old.block.bytes }
        ensures bytes { ConsumesFirst n self.old.block self.new.block }
        ensures shift { CountsShift n self.old self.new }
        ensures whole { IsPlaced self.new }
    {
        let at = self.pos + n;
        if at < self.end {
            self.pos = at;
            self.consumed.add(n);
        } else {
            self.clear_apart();
        }
    }

    // Drops all bytes.
    fn clear(&mut self)
        ensures bytes { ConsumesFirst (length self.old.block.bytes) self.old.block self.new.block }
        ensures shift { CountsShift (length self.old.block.bytes) self.old self.new }
        ensures whole { IsPlaced self.new }
    {
        let len = self.len();
        self.pos = 0;
        self.end = 0;
        self.consumed.add(len);
    }

    #[cold]
    #[inline(never)]
    fn clear_apart(&mut self)
        ensures bytes { ConsumesFirst (length self.old.block.bytes) self.old.block self.new.block }
        ensures shift { CountsShift (length self.old.block.bytes) self.old self.new }
        ensures whole { IsPlaced self.new }
    {
        self.clear();
    }

    // Whether the tail reaches past the storage, asked as a ring asks it. It never does.
    pub(crate) fn is_past(&self) -> bool
        ensures value { result ≡ false }
        ensures kind { self.now.block.kind ≡ Plain }
    {
        self.stop > self.buf.capacity()
    }

    // Where the tail stands.
    pub(crate) fn span(&self) -> TailSpan
        ensures space { result.stop ≡ result.end + usable self.now.block }
        ensures behind { nat_le result.stop result.storage ≡ self.now.block.tail_behind }
        ensures plain { self.now.block.tail_behind ≡ true }
        ensures whole { IsPlaced self.now }
        ensures kind { self.now.block.kind ≡ Plain }
    {
        TailSpan {
            end: self.end,
            stop: self.stop,
            storage: self.buf.capacity(),
        }
    }

    // Lends the first `n` bytes of the tail.
    pub(crate) fn write_front(&mut self, n: usize) -> &mut [u8]
        requires { n ≤ usable self.old.block }
        ensures* writes_back { sem 𝓛 (Lends the_row (Array u8 0) self.entry result (with_tail self.old)) }
        ensures value { result.now ≡ take n self.old.block.tail }
    {
        let (start, end) = (self.end, self.end + n);
        self.buf.range_mut(start, end)
    }

    // Takes the first `n` bytes of the tail as the last bytes.
    pub(crate) fn commit(&mut self, n: usize)
        requires { n ≤ usable self.old.block }
        ensures bytes { BytesWritten n self.old.block self.new.block }
        ensures place { self.new.place ≡ self.old.place }
        ensures moved { self.new.block.moved ≡ self.old.block.moved }
        ensures whole { IsPlaced self.new }
        ensures kind { self.new.block.kind ≡ Plain }
    {
        self.end += n;
    }

    // Copies the first bytes to the front of `out`, as many as fit, drops them, and returns how many those are.
    pub(crate) fn take_out(&mut self, out: &mut [u8]) -> usize
        ensures count { result ≡ min (length self.old.block.bytes) (length out.old) }
        ensures copied { out.new ≡ take result self.old.block.bytes ++ drop result out.old }
        ensures bytes { ConsumesFirst result self.old.block self.new.block }
        ensures shift { CountsShift result self.old self.new }
        ensures whole { IsPlaced self.new }
    {
        let n = out.len().min(self.len());
        out[..n].copy_from_slice(&self.buf()[..n]);
        self.consume_exact(n);
        n
    }

    /// Moves the bytes to the front, so that all free space can be written.
    pub fn make_room(&mut self)
        ensures bytes { MakesRoom self.old.block self.new.block }
        ensures shift { CountsShift 0 self.old self.new }
        ensures whole { IsPlaced self.new }
        ensures kind { self.new.block.kind ≡ Plain }
    {
        if self.pos == 0 {
            return;
        }
        let len = self.end - self.pos;
        self.buf.as_mut_slice().copy_within(self.pos..self.end, 0);
        self.pos = 0;
        self.end = len;
        self.moved.add(len);
    }

    /// Makes sure that `additional` more bytes can be written. A refusal changes nothing: `TooLarge` past
    /// [`MAX_CAPACITY`](crate::MAX_CAPACITY), `Memory` where that was refused.
    pub fn reserve(&mut self, additional: usize) -> Result<(), GrowError>
        ensures grown { OnOk result (Reserves additional self.old.block self.new.block) }
        ensures kind { self.old.block.kind ≡ Plain }
        ensures shift { CountsShift 0 self.old self.new }
        ensures unchanged { OnErr result (self.new ≡ self.old) }
        ensures limit { FitsWithin result (capacity_for self.old.block additional) self.old.block.limit }
        ensures succeeds { additional ≤ usable self.old.block → IsOk result }
        ensures whole { IsPlaced self.new }
    {
        let usable = self.stop - self.end;
        if usable >= additional {
            return Ok(());
        }
        if self.end > 0 {
            let more = additional - usable;
            self.buf.reserve(more)?;
            self.stop += more;
            return Ok(());
        }
        // No byte of an empty buffer is worth copying.
        if additional > MAX_CAPACITY - self.stop {
            return Err(GrowError::TooLarge);
        }
        self.buf = self.buf.copy_of(0, 0, self.stop + additional)?;
        self.stop += additional;
        Ok(())
    }
}
