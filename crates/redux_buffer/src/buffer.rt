//! The buffer that readers and writers hold.
ghost use Rattle.std.specs.Prelude.{◌≡◌, [], true, ◌+◌, ◌-◌, ◌*◌, ◌^◌, ◌≤◌, ◌<◌, ◌↔◌, ◌++◌, ◌&&◌, length, min, take, drop, nat_lt, IsTrue, IfOk, IsOk, IsOkUnless, OnOk, OnErr};
ghost use Rattle.std.specs.Borrow.{Lends, Array, sem, u8};
ghost use Rattle.redux_buffer.specs.GrowError.{FitsWithin};
ghost use Rattle.redux_buffer.specs.contracts.buffer.Buffer.{the_row};
ghost use Rattle.redux_buffer.specs.Block.{Plain, with_bytes, with_limit, limit_of, Ring, IsBlock, IsNew, ConsumesFirst, Clears, Reserves, MakesRoom, Extends, PushesBytes, OnlyRingMoves, usable, capacity_for, capacity_to_push, round};

use crate::buf_impl::BufImpl;
use crate::grow_error::GrowError;
use crate::{DEFAULT_BUF_SIZE, MAX_CAPACITY, MAX_RING, RING_UNIT};
use std::alloc::Global;
use std::fmt;
use std::marker::Model;

mod transfer;

/// A buffer of bytes, plain or ring, which grows only where it is asked to.
///
/// Growths aside, a plain buffer moves its bytes in [`make_room`](Buffer::make_room) alone. A ring may move them by itself,
/// never more of them than were consumed.
///
/// ```
/// let mut buffer = Buffer::with_capacity(alloc, 4)?;
/// assert!(rt; buffer.copy_from_slice(b"abcdef") == 4);
/// buffer.consume(1);
/// assert!(rt; buffer.buf() == b"bcd".as_slice());
/// assert!(rt; buffer.usable_space() == 0);
/// buffer.make_room();
/// assert!(rt; buffer.usable_space() == 1);
/// ```
#[derive(Drop)]
pub struct Buffer {
    imp: BufImpl,
    limit: usize,
}

impl Model for Buffer {
    ghost use Rattle.redux_buffer.specs.Block.{Block, IsBlock, IsPlaced, with_limit};

    ghost Value = { Block };

    ghost use Rattle.redux_buffer.specs.BufImpl.{as_placed};

    ghost view = { λ b. with_limit (as_placed b.imp).block b.limit };

    ghost invariant = { λ b. IsPlaced (as_placed b.imp) × IsBlock (with_limit (as_placed b.imp).block b.limit) };
}

impl Buffer {
    /// An empty plain buffer of [`DEFAULT_BUF_SIZE`] bytes, or `Memory` where that was refused.
    pub fn new(alloc: Global) -> Result<Self, GrowError>
        ensures empty { IfOk result (λ b. (b.bytes ≡ []) × (b.capacity ≡ 8192)) }
        ensures made { IfOk result (λ b. IsNew Plain 8192 b × IsBlock b) }
        ensures refused { IsOkUnless result GrowError.Memory }
    {
        Buffer::with_capacity(alloc, DEFAULT_BUF_SIZE)
    }

    /// An empty ring of [`DEFAULT_BUF_SIZE`] bytes, or `Memory` where that was refused.
    pub fn new_ringbuf(alloc: Global) -> Result<Self, GrowError>
        ensures empty { IfOk result (λ b. (b.bytes ≡ []) × (b.capacity ≡ 8192)) }
        ensures made { IfOk result (λ b. IsNew Ring 8192 b × IsBlock b) }
        ensures refused { IsOkUnless result GrowError.Memory }
    {
        Buffer::with_capacity_ringbuf(alloc, DEFAULT_BUF_SIZE)
    }

    /// An empty plain buffer of capacity `cap` in bytes; `TooLarge` past [`MAX_CAPACITY`](crate::MAX_CAPACITY), and `Memory`
    /// where that was refused.
    pub fn with_capacity(alloc: Global, cap: usize) -> Result<Self, GrowError>
        ensures empty { IfOk result (λ b. (b.bytes ≡ []) × (b.capacity ≡ cap)) }
        ensures made { IfOk result (λ b. IsNew Plain cap b × IsBlock b) }
        ensures limit { FitsWithin result cap (2 ^ 62) }
        ensures succeeds { cap ≡ 0 → IsOk result }
    {
        Ok(Buffer {
            imp: BufImpl::with_capacity(alloc, cap)?,
            limit: MAX_CAPACITY,
        })
    }

    /// An empty ring whose capacity in bytes is the least multiple of [`RING_UNIT`](crate::RING_UNIT) that is at least `cap`;
    /// `TooLarge` where that passes [`MAX_RING`](crate::MAX_RING), and `Memory` where memory was refused.
    pub fn with_capacity_ringbuf(alloc: Global, cap: usize) -> Result<Self, GrowError>
        ensures empty { IfOk result (λ b. (b.bytes ≡ []) × (b.capacity ≡ round cap)) }
        ensures made { IfOk result (λ b. IsNew Ring (round cap) b × IsBlock b) }
        ensures limit { FitsWithin result (round cap) (2 ^ 61) }
        ensures succeeds { cap ≡ 0 → IsOk result }
    {
        Ok(Buffer {
            imp: BufImpl::with_capacity_ringbuf(alloc, cap)?,
            limit: MAX_RING,
        })
    }

    // What is true of every buffer. It does nothing: naming the field makes it known.
    #[inline(always)]
    pub(crate) fn is_block(&self)
        ensures { IsBlock self.now }
    {
        let _ = &self.imp;
    }

    /// How many bytes it holds.
    pub fn len(&self) -> usize
        ensures value { result ≡ length self.now.bytes }
        ensures whole { IsBlock self.now }
    {
        self.imp.len()
    }

    /// Whether it holds no byte.
    pub fn is_empty(&self) -> bool
        ensures value { IsTrue result ↔ (length self.now.bytes ≡ 0) }
        ensures whole { IsBlock self.now }
    {
        self.imp.len() == 0
    }

    /// Whether it is a ring.
    pub fn is_ringbuf(&self) -> bool
        ensures value { IsTrue result ↔ (self.now.kind ≡ Ring) }
        ensures whole { IsBlock self.now }
    {
        self.imp.is_ringbuf()
    }

    /// The capacity in bytes.
    pub fn capacity(&self) -> usize
        ensures value { result ≡ self.now.capacity }
        ensures whole { IsBlock self.now }
    {
        self.imp.capacity()
    }

    /// How many bytes can be written behind those that it holds. Less than the free space where a plain buffer has free
    /// space in front of its bytes.
    pub fn usable_space(&self) -> usize
        ensures value { result ≡ usable self.now }
        ensures whole { IsBlock self.now }
    {
        self.imp.usable_space()
    }

    /// Whether more than `n` bytes can be written behind those that it holds without any being moved.
    pub fn has_space_behind(&self, n: usize) -> bool
        ensures value { result ≡ (self.now.tail_behind && nat_lt n (usable self.now)) }
        ensures plain { self.now.kind ≡ Plain → self.now.tail_behind ≡ true }
        ensures whole { IsBlock self.now }
    {
        self.imp.has_space_behind(n)
    }

    /// The capacity without the bytes that it holds.
    pub fn free_space(&self) -> usize
        ensures value { result ≡ self.now.capacity - length self.now.bytes }
        ensures whole { IsBlock self.now }
    {
        self.imp.capacity() - self.imp.len()
    }

    /// The greatest capacity in bytes that it may grow to: that of its kind, [`MAX_CAPACITY`] or [`MAX_RING`], unless
    /// [`set_limit`](Buffer::set_limit) made it smaller.
    pub fn limit(&self) -> usize
        ensures value { result ≡ self.now.limit }
        ensures whole { IsBlock self.now }
    {
        self.limit
    }

    /// Makes `limit` the greatest capacity, or that of its kind where `limit` is more. Returns `TooLarge`, and changes
    /// nothing, where `limit` is below the present capacity.
    ///
    /// So a server bounds what one connection may buffer, whatever length the other end announces:
    ///
    /// ```
    /// /// A reader of one connection. It grows to 65536 bytes at the most.
    /// fn connection<R: Read + Drop>(alloc: Global, stream: R) -> Result<BufReader<Told<R>>, GrowError>
    ///     ensures bounded { IfOk result (λ reader. reader.block.limit ≡ 65536) }
    /// {
    ///     let mut buf = Buffer::with_capacity(alloc, 4096)?;
    ///     buf.set_limit(65536)?;
    ///     Ok(BufReader::with_buffer(buf, Told::new(stream)))
    /// }
    /// ```
    ///
    /// `connection.reserve(length)?` then makes room for a message. Past the limit it returns `TooLarge` and takes no memory, and
    /// `Memory` where that was refused.
    pub fn set_limit(&mut self, limit: usize) -> Result<(), GrowError>
        ensures set { OnOk result (self.new ≡ with_limit self.old (min limit (limit_of self.old.kind))) }
        ensures unchanged { OnErr result (self.new ≡ self.old) }
        ensures below { FitsWithin result self.old.capacity limit }
        ensures refused { IsOkUnless result GrowError.TooLarge }
        ensures whole { IsBlock self.new }
    {
        if limit < self.capacity() {
            return Err(GrowError::TooLarge);
        }
        let most = if self.is_ringbuf() {
            MAX_RING
        } else {
            MAX_CAPACITY
        };
        self.limit = limit.min(most);
        Ok(())
    }

    /// The bytes.
    pub fn buf(&self) -> &[u8]
        ensures { result.now ≡ self.now.bytes }
    {
        self.imp.buf()
    }

    /// The bytes, for writing.
    pub fn buf_mut(&mut self) -> &mut [u8]
        ensures* writes_back { sem 𝓛 (Lends the_row (Array u8 0) self.entry result (with_bytes self.old)) }
        ensures value { result.now ≡ self.old.bytes }
    {
        self.imp.buf_mut()
    }

    /// Makes all free space usable: a plain buffer moves its bytes to the front, a ring does nothing.
    pub fn make_room(&mut self)
        ensures bytes { MakesRoom self.old self.new }
        ensures whole { IsBlock self.new }
    {
        self.imp.make_room();
    }

    /// Drops the first `n` bytes, or all where it holds fewer.
    pub fn consume(&mut self, n: usize)
        ensures bytes { ConsumesFirst n self.old self.new }
        ensures moved { OnlyRingMoves self.old self.new }
        ensures whole { IsBlock self.new }
    {
        self.imp.consume(n);
    }

    /// Drops the first `n` bytes, which it holds.
    pub fn consume_exact(&mut self, n: usize)
        requires within { n ≤ length self.old.bytes }
        ensures bytes { ConsumesFirst n self.old self.new }
        ensures moved { OnlyRingMoves self.old self.new }
        ensures whole { IsBlock self.new }
    {
        self.imp.consume_exact(n);
    }

    // Whether the capacity that `reserve(a)` needs is within the limit.
    fn allows(&self, additional: usize) -> bool
        ensures { IsTrue result ↔ (capacity_for self.now additional ≤ self.now.limit) }
    {
        let usable = self.usable_space();
        if additional <= usable {
            return true;
        }
        let (kept, most) = if self.is_ringbuf() {
            (self.len(), self.limit - self.limit % RING_UNIT)
        } else if self.is_empty() {
            (self.capacity(), self.limit)
        } else {
            (self.capacity() - usable, self.limit)
        };
        additional <= most.saturating_sub(kept)
    }

    /// Makes sure that `additional` more bytes can be written behind those that are buffered. Free space in front of a plain
    /// buffer's bytes doesn't count: [`make_room`](Buffer::make_room) makes it usable.
    ///
    /// A plain buffer grows by `additional`, less what can be written already where bytes are buffered; a ring to what it holds
    /// and `additional`, rounded up. `TooLarge` is returned where that capacity passes [`limit`](Buffer::limit), and `Memory`
    /// where memory was refused. Either changes nothing.
    pub fn reserve(&mut self, additional: usize) -> Result<(), GrowError>
        ensures grown { OnOk result (Reserves additional self.old self.new) }
        ensures unchanged { OnErr result (self.new ≡ self.old) }
        ensures limit { FitsWithin result (capacity_for self.old additional) self.old.limit }
        ensures succeeds { additional ≤ usable self.old → IsOk result }
        ensures whole { IsBlock self.new }
    {
        if !self.allows(additional) {
            return Err(GrowError::TooLarge);
        }
        self.imp.reserve(additional)
    }

    /// Appends the first bytes of `src`, as many as can be written now, and returns how many those are.
    pub fn copy_from_slice(&mut self, src: &[u8]) -> usize
        ensures count { result ≡ min (usable self.old) (length src.now) }
        ensures bytes { Extends (take result src.now) self.old self.new }
        ensures still { self.old.tail_behind ≡ true → self.new.moved ≡ self.old.moved }
        ensures whole { IsBlock self.new }
    {
        self.imp.append(src)
    }

    /// Appends all of `src`, which fits behind the bytes.
    pub fn append(&mut self, src: &[u8])
        requires fits { length src.now ≤ usable self.old }
        ensures bytes { Extends src.now self.old self.new }
        ensures still { self.old.tail_behind ≡ true → self.new.moved ≡ self.old.moved }
        ensures whole { IsBlock self.new }
    {
        self.imp.append_all(src);
    }

    /// The same, faster where the length isn't known to the compiler and is often 128 or less.
    #[inline(always)]
    pub fn append_short(&mut self, src: &[u8])
        requires fits { length src.now ≤ usable self.old }
        ensures bytes { Extends src.now self.old self.new }
        ensures still { self.old.tail_behind ≡ true → self.new.moved ≡ self.old.moved }
        ensures whole { IsBlock self.new }
    {
        self.imp.append_short(src);
    }

    /// Copies the first bytes to the front of `out`, as many as fit, drops them, and returns how many those are.
    pub fn copy_to_slice(&mut self, out: &mut [u8]) -> usize
        ensures count { result ≡ min (length self.old.bytes) (length out.old) }
        ensures copied { out.new ≡ take result self.old.bytes ++ drop result out.old }
        ensures bytes { ConsumesFirst result self.old self.new }
        ensures moved { OnlyRingMoves self.old self.new }
        ensures whole { IsBlock self.new }
    {
        self.imp.take_out(out)
    }

    /// Appends all of `b`. Where fewer than `b.len()` bytes can be written now, it reserves twice that number first. A refusal
    /// is one of [`reserve`](Buffer::reserve), and changes nothing.
    pub fn push_bytes(&mut self, b: &[u8]) -> Result<(), GrowError>
        ensures pushed { OnOk result (PushesBytes b.now self.old self.new) }
        ensures unchanged { OnErr result (self.new ≡ self.old) }
        ensures limit { FitsWithin result (capacity_to_push self.old b.now) self.old.limit }
        ensures succeeds { length b.now ≤ usable self.old → IsOk result }
        ensures whole { IsBlock self.new }
    {
        if self.usable_space() < b.len() {
            self.reserve(2 * b.len())?;
        }
        let _ = self.copy_from_slice(b);
        Ok(())
    }

    /// Drops all bytes.
    pub fn clear(&mut self)
        ensures bytes { Clears self.old self.new }
        ensures whole { IsBlock self.new }
    {
        let len = self.len();
        self.imp.consume(len);
    }
}

/// How much is buffered of which capacity; not the bytes.
impl fmt::Debug for Buffer {
    fn fmt<W: fmt::Write>(&self, f: &mut fmt::Formatter<W>) -> fmt::Result {
        f.debug_struct("buffer_redux::Buffer")
            .field("capacity", &self.capacity())
            .field("len", &self.len())
            .finish()
    }
}
