//! Either kind of buffer.
ghost use Rattle.std.specs.Prelude.{◌≡◌, ⊤, [], true, false, ◌+◌, ◌-◌, ◌^◌, ◌≤◌, ◌<◌, ◌↔◌, ◌++◌, ◌&&◌, length, min, take, drop, nat_le, nat_lt, IsTrue, IfOk, IsOk, OnOk, OnErr};
ghost use Rattle.std.specs.Borrow.{Lends, Array, sem, u8};
ghost use Rattle.redux_buffer.specs.GrowError.{FitsWithin};
ghost use Rattle.redux_buffer.specs.Block.{IsInFront, Plain, Ring, IsPlaced, IsNew, BytesWritten, OnKind, ConsumesFirst, Extends, Reserves, MakesRoom, CountsShift, usable, capacity_for, with_tail, with_bytes, compact, round};
ghost use Rattle.redux_buffer.specs.BufImpl.{as_placed, with_placed};
ghost use Rattle.redux_buffer.specs.contracts.buf_impl.BufImpl.{the_row};

use crate::grow_error::GrowError;
use crate::short_copy::copy_short;
use crate::slice_deque_buf::SliceDequeBuf;
use crate::std_buf::StdBuf;
use crate::tail_span::TailSpan;
use std::alloc::Global;

/// A buffer of either kind, with the calls that the two kinds share.
#[derive(Debug, Drop)]
pub enum BufImpl {
    /// The plain kind.
    Std(StdBuf),
    /// The ring.
    Ringbuf(SliceDequeBuf),
}

impl BufImpl {
    /// An empty plain buffer of capacity `cap` in bytes; `TooLarge` past [`MAX_CAPACITY`](crate::MAX_CAPACITY), `Memory` where
    /// that was refused.
    pub fn with_capacity(alloc: Global, cap: usize) -> Result<Self, GrowError>
        ensures empty { IfOk result (λ b. ((as_placed b).block.bytes ≡ []) × ((as_placed b).block.capacity ≡ cap)) }
        ensures made { IfOk result (λ b. IsNew Plain cap (as_placed b).block × IsPlaced (as_placed b)) }
        ensures limit { FitsWithin result cap (2 ^ 62) }
        ensures succeeds { cap ≡ 0 → IsOk result }
    {
        Ok(BufImpl::Std(StdBuf::with_capacity(alloc, cap)?))
    }

    /// An empty ring whose capacity in bytes is the least multiple of [`RING_UNIT`](crate::RING_UNIT) that is at least `cap`;
    /// `TooLarge` past [`MAX_RING`](crate::MAX_RING), `Memory` where that was refused.
    pub fn with_capacity_ringbuf(alloc: Global, cap: usize) -> Result<Self, GrowError>
        ensures empty { IfOk result (λ b. ((as_placed b).block.bytes ≡ []) × ((as_placed b).block.capacity ≡ round cap)) }
        ensures made { IfOk result (λ b. IsNew Ring (round cap) (as_placed b).block × IsPlaced (as_placed b)) }
        ensures limit { FitsWithin result (round cap) (2 ^ 61) }
        ensures succeeds { cap ≡ 0 → IsOk result }
    {
        Ok(BufImpl::Ringbuf(SliceDequeBuf::with_capacity(alloc, cap)?))
    }

    /// Whether it is a ring.
    pub fn is_ringbuf(&self) -> bool
        ensures ring { IsTrue result ↔ ((as_placed self.now).block.kind ≡ Ring) }
        ensures whole { IsPlaced (as_placed self.now) }
    {
        // Which kind a block is, its own calls tell.
        match self {
            BufImpl::Std(b) => {
                let _ = b.capacity();
                false
            }
            BufImpl::Ringbuf(b) => {
                let _ = b.capacity();
                true
            }
        }
    }

    /// The capacity in bytes.
    pub fn capacity(&self) -> usize
        ensures value { result ≡ (as_placed self.now).block.capacity }
        ensures whole { IsPlaced (as_placed self.now) }
    {
        match self {
            BufImpl::Std(b) => b.capacity(),
            BufImpl::Ringbuf(b) => b.capacity(),
        }
    }

    /// How many bytes it holds.
    pub fn len(&self) -> usize
        ensures value { result ≡ length (as_placed self.now).block.bytes }
        ensures whole { IsPlaced (as_placed self.now) }
    {
        match self {
            BufImpl::Std(b) => b.len(),
            BufImpl::Ringbuf(b) => b.len(),
        }
    }

    /// How many bytes can be written behind those that it holds.
    pub fn usable_space(&self) -> usize
        ensures value { result ≡ usable (as_placed self.now).block }
        ensures whole { IsPlaced (as_placed self.now) }
    {
        match self {
            BufImpl::Std(b) => b.usable_space(),
            BufImpl::Ringbuf(b) => b.usable_space(),
        }
    }

    /// The bytes.
    pub fn buf(&self) -> &[u8]
        ensures { result.now ≡ (as_placed self.now).block.bytes }
    {
        match self {
            BufImpl::Std(b) => b.buf(),
            BufImpl::Ringbuf(b) => b.buf(),
        }
    }

    /// Lends the whole usable tail. What is written there counts once [`bytes_written`](BufImpl::bytes_written) says so, unless
    /// another call comes between.
    pub fn write_buf(&mut self) -> &mut [u8]
        ensures* writes_back { sem 𝓛 (Lends the_row (Array u8 0) self.entry result
            (λ w. with_placed self.old (with_tail (as_placed self.old) w))) }
        ensures value { result.now ≡ (as_placed self.old).block.tail }
    {
        match self {
            BufImpl::Std(b) => b.write_buf(),
            BufImpl::Ringbuf(b) => b.write_buf(),
        }
    }

    /// The bytes, for writing.
    pub fn buf_mut(&mut self) -> &mut [u8]
        ensures* writes_back { sem 𝓛 (Lends the_row (Array u8 0) self.entry result
            (λ w. with_placed self.old (record (as_placed self.old) { block = with_bytes (as_placed self.old).block w }))) }
        ensures value { result.now ≡ (as_placed self.old).block.bytes }
    {
        match self {
            BufImpl::Std(b) => b.buf_mut(),
            BufImpl::Ringbuf(b) => b.buf_mut(),
        }
    }

    /// Takes the first `n` bytes of the tail, or all of it where it has fewer, as the last bytes.
    pub fn bytes_written(&mut self, n: usize)
        ensures bytes { BytesWritten n (as_placed self.old).block (as_placed self.new).block }
        ensures shift { CountsShift 0 (as_placed self.old) (as_placed self.new) }
        ensures whole { IsPlaced (as_placed self.new) }
    {
        match self {
            BufImpl::Std(b) => b.bytes_written(n),
            BufImpl::Ringbuf(b) => b.bytes_written(n),
        }
    }

    /// Drops the first `n` bytes, or all where it holds fewer.
    pub fn consume(&mut self, n: usize)
        ensures bytes { ConsumesFirst n (as_placed self.old).block (as_placed self.new).block }
        ensures shift { CountsShift (min n (length (as_placed self.old).block.bytes)) (as_placed self.old) (as_placed self.new) }
        ensures whole { IsPlaced (as_placed self.new) }
    {
        match self {
            BufImpl::Std(b) => b.consume(n),
            BufImpl::Ringbuf(b) => b.consume(n),
        }
    }

    // Drops the first `n` bytes, which it holds.
    pub(crate) fn consume_exact(&mut self, n: usize)
        requires within { n ≤ length (as_placed self.old).block.bytes }
        ensures bytes { ConsumesFirst n (as_placed self.old).block (as_placed self.new).block }
        ensures shift { CountsShift n (as_placed self.old) (as_placed self.new) }
        ensures whole { IsPlaced (as_placed self.new) }
    {
        match self {
            BufImpl::Std(b) => b.consume_exact(n),
            BufImpl::Ringbuf(b) => b.consume_exact(n),
        }
    }

    // Where the tail stands. The kind is asked once for all of it: asked for each part, the compiler leaves a test of the kind.
    fn span(&self) -> TailSpan
        ensures space { result.stop ≡ result.end + usable (as_placed self.now).block }
        ensures behind { nat_le result.stop result.storage ≡ (as_placed self.now).block.tail_behind }
        ensures plain { (as_placed self.now).block.kind ≡ Plain → (as_placed self.now).block.tail_behind ≡ true }
        ensures whole { IsPlaced (as_placed self.now) }
    {
        match self {
            BufImpl::Std(b) => b.span(),
            BufImpl::Ringbuf(b) => b.span(),
        }
    }

    // Whether more than `n` bytes can be written without any being moved.
    pub(crate) fn has_space_behind(&self, n: usize) -> bool
        ensures value { result ≡ ((as_placed self.now).block.tail_behind && nat_lt n (usable (as_placed self.now).block)) }
        ensures plain { (as_placed self.now).block.kind ≡ Plain → (as_placed self.now).block.tail_behind ≡ true }
        ensures whole { IsPlaced (as_placed self.now) }
    {
        let span = self.span();
        (span.stop <= span.storage) & (n < span.stop - span.end)
    }

    // Whether the bytes are to be drawn back before the tail is written. The two kinds have the same fields, so this and the
    // other parts of `append` are one code for both.
    fn is_past(&self) -> bool
        ensures past { result ≡ true → (as_placed self.now).block.kind ≡ Ring }
        ensures far { result ≡ true → (as_placed self.now).block.capacity < (as_placed self.now).place }
        ensures apart { result ≡ true → (as_placed self.now).block.tail_behind ≡ false }
        ensures in_front { result ≡ false → IsInFront (as_placed self.now) }
        ensures whole { IsPlaced (as_placed self.now) }
    {
        match self {
            BufImpl::Std(b) => {
                let _ = b.capacity();
                b.is_past()
            }
            BufImpl::Ringbuf(b) => {
                let _ = b.capacity();
                b.is_past()
            }
        }
    }

    // Draws a ring back, whose tail reaches past its storage.
    #[cold]
    #[inline(never)]
    fn compact(&mut self)
        requires ring { (as_placed self.old).block.kind ≡ Ring }
        requires far { (as_placed self.old).block.capacity < (as_placed self.old).place }
        ensures compact { as_placed self.new ≡ compact (as_placed self.old) }
    {
        match self {
            BufImpl::Std(b) => {
                let _ = b.capacity();
            }
            BufImpl::Ringbuf(b) => b.compact(),
        }
    }

    // Draws a ring back whose tail reaches past its storage, so that the tail can be written behind the bytes.
    #[inline(always)]
    fn draw_back(&mut self)
        ensures drawn { as_placed self.new ≡ compact (as_placed self.old) }
        ensures in_front { IsInFront (as_placed self.new) }
        ensures still { (as_placed self.old).block.tail_behind ≡ true → as_placed self.new ≡ as_placed self.old }
    {
        if self.is_past() {
            self.compact();
        }
    }

    // Lends the first `n` bytes of a tail that doesn't reach past the storage.
    fn write_front(&mut self, n: usize) -> &mut [u8]
        requires fits { n ≤ usable (as_placed self.old).block }
        requires in_front { IsInFront (as_placed self.old) }
        ensures* writes_back { sem 𝓛 (Lends the_row (Array u8 0) self.entry result
            (λ w. with_placed self.old (with_tail (as_placed self.old) w))) }
        ensures value { result.now ≡ take n (as_placed self.old).block.tail }
    {
        match self {
            BufImpl::Std(b) => b.write_front(n),
            BufImpl::Ringbuf(b) => {
                let _ = b.capacity();
                b.write_front(n)
            }
        }
    }

    // Takes the first `n` bytes of such a tail as the last bytes.
    fn commit(&mut self, n: usize)
        requires fits { n ≤ usable (as_placed self.old).block }
        requires in_front { IsInFront (as_placed self.old) }
        ensures bytes { BytesWritten n (as_placed self.old).block (as_placed self.new).block }
        ensures place { (as_placed self.new).place ≡ (as_placed self.old).place }
        ensures moved { (as_placed self.new).block.moved ≡ (as_placed self.old).block.moved }
        ensures whole { IsPlaced (as_placed self.new) }
    {
        match self {
            BufImpl::Std(b) => b.commit(n),
            BufImpl::Ringbuf(b) => {
                let _ = b.capacity();
                b.commit(n);
            }
        }
    }

    // Copies the first bytes of `src` behind the bytes, as many as fit there, and returns how many those are. A ring is
    // drawn back first where `write_buf` would do so.
    pub(crate) fn append(&mut self, src: &[u8]) -> usize
        ensures count { result ≡ min (usable (as_placed self.old).block) (length src.now) }
        ensures bytes { Extends (take result src.now) (as_placed self.old).block (as_placed self.new).block }
        ensures place { (as_placed self.new).place ≡ (compact (as_placed self.old)).place }
        ensures moved { (as_placed self.new).block.moved ≡ (compact (as_placed self.old)).block.moved }
        ensures still { (as_placed self.old).block.tail_behind ≡ true
            → (as_placed self.new).block.moved ≡ (as_placed self.old).block.moved }
        ensures whole { IsPlaced (as_placed self.new) }
    {
        self.draw_back();
        let n = src.len().min(self.usable_space());
        self.write_front(n).copy_from_slice(&src[..n]);
        self.commit(n);
        n
    }

    // Copies all of `src` behind the bytes, where it fits there. A length that the caller's compiler knows stays known, so it
    // makes no call of a short copy.
    pub(crate) fn append_all(&mut self, src: &[u8])
        requires fits { length src.now ≤ usable (as_placed self.old).block }
        ensures bytes { Extends src.now (as_placed self.old).block (as_placed self.new).block }
        ensures place { (as_placed self.new).place ≡ (compact (as_placed self.old)).place }
        ensures moved { (as_placed self.new).block.moved ≡ (compact (as_placed self.old)).block.moved }
        ensures still { (as_placed self.old).block.tail_behind ≡ true
            → (as_placed self.new).block.moved ≡ (as_placed self.old).block.moved }
        ensures whole { IsPlaced (as_placed self.new) }
    {
        self.draw_back();
        let n = src.len();
        self.write_front(n).copy_from_slice(src);
        self.commit(n);
    }

    // The same, for a length that nobody knows, and that is often short. It is inlined in any case, since it is longer than the
    // compiler would inline.
    #[inline(always)]
    pub(crate) fn append_short(&mut self, src: &[u8])
        requires fits { length src.now ≤ usable (as_placed self.old).block }
        ensures bytes { Extends src.now (as_placed self.old).block (as_placed self.new).block }
        ensures place { (as_placed self.new).place ≡ (compact (as_placed self.old)).place }
        ensures moved { (as_placed self.new).block.moved ≡ (compact (as_placed self.old)).block.moved }
        ensures still { (as_placed self.old).block.tail_behind ≡ true
            → (as_placed self.new).block.moved ≡ (as_placed self.old).block.moved }
        ensures whole { IsPlaced (as_placed self.new) }
    {
        self.draw_back();
        let n = src.len();
        copy_short(self.write_front(n), src);
        self.commit(n);
    }

    // Copies the first bytes to the front of `out`, as many as fit, drops them, and returns how many those are.
    pub(crate) fn take_out(&mut self, out: &mut [u8]) -> usize
        ensures count { result ≡ min (length (as_placed self.old).block.bytes) (length out.old) }
        ensures copied { out.new ≡ take result (as_placed self.old).block.bytes ++ drop result out.old }
        ensures bytes { ConsumesFirst result (as_placed self.old).block (as_placed self.new).block }
        ensures shift { CountsShift result (as_placed self.old) (as_placed self.new) }
        ensures whole { IsPlaced (as_placed self.new) }
    {
        match self {
            BufImpl::Std(b) => b.take_out(out),
            BufImpl::Ringbuf(b) => b.take_out(out),
        }
    }

    /// Makes all free space usable: a plain buffer moves its bytes to the front, a ring does nothing.
    pub fn make_room(&mut self)
        ensures bytes { MakesRoom (as_placed self.old).block (as_placed self.new).block }
        ensures ring { (as_placed self.old).block.kind ≡ Ring → as_placed self.new ≡ as_placed self.old }
        ensures shift { CountsShift 0 (as_placed self.old) (as_placed self.new) }
        ensures whole { IsPlaced (as_placed self.new) }
    {
        match self {
            BufImpl::Std(b) => b.make_room(),
            BufImpl::Ringbuf(b) => b.make_room(),
        }
    }

    /// Makes sure that `additional` more bytes can be written. A refusal changes nothing: `TooLarge` past the limit of the kind,
    /// `Memory` where that was refused.
    pub fn reserve(&mut self, additional: usize) -> Result<(), GrowError>
        ensures grown { OnOk result (Reserves additional (as_placed self.old).block (as_placed self.new).block) }
        ensures place { OnKind (as_placed self.old).block.kind ⊤
            ((as_placed self.old).block.capacity < (as_placed self.new).block.capacity → (as_placed self.new).place ≡ 0) }
        ensures shift { CountsShift 0 (as_placed self.old) (as_placed self.new) }
        ensures unchanged { OnErr result (as_placed self.new ≡ as_placed self.old) }
        ensures limit { FitsWithin result (capacity_for (as_placed self.old).block additional) (as_placed self.old).block.limit }
        ensures succeeds { additional ≤ usable (as_placed self.old).block → IsOk result }
        ensures whole { IsPlaced (as_placed self.new) }
    {
        match self {
            BufImpl::Std(b) => b.reserve(additional),
            BufImpl::Ringbuf(b) => b.reserve(additional),
        }
    }
}
