//! A reader that gives its buffer up.
ghost use Rattle.std.specs.Prelude.{◌≡◌, ◌==◌, ℕ, ◌+◌, ◌*◌, ◌<◌, ◌≤◌, length, min, take, drop, Ok, IfErr, OnOk, []};
ghost use Rattle.std.specs.Io.{ReadsAtMost};
ghost use Rattle.std.specs.Io.KnownBytes.{Consumes, ReadConsumes};
ghost use Rattle.redux_buffer.specs.Faults.{IsInterrupt, failure_count, interrupt_limit};
ghost use Rattle.redux_buffer.specs.StreamLog.{portion, after_read};
ghost use Rattle.buffer_redux.specs.ReadAll.{FillsSlice};
ghost use Rattle.buffer_redux.specs.ReadExact.{ReaderStopped};
ghost use Rattle.buffer_redux.specs.Unbuffer.{unbuffered, unbuffer_remaining, UnbufferHands, HandsOutInOrder, UnbufferReads};
ghost use Rattle.buffer_redux.specs.UnbufferLaws.{UnbufferHands-joins, UnbufferReads-tells};

use crate::all_bytes::{FillSlice, fill_on};
use crate::buf_reader::BufReader;
use redux_buffer::Buffer;
use redux_buffer::tell::{Tell, TellRead};
use std::io::Read;
use std::marker::Model;
use std::{fmt, io};

/// A reader that hands out what is left of a buffer, and then reads past it.
///
/// It is what [`BufReader::unbuffer`] returns. The buffer is freed as soon as it has no bytes left. No byte is lost or
/// changes place: what was handed out, then what is left, is what was left at first, then what the inner reader gave.
///
/// ```
/// let mut reader = BufReader::with_capacity(alloc, 2, Told::new(b"abc".as_slice()))?;
/// assert!(rt; reader.fill_buf()? == b"ab".as_slice());
/// let mut rest = reader.unbuffer();
/// let mut out = [0; 4];
/// assert!(rt; rest.read(&mut out)? == 2);
/// assert!(rt; rest.is_buf_empty());
/// assert!(rt; rest.read(&mut out)? == 1);
/// ```
#[derive(Drop)]
pub struct Unbuffer<R: Tell> {
    buf: Option<Buffer>,
    inner: R,
}

impl<R: Tell> Model for Unbuffer<R> {
    ghost use Rattle.std.specs.Prelude.{◌<◌, length, IfSome};
    ghost use Rattle.buffer_redux.specs.Unbuffer.{Unbuffered, bytes_in};

    ghost Value = { Unbuffered R };

    ghost view = { λ u. record { left = bytes_in u.buf; inner = u.inner; log = R.log u.inner } };

    // A buffer without bytes is freed.
    ghost invariant = { λ u. IfSome u.buf (λ b. 0 < length b.bytes) };
}

impl<R: Tell, P> BufReader<R, P> {
    /// The same reader without a buffer: the buffered bytes are handed out first, and no more are buffered. An empty
    /// buffer is freed at once, and the policy is dropped.
    pub fn unbuffer(self) -> Unbuffer<R>
    where
        P: Drop,
        ensures { result ≡ unbuffered self }
    {
        let (inner, buf) = self.into_inner_with_buffer();
        Unbuffer {
            buf: if buf.is_empty() { None } else { Some(buf) },
            inner,
        }
    }
}

impl<R: Tell> Unbuffer<R> {
    /// Whether no bytes are left of the buffer, so that the next read asks the inner reader.
    pub fn is_buf_empty(&self) -> bool
        ensures { result ≡ (length self.now.left == 0) }
    {
        self.buf.is_none()
    }

    /// How many bytes are left.
    pub fn buf_len(&self) -> usize
        ensures { result ≡ length self.now.left }
    {
        self.buf().len()
    }

    /// The bytes that are left.
    pub fn buf(&self) -> &[u8]
        ensures { result.now ≡ self.now.left }
    {
        match &self.buf {
            Some(buf) => buf.buf(),
            None => &[],
        }
    }

    /// The inner reader. Bytes that are left are gone.
    pub fn into_inner(self) -> R
        ensures inner { result ≡ self.inner }
        ensures log { R.log result ≡ self.log }
    {
        let Unbuffer { buf: _, inner } = self;
        inner
    }
}

impl<R: TellRead> Read for Unbuffer<R> {
    ghost remaining = { unbuffer_remaining R.remaining };

    /// Hands out bytes that are left, as many as fit, and doesn't ask the inner reader; where none are left, asks it
    /// once and returns its answer. An empty `out` leaves what is left.
    fn read(&mut self, out: &mut [u8]) -> io::Result<usize>
        ensures bound { ReadsAtMost result out.new }
        ensures bytes { ReadConsumes (unbuffer_remaining R.remaining self.old)
            (unbuffer_remaining R.remaining self.new) result out.new }
        ensures in_order { HandsOutInOrder self.old (portion out.new result) self.new }
        ensures left { 0 < length self.old.left → (result ≡ Ok (min (length self.old.left) (length out.old)))
            × (self.new ≡ record self.old { left = drop (length out.old) self.old.left })
            × (drop (length self.old.left) out.new ≡ drop (length self.old.left) out.old) }
        ensures asked { length self.old.left ≡ 0
            → (self.new.left ≡ []) × (self.new.log ≡ after_read self.old.log out.new result) }
    {
        let Some(buf) = &mut self.buf else {
            return self.inner.read_told(out);
        };
        let n = buf.copy_to_slice(out);
        if buf.is_empty() {
            self.buf = None;
        }
        Ok(n)
    }

    /// Reads until the slice is full, as [`BufReader`]'s does: bytes that are left come first. A read that hands out nothing is
    /// returned as `UnexpectedEof`.
    ///
    /// After an `Err` the bytes that were handed out stand at the front of the slice.
    fn read_exact(&mut self, out: &mut [u8]) -> io::Result<()>
        ensures in_order { OnOk result (HandsOutInOrder self.old out.new self.new) }
        ensures beginning { (count : ℕ) × (count ≤ length out.new)
            × HandsOutInOrder self.old (take count out.new) self.new }
        ensures bytes { OnOk result (Consumes (unbuffer_remaining R.remaining self.old)
            (unbuffer_remaining R.remaining self.new) out.new) }
        ensures few { length self.new.log.reads.faults
            ≤ length self.old.log.reads.faults + interrupt_limit * length out.new + failure_count result }
        ensures often { IfErr result (λ e. IsInterrupt e
            → length self.old.log.reads.faults + interrupt_limit + 1 ≤ length self.new.log.reads.faults) }
        ensures caused { IfErr result (ReaderStopped self.old.log.reads self.new.log.reads) }
        ensures steps { FillsSlice (UnbufferReads R.remaining) (UnbufferHands R.remaining)
            self.old out.old result out.new self.new }
    {
        if out.is_empty() {
            return Ok(());
        }
        let answer = self.read(out);
        fill_on(answer, self, out)
    }
}

impl<R: TellRead> FillSlice for Unbuffer<R> {
    ghost reads = { UnbufferReads R.remaining };

    ghost handed = { UnbufferHands R.remaining };

    fn read_once(&mut self, out: &mut [u8]) -> io::Result<usize>
        ensures bound { ReadsAtMost result out.new }
        ensures read { UnbufferReads R.remaining self.old out.old result out.new self.new }
    {
        self.read(out)
    }

    ghost tells = { UnbufferReads-tells R.remaining };

    ghost joins = { UnbufferHands-joins R.remaining };
}

impl<R: Tell + fmt::Debug> fmt::Debug for Unbuffer<R> {
    fn fmt<W: fmt::Write>(&self, f: &mut fmt::Formatter<W>) -> fmt::Result {
        f.debug_struct("buffer_redux::Unbuffer")
            .field("inner", &self.inner)
            .field("left", &self.buf_len())
            .finish()
    }
}
