//! Growths of either kind, with bytes that don't stand at the front.
use crate::trial::{Trial, print};
use buffer_redux::{BufImpl, Buffer, GrowError, RawBuf, SliceDequeBuf, StdBuf};
use std::alloc::Global;
use std::fmt::Debug;
use tests_common::holding_in;

/// What grows by itself.
pub trait Grows: Debug + Drop {
    fn grow(&mut self, more: usize) -> Result<(), GrowError>;

    fn room(&self) -> usize;
}

impl Grows for RawBuf {
    fn grow(&mut self, more: usize) -> Result<(), GrowError> {
        self.reserve(more)
    }

    fn room(&self) -> usize {
        self.capacity()
    }
}

impl Grows for StdBuf {
    fn grow(&mut self, more: usize) -> Result<(), GrowError> {
        self.reserve(more)
    }

    fn room(&self) -> usize {
        self.capacity()
    }
}

impl Grows for SliceDequeBuf {
    fn grow(&mut self, more: usize) -> Result<(), GrowError> {
        self.reserve(more)
    }

    fn room(&self) -> usize {
        self.capacity()
    }
}

impl Grows for BufImpl {
    fn grow(&mut self, more: usize) -> Result<(), GrowError> {
        self.reserve(more)
    }

    fn room(&self) -> usize {
        self.capacity()
    }
}

impl Grows for Buffer {
    fn grow(&mut self, more: usize) -> Result<(), GrowError> {
        self.reserve(more)
    }

    fn room(&self) -> usize {
        self.capacity()
    }
}

// Grows by so many bytes, to this capacity.
fn grown<T: Grows>(trial: &mut Trial, it: &mut T, more: usize, capacity: usize) {
    let before = print(it);
    if let Err(e) = it.grow(more) {
        trial.refused(e);
        trial.unchanged(it, before);
        trial.granted(it.grow(more).is_ok());
    }
    trial.sees(it.room() == capacity, "the capacity of what grew");
}

// The same of what was made.
fn made_grows<T: Grows>(trial: &mut Trial, made: Result<T, GrowError>, capacity: usize) {
    match made {
        Ok(mut it) => grown(trial, &mut it, 5000, capacity),
        Err(e) => trial.refused(e),
    }
}

// The storage, and then a block of each type, either kind at once, and a buffer that hold three bytes behind two that were
// consumed.
pub fn blocks(alloc: Global, trial: &mut Trial) {
    made_grows(trial, raw(alloc), 5004);
    made_grows(trial, plain(alloc), 5005);
    made_grows(trial, deque(alloc), 8192);
    for &(is_ring, capacity) in &[(false, 5005), (true, 8192)] {
        made_grows(trial, block(alloc, is_ring), capacity);
        made_grows(trial, placed(alloc, is_ring), capacity);
    }
}

fn raw(alloc: Global) -> Result<RawBuf, GrowError> {
    let mut raw = RawBuf::with_capacity(alloc, 4)?;
    raw.as_mut_slice().fill(7);
    Ok(raw)
}

fn plain(alloc: Global) -> Result<StdBuf, GrowError> {
    let mut plain = StdBuf::with_capacity(alloc, 8)?;
    plain.bytes_written(5);
    plain.consume(2);
    Ok(plain)
}

fn deque(alloc: Global) -> Result<SliceDequeBuf, GrowError> {
    let mut ring = SliceDequeBuf::with_capacity(alloc, 8)?;
    ring.bytes_written(5);
    ring.consume(2);
    Ok(ring)
}

fn block(alloc: Global, is_ring: bool) -> Result<BufImpl, GrowError> {
    let mut block = if is_ring {
        BufImpl::with_capacity_ringbuf(alloc, 8)?
    } else {
        BufImpl::with_capacity(alloc, 8)?
    };
    block.bytes_written(5);
    block.consume(2);
    Ok(block)
}

/// A buffer of capacity 8, or a ring of 4096, that holds [1,2,3] behind two bytes that were consumed.
pub fn placed(alloc: Global, is_ring: bool) -> Result<Buffer, GrowError> {
    let mut buf = holding_in(alloc, is_ring, 8, &[9, 9, 1, 2, 3])?;
    buf.consume(2);
    Ok(buf)
}

// The first growth finds its room, and the second takes memory.
fn grows_second(
    trial: &mut Trial,
    buf: &mut Buffer,
    (first, before): (usize, usize),
    (second, after): (usize, usize),
) {
    trial.granted(buf.reserve(first).is_ok());
    trial.sees(buf.capacity() == before, "a growth that wasn't needed");
    grown(trial, buf, second, after);
}

pub fn twice(alloc: Global, trial: &mut Trial) {
    for &(is_ring, held, first, second) in &[
        (false, [].as_slice(), (4, 4), (5, 9)),
        (true, [7; 10].as_slice(), (4086, 4096), (4087, 8192)),
    ] {
        match holding_in(alloc, is_ring, 4, held) {
            Ok(mut buf) => grows_second(trial, &mut buf, first, second),
            Err(e) => trial.refused(e),
        }
    }
}

// Past a limit nothing grows, and no memory is asked for: `tests/shell.sh` sees a refusal that a run doesn't tell.
fn stays_within(trial: &mut Trial, buf: &mut Buffer) {
    trial.granted(buf.set_limit(65536).is_ok());
    let before = print(buf);
    let is_too_large = matches!(buf.reserve(1 << 20), Err(GrowError::TooLarge));
    trial.sees(is_too_large, "a growth past a limit");
    trial.unchanged(buf, before);
}

pub fn limited(alloc: Global, trial: &mut Trial) {
    for is_ring in [false, true] {
        match placed(alloc, is_ring) {
            Ok(mut buf) => stays_within(trial, &mut buf),
            Err(e) => trial.refused(e),
        }
    }
}

// What doesn't fit grows the buffer by twice its length.
fn push(trial: &mut Trial, buf: &mut Buffer, held: &[u8], capacity: usize) {
    let before = print(buf);
    if let Err(e) = buf.push_bytes(&[4, 5]) {
        trial.refused(e);
        trial.unchanged(buf, before);
        trial.granted(buf.push_bytes(&[4, 5]).is_ok());
    }
    trial.sees(buf.capacity() == capacity, "the capacity behind a push");
    trial.sees(
        buf.buf().strip_prefix(held) == Some(&[4, 5]),
        "what was pushed",
    );
}

pub fn pushes(alloc: Global, trial: &mut Trial) {
    for &(is_ring, held, capacity) in &[
        (false, [1, 2, 3].as_slice(), 7),
        (true, &[7; 4095], 8192),
    ] {
        match holding_in(alloc, is_ring, 4, held) {
            Ok(mut buf) => push(trial, &mut buf, held, capacity),
            Err(e) => trial.refused(e),
        }
    }
}
