//! Makers of either kind: a refused one hands its stream back, over which the same one answers.
use crate::growths::Grows;
use crate::streams::{Sink, Source, empty_sink, reading};
use crate::trial::{Trial, print};
use buffer_redux::tell::{Tell, TellRead, TellWrite, Told};
use buffer_redux::{
    BufImpl, BufReader, BufWriter, Buffer, GrowError, LineWriter, MAX_CAPACITY, MAX_RING,
    MakeError, RawBuf, SliceDequeBuf, StdBuf,
};
use frame_reader::{FrameReader, FrameWriter};
use std::alloc::Global;
use std::fmt::Debug;
use tests_common::empty;

// By which of its makers something is made.
#[derive(Clone, Copy)]
enum Form {
    Usual,
    UsualRing,
    Plain,
    Ring,
}

// Each, and the capacity that it gives: the last two are asked for 4 bytes.
static FORMS: [(Form, usize); 4] = [
    (Form::Usual, 8192),
    (Form::UsualRing, 8192),
    (Form::Plain, 4),
    (Form::Ring, 4096),
];

// A block of each kind, or a buffer.
#[derive(Clone, Copy)]
enum Block {
    Raw,
    Std,
    Plain,
    Deque,
    Ring,
    Buffer,
    RingBuffer,
    UsualBuffer,
    UsualRingBuffer,
}

// Each, and the capacity that it gives: the usual ones name none, the others are asked for 4 bytes.
static BLOCKS: [(Block, usize); 9] = [
    (Block::Raw, 4),
    (Block::Std, 4),
    (Block::Plain, 4),
    (Block::Deque, 4096),
    (Block::Ring, 4096),
    (Block::Buffer, 4),
    (Block::RingBuffer, 4096),
    (Block::UsualBuffer, 8192),
    (Block::UsualRingBuffer, 8192),
];

// The capacity of what is made.
fn capacity_of(alloc: Global, which: Block) -> Result<usize, GrowError> {
    match which {
        Block::Raw => room_of(RawBuf::with_capacity(alloc, 4)),
        Block::Std => room_of(StdBuf::with_capacity(alloc, 4)),
        Block::Plain => room_of(BufImpl::with_capacity(alloc, 4)),
        Block::Deque => room_of(SliceDequeBuf::with_capacity(alloc, 4)),
        Block::Ring => room_of(BufImpl::with_capacity_ringbuf(alloc, 4)),
        Block::Buffer => room_of(Buffer::with_capacity(alloc, 4)),
        Block::RingBuffer => room_of(Buffer::with_capacity_ringbuf(alloc, 4)),
        Block::UsualBuffer => room_of(Buffer::new(alloc)),
        Block::UsualRingBuffer => room_of(Buffer::new_ringbuf(alloc)),
    }
}

fn room_of<T: Grows>(made: Result<T, GrowError>) -> Result<usize, GrowError> {
    Ok(made?.room())
}

// What is made over a stream.
trait Made<S>: Drop + Sized {
    fn made(alloc: Global, form: Form, inner: S) -> Result<Self, MakeError<S>>;

    fn room(&self) -> usize;
}

impl<R: Tell + Drop> Made<R> for BufReader<R> {
    fn made(alloc: Global, form: Form, inner: R) -> Result<Self, MakeError<R>> {
        match form {
            Form::Usual => BufReader::new(alloc, inner),
            Form::UsualRing => BufReader::new_ringbuf(alloc, inner),
            Form::Plain => BufReader::with_capacity(alloc, 4, inner),
            Form::Ring => BufReader::with_capacity_ringbuf(alloc, 4, inner),
        }
    }

    fn room(&self) -> usize {
        self.capacity()
    }
}

impl<W: TellWrite + Drop> Made<W> for BufWriter<W> {
    fn made(alloc: Global, form: Form, inner: W) -> Result<Self, MakeError<W>> {
        match form {
            Form::Usual => BufWriter::new(alloc, inner),
            Form::UsualRing => BufWriter::new_ringbuf(alloc, inner),
            Form::Plain => BufWriter::with_capacity(alloc, 4, inner),
            Form::Ring => BufWriter::with_capacity_ringbuf(alloc, 4, inner),
        }
    }

    fn room(&self) -> usize {
        self.capacity()
    }
}

impl<W: TellWrite + Drop> Made<W> for LineWriter<W> {
    fn made(alloc: Global, form: Form, inner: W) -> Result<Self, MakeError<W>> {
        match form {
            Form::Usual => LineWriter::new(alloc, inner),
            Form::UsualRing => LineWriter::new_ringbuf(alloc, inner),
            Form::Plain => LineWriter::with_capacity(alloc, 4, inner),
            Form::Ring => LineWriter::with_capacity_ringbuf(alloc, 4, inner),
        }
    }

    fn room(&self) -> usize {
        self.capacity()
    }
}

// Frames have one maker, and don't tell their capacity.
impl<R: TellRead + Drop> Made<R> for FrameReader<R> {
    fn made(alloc: Global, _form: Form, inner: R) -> Result<Self, MakeError<R>> {
        FrameReader::new(alloc, inner, 3)
    }

    fn room(&self) -> usize {
        0
    }
}

impl<W: TellWrite + Drop> Made<W> for FrameWriter<W> {
    fn made(alloc: Global, _form: Form, inner: W) -> Result<Self, MakeError<W>> {
        FrameWriter::new(alloc, inner, 3)
    }

    fn room(&self) -> usize {
        0
    }
}

// The capacity of what is made, where it is.
fn room_over<T: Made<S>, S: Drop>(made: Result<T, MakeError<S>>) -> Option<usize> {
    Some(made.ok()?.room())
}

fn makes<T: Made<S>, S: Debug + Drop>(
    alloc: Global,
    trial: &mut Trial,
    form: Form,
    inner: S,
) -> Option<usize> {
    let before = print(&inner);
    match T::made(alloc, form, inner) {
        Ok(it) => Some(it.room()),
        Err(MakeError(inner, e)) => {
            trial.refused(e);
            trial.unchanged(&inner, before);
            room_over(T::made(alloc, form, inner))
        }
    }
}

pub fn blocks(alloc: Global, trial: &mut Trial) {
    for &(which, capacity) in &BLOCKS {
        let mut made = capacity_of(alloc, which);
        if let Err(e) = made {
            trial.refused(e);
            made = capacity_of(alloc, which);
        }
        trial.sees(made.ok() == Some(capacity), "the capacity of a block");
    }
}

pub fn over_streams(alloc: Global, trial: &mut Trial) {
    for &(form, capacity) in &FORMS {
        // Of a reader, a writer and a writer of lines.
        let rooms = [
            makes::<BufReader<Told<Source<'static>>>, _>(alloc, trial, form, reading(b"ab")),
            makes::<BufWriter<Sink>, _>(alloc, trial, form, empty_sink()),
            makes::<LineWriter<Sink>, _>(alloc, trial, form, empty_sink()),
        ];
        trial.sees(rooms == [Some(capacity); 3], "the capacity over a stream");
    }
}

pub fn of_frames(alloc: Global, trial: &mut Trial) {
    let rooms = [
        makes::<FrameReader<Told<Source<'static>>>, _>(alloc, trial, Form::Usual, reading(b"ab")),
        makes::<FrameWriter<Sink>, _>(alloc, trial, Form::Usual, empty_sink()),
    ];
    trial.granted(rooms == [Some(0); 2]);
}

// No machine has as much, and what passes the limit of its kind isn't asked for.
pub fn huge(alloc: Global, trial: &mut Trial) {
    for &(ring, capacity, passes) in &[
        (false, MAX_CAPACITY, false),
        (false, MAX_CAPACITY + 1, true),
        (true, MAX_RING, false),
        (true, MAX_RING + 1, true),
    ] {
        let refused = empty(alloc, ring, capacity).err();
        let so = match refused {
            Some(GrowError::TooLarge) => passes,
            Some(GrowError::Memory) => !passes,
            None => false,
        };
        trial.sees(so, "a huge buffer");
    }
}
