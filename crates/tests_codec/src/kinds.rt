//! The kinds of readers and writers, each over the least buffer, and rows of calls that they are walked through.
use crate::asks::{Asks, walk};
use Kind::{Aba, Bulk, Frames, LengthsOf, Lines, LinesOf, Net, SevenBits, Trim, Whole};
use buffer_redux::MakeError;
use buffer_redux::tell::{TellRead, TellWrite};
use codec::{
    ByHeader, ByScan, ByTextHeader, Decoder, Delimited, Encoder, Ended, PieceReader, PieceWriter,
    Terminated, Trimmed,
};
use decoders::{BulkStrings, Lengths, Netstrings, Order, Varints, Width};
use frame_reader::{FrameReader, FrameWriter};
use line_reader::LineReader;
use redux_script::Answer;
use std::alloc::{AllocError, Global};
use std::fmt::Debug;
use std::io;
use tests_common::sweep::{Came, Run};
use tests_common::{Source, Target, source, target};

/// What is read: pieces by a decoder, frames, or lines.
#[derive(Clone, Copy)]
pub enum Kind {
    /// Pieces that a line feed ends, of at most so many bytes.
    Lines(usize),
    /// The same, of at most three, without carriage returns, or of which none is cut off.
    Trim,
    Whole,
    /// Pieces of at most four that `aba` ends.
    Aba,
    /// Netstrings of at most twelve bytes.
    Net,
    /// Bulk strings of at most five.
    Bulk,
    /// Pieces of at most three bytes behind their length.
    LengthsOf(Width, Order),
    SevenBits,
    /// Frames of at most so many bytes.
    Frames(u16),
    /// The lines of a reader of lines, of at most so many bytes.
    LinesOf(usize),
}

/// A reader of lines over the least buffer.
pub fn line_reader<R: TellRead + Drop>(
    alloc: Global,
    max: usize,
    inner: R,
) -> Result<LineReader<R>, MakeError<R>> {
    LineReader::with_capacity(alloc, 0, inner, max)
}

/// A reader of frames over the least buffer.
pub fn frame_reader<R: TellRead + Drop>(
    alloc: Global,
    max: u16,
    inner: R,
) -> Result<FrameReader<R>, MakeError<R>> {
    FrameReader::with_capacity(alloc, 0, inner, max)
}

fn piece_reader<R: TellRead + Drop, D: Decoder>(
    alloc: Global,
    inner: R,
    decoder: D,
) -> Result<PieceReader<R, D>, MakeError<(R, D)>> {
    PieceReader::with_capacity(alloc, 0, inner, decoder)
}

fn piece_writer<W: TellWrite + Drop, E: Encoder>(
    alloc: Global,
    inner: W,
    encoder: E,
) -> Result<PieceWriter<W, E>, MakeError<(W, E)>> {
    PieceWriter::with_capacity(alloc, 0, inner, encoder)
}

/// A writer of frames over the least buffer.
pub fn frame_writer<W: TellWrite + Drop>(
    alloc: Global,
    max: u16,
    inner: W,
) -> Result<FrameWriter<W>, MakeError<W>> {
    FrameWriter::with_capacity(alloc, 0, inner, max)
}

/// What is walked: what the stream gives, or nothing where a writer is asked, and the calls with their answers.
#[derive(Clone, Copy)]
pub struct Walk<'a>(pub Kind, pub Option<&'a [u8]>, pub &'a [u8]);

// By which script, and whether what failed is made again.
#[derive(Clone, Copy)]
struct Played<'a>(Walk<'a>, &'a [Answer], bool);

impl Played<'_> {
    fn reads(&self) -> bool {
        self.0.1.is_some()
    }

    // Over this reader or writer.
    fn of<A: Asks + Drop>(&self, alloc: Global, asked: A) -> io::Result<Option<Came>> {
        Ok(walk(alloc, asked, self.0.2, self.2))
    }

    fn source(&self, alloc: Global) -> Result<Source, AllocError> {
        source(alloc, self.0.1.unwrap_or(b""), self.1)
    }

    fn target(&self, alloc: Global) -> Result<Target, AllocError> {
        target(alloc, self.1)
    }
}

fn read<D: Decoder>(alloc: Global, decoder: D, played: Played<'_>) -> io::Result<Option<Came>>
where
    D::Wrong: Debug,
{
    played.of(alloc, piece_reader(alloc, played.source(alloc)?, decoder)?)
}

fn either<C: Decoder + Encoder>(
    alloc: Global,
    coder: C,
    played: Played<'_>,
) -> io::Result<Option<Came>>
where
    C::Wrong: Debug,
    C::Refusal: Debug,
{
    if played.reads() {
        return read(alloc, coder, played);
    }
    played.of(alloc, piece_writer(alloc, played.target(alloc)?, coder)?)
}

fn abas(alloc: Global, played: Played<'_>) -> io::Result<Option<Came>> {
    let end = Vec::from_slice(alloc, b"aba")?;
    read(alloc, Terminated { end, max: 4 }, played)
}

fn frames(alloc: Global, max: u16, played: Played<'_>) -> io::Result<Option<Came>> {
    if played.reads() {
        return played.of(alloc, frame_reader(alloc, max, played.source(alloc)?)?);
    }
    played.of(alloc, frame_writer(alloc, max, played.target(alloc)?)?)
}

fn lines(alloc: Global, max: usize, played: Played<'_>) -> io::Result<Option<Came>> {
    played.of(alloc, line_reader(alloc, max, played.source(alloc)?)?)
}

/// No buffer holds three lines of so many bytes.
pub const HUGE: usize = 0x4000_0000_0000_0000;

/// Lines of at most so many bytes, or of `HUGE`.
pub fn lines_of(max: usize) -> Delimited {
    Delimited {
        end: b'\n',
        max: max.min(HUGE),
    }
}

fn walks(alloc: Global, played: Played<'_>) -> io::Result<Option<Came>> {
    match played.0.0 {
        Lines(max) => either(alloc, lines_of(max), played),
        Trim => read(alloc, Trimmed(lines_of(3)), played),
        Whole => read(alloc, Ended(lines_of(3)), played),
        Aba => abas(alloc, played),
        Net => either(
            alloc,
            ByHeader(ByScan(ByTextHeader(Netstrings { max: 12 }))),
            played,
        ),
        Bulk => either(
            alloc,
            ByHeader(ByScan(ByTextHeader(BulkStrings { max: 5 }))),
            played,
        ),
        LengthsOf(width, order) => {
            let lengths = Lengths {
                width,
                order,
                max: 3,
            };
            either(alloc, ByHeader(lengths), played)
        }
        SevenBits => read(alloc, ByHeader(ByScan(Varints { max: 3 })), played),
        Frames(max) => frames(alloc, max, played),
        LinesOf(max) => lines(alloc, max, played),
    }
}

impl Run for Walk<'_> {
    fn run(&self, alloc: Global, script: &[Answer]) -> io::Result<Option<Came>> {
        walks(alloc, Played(*self, script, true))
    }
}

/// Whether a row is so by this script.
pub fn is_so(alloc: Global, script: &[Answer], walk: Walk<'_>) -> io::Result<bool> {
    Ok(walks(alloc, Played(walk, script, false))?.is_some())
}
