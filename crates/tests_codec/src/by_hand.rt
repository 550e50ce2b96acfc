//! Readers that are taken apart and go on, and the buffers of readers of pieces.
use crate::asks::{Asks, walk};
use crate::kinds::{HUGE, frame_reader, line_reader, lines_of};
use Way::{Fitted, Handed, OfFrames, OfLines, Reset};
use buffer_redux::{Buffer, MakeError};
use codec::laws::handed_over;
use codec::{Delimited, PieceReader, find_end, fit_buffer, piece_buffer};
use frame_reader::FrameReader;
use line_reader::LineReader;
use redux_script::Answer;
use std::alloc::Global;
use std::io;
use std::io::ErrorKind;
use std::test::Fail;
use tests_common::{Log, Source, holding_in, source};

type Lines = PieceReader<Source, Delimited>;

// How a reader goes on behind its first piece.
#[derive(Clone, Copy)]
enum Way {
    // One of pieces, by `set_decoder`.
    Reset,
    // Of its parts.
    Fitted,
    // The same, by the law that says what is left.
    Handed,
    // One of lines, of its parts.
    OfLines,
    // One of frames, of its parts.
    OfFrames,
}

// How it goes on, with which greatest length, and what comes then, or nothing where it doesn't go on.
static GO_ON: [(Way, usize, &'static [u8]); 10] = [
    (Reset, 3, b"n=bcd|a=1|n=e|"),
    (Reset, 4, b""),
    (Fitted, 4, b"n=bcd|a=1|n=e|"),
    (Fitted, HUGE, b""),
    (Handed, 4, b"n=bcd|a=1|n=e|"),
    (Handed, HUGE, b""),
    (OfLines, 9, b"m=9|n=bcd|a=1|n=e|n=end|"),
    (OfLines, 2, b"n=TooLong(2)|a=1|"),
    (OfLines, HUGE, b""),
    (OfFrames, 3, b"s=true|n=b|n=cde|a=1|n=end|"),
];

// A reader of lines of at most three bytes, over a buffer of so many bytes or of twelve.
fn over(
    alloc: Global,
    capacity: usize,
    inner: Source,
) -> Result<Lines, MakeError<(Source, Delimited)>> {
    PieceReader::with_capacity(alloc, capacity, inner, lines_of(3))
}

// What is left of a reader behind its first piece.
fn behind_one<A: Asks>(alloc: Global, reader: A) -> A {
    let mut reader = reader;
    let _ = reader.ask(b"n", &mut Log::new(alloc));
    reader
}

fn of_parts(alloc: Global, lines: Lines, max: usize) -> Option<Lines> {
    let (inner, buffer, _) = lines.into_inner_with_buffer();
    PieceReader::with_buffer(alloc, buffer, inner, lines_of(max)).ok()
}

fn lines_of_parts(
    alloc: Global,
    lines: LineReader<Source>,
    max: usize,
) -> Option<LineReader<Source>> {
    let (inner, buffer, _) = lines.into_inner_with_buffer().ok()?;
    LineReader::with_buffer(alloc, buffer, inner, max).ok()
}

fn frames_of_parts(alloc: Global, frames: FrameReader<Source>) -> Option<FrameReader<Source>> {
    let (inner, buffer) = frames.into_inner_with_buffer();
    FrameReader::with_buffer(alloc, buffer, inner, 3).ok()
}

// Whether a reader that goes on, or none, comes to this.
fn comes_to<A: Asks + Drop>(alloc: Global, reader: Option<A>, wants: &[u8]) -> bool {
    match reader {
        Some(reader) => walk(alloc, reader, wants, false).is_some(),
        None => wants.is_empty(),
    }
}

fn reset(lines: Lines, max: usize) -> Option<Lines> {
    let lines = lines.set_decoder(lines_of(max)).ok()?;
    (lines.decoder().max == max).then_some(lines)
}

fn handed(alloc: Global, lines: Lines, max: usize) -> Option<Lines> {
    handed_over(alloc, lines, lines_of(max)).ok()
}

const LINES: &[u8] = b"a\nbcd\ne";

fn pieces_go_on(alloc: Global, way: Way, max: usize, wants: &[u8]) -> io::Result<bool> {
    let lines = behind_one(alloc, over(alloc, 0, source(alloc, LINES, &[])?)?);
    let lines = match way {
        Reset => reset(lines, max),
        Fitted => of_parts(alloc, lines, max),
        _ => handed(alloc, lines, max),
    };
    Ok(comes_to(alloc, lines, wants))
}

fn lines_go_on(alloc: Global, max: usize, wants: &[u8]) -> io::Result<bool> {
    let lines = behind_one(alloc, line_reader(alloc, 3, source(alloc, LINES, &[])?)?);
    Ok(comes_to(alloc, lines_of_parts(alloc, lines, max), wants))
}

fn frames_go_on(alloc: Global, wants: &[u8]) -> io::Result<bool> {
    let stream = source(alloc, b"\x00\x01a\x00\x01b\x00\x03cde", &[])?;
    let frames = behind_one(alloc, frame_reader(alloc, 3, stream)?);
    Ok(comes_to(alloc, frames_of_parts(alloc, frames), wants))
}

fn goes_on(alloc: Global, row: (Way, usize, &[u8])) -> io::Result<bool> {
    let (way, max, wants) = row;
    match way {
        OfLines => lines_go_on(alloc, max, wants),
        OfFrames => frames_go_on(alloc, wants),
        _ => pieces_go_on(alloc, way, max, wants),
    }
}

// A reader in whose line a skip failed, as it is handed back where it isn't taken apart.
fn within_a_line(alloc: Global) -> io::Result<Option<LineReader<Source>>> {
    let script = [Answer::Serve(3), Answer::Fail(ErrorKind::TimedOut)];
    let mut lines = line_reader(alloc, 3, source(alloc, b"abcdef\nok", &script)?)?;
    let _ = lines.ask(b"d", &mut Log::new(alloc));
    Ok(lines.into_inner_with_buffer().err())
}

#[test]
fn stays_whole_within_a_line(rt: HostRuntime) -> Result<(), Fail> {
    let lines = within_a_line(rt.alloc())?;
    assert!(rt; comes_to(rt.alloc(), lines, b"k=true|n=ok|n=end|"));
    Ok(())
}

#[test]
fn go_on(rt: HostRuntime) -> Result<(), Fail> {
    for (at, row) in GO_ON.iter().enumerate() {
        assert!(rt; goes_on(rt.alloc(), *row)?, "row {at}");
    }
    Ok(())
}

// A capacity, or a buffer of one, the most bytes of a piece, and the capacity for pieces, or nothing where that is refused.
static CAPACITIES: [(usize, usize, Option<usize>); 3] = [
    (5, 4, Some(12)),
    (20, 4, Some(20)),
    (4096, usize::MAX, None),
];

fn capacity_of<E: Drop>(made: Result<Buffer, E>) -> Option<usize> {
    Some(made.ok()?.capacity())
}

// The capacity of a buffer that holds two bytes, once it is fitted.
fn fitted(alloc: Global, ring: bool, capacity: usize, most: usize) -> io::Result<Option<usize>> {
    let buffer = holding_in(alloc, ring, capacity, b"ab")?;
    Ok(capacity_of(fit_buffer(alloc, buffer, most)))
}

#[test]
fn buffers_for_pieces(rt: HostRuntime) -> Result<(), Fail> {
    let alloc = rt.alloc();
    for &(capacity, most, want) in &CAPACITIES {
        assert!(rt; capacity_of(piece_buffer(alloc, capacity, most)) == want);
        assert!(rt; fitted(alloc, false, capacity, most)? == want);
    }
    assert!(rt; fitted(alloc, true, 4096, 4)? == Some(4096));
    let stream = over(alloc, 0, source(alloc, b"", &[])?)?.into_inner();
    assert!(rt; over(alloc, usize::MAX, stream).is_err());
    let zeros = b"ab\0\0".as_slice();
    assert!(rt; find_end(0, zeros, 0, zeros.len()) == Some(2));
    Ok(())
}
