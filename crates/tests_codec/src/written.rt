//! Writers of pieces and of frames over a stream that takes little, and that fails at each call in turn.
use crate::kinds::Kind::{Bulk, Frames, LengthsOf, Lines, Net};
use crate::kinds::{HUGE, Kind, Walk, is_so, lines_of};
use buffer_redux::{Buffer, IntoInnerError, MakeError};
use codec::laws::written_over;
use codec::{Delimited, PieceWriter};
use decoders::{Order, Width};
use frame_reader::FrameWriter;
use redux_script::Answer;
use std::alloc::Global;
use std::io;
use std::io::ErrorKind;
use std::test::Fail;
use tests_common::sweep::{FAULT, sweep};
use tests_common::{Target, holding, target};

// What is called, and what comes of it: call after call, its letter, what it is given, `=`, what it answers, and a bar.
type Row<'a> = (Kind, &'a [u8]);

static ROWS: [Row<'static>; 6] = [
    (
        Lines(3),
        b"wab=|wa\nb=HasEnd|w=|wabc=|wabcd=TooLong(4)|w\xff\0=|wxyz=|w\r=|f=|t=ab\n\nabc\n\xff\0\nxyz\n\r\n 1|",
    ),
    (
        LengthsOf(Width::Two, Order::BigEndian),
        b"whi=|wabcd=TooLong(4)|w=|wabc=|f=|t=\0\x02hi\0\0\0\x03abc 1|",
    ),
    (
        LengthsOf(Width::Four, Order::LittleEndian),
        b"whi=|w=|wabc=|f=|t=\x02\0\0\0hi\0\0\0\0\x03\0\0\0abc 1|",
    ),
    // The second is the example of the paper that has netstrings from.
    (
        Net,
        b"wabc=|whello world!=|w=|whello, world!=TooLong(13)|f=|t=3:abc,12:hello world!,0:, 1|",
    ),
    (
        Bulk,
        b"whello=|w=|w\r\n=|whello!=TooLong(6)|f=|t=$5\r\nhello\r\n$0\r\n\r\n$2\r\n\r\n\r\n 1|",
    ),
    (
        Frames(3),
        b"wabc=|w=|wabcd=TooLong(4)|wd=|we=|wf=|wg=|f=|\
t=\x00\x03abc\x00\x00\x00\x01d\x00\x01e\x00\x01f\x00\x01g 1|",
    ),
];

#[test]
fn pieces_come_out_whole(rt: HostRuntime) -> Result<(), Fail> {
    for (at, &(kind, wants)) in ROWS.iter().enumerate() {
        let met = sweep(rt.alloc(), &[Walk(kind, None, wants)], &[7, 1], FAULT)?;
        assert!(rt; met.is_ok(), "row {at}");
    }
    Ok(())
}

const FULL: Answer = Answer::Fail(ErrorKind::StorageFull);

// What the stream answers, and what comes of it.
static SCRIPTED: [(&[Answer], Row<'static>); 3] = [
    (
        &[],
        (
            Lines(3),
            b"bab=true|babc=true|bcde=true|b=true|b=false|ba\nb=HasEnd|babcd=TooLong(4)|\
p!=|t=! 0|s=|t=!ab\nabc\ncde\n\n 0|b=true|",
        ),
    ),
    (&[FULL], (Lines(3), b"ba=true|s=failed|t= 0|s=|t=a\n 0|")),
    (&[FULL], (Frames(3), b"wa=|s=failed|t= 0|s=|t=\x00\x01a 0|")),
];

#[test]
fn sends(rt: HostRuntime) -> Result<(), Fail> {
    for (at, &(script, (kind, wants))) in SCRIPTED.iter().enumerate() {
        assert!(rt;
            is_so(rt.alloc(), script, Walk(kind, None, wants))?,
            "row {at}"
        );
    }
    Ok(())
}

type LineWriter = PieceWriter<Target, Delimited>;

// Over a buffer in which another writer left a byte.
fn lines_behind(alloc: Global, script: &[Answer]) -> io::Result<LineWriter> {
    let buffer = holding(alloc, 12, b"x")?;
    Ok(PieceWriter::with_buffer(alloc, buffer, target(alloc, script)?, lines_of(3))?)
}

fn frames_behind(alloc: Global, script: &[Answer]) -> io::Result<FrameWriter<Target>> {
    let buffer = holding(alloc, 9, b"x")?;
    Ok(FrameWriter::with_buffer(alloc, buffer, target(alloc, script)?, 3)?)
}

// The stream, to which all was sent, or what is left in the buffer.
fn lines_apart(lines: LineWriter) -> Result<Target, Buffer> {
    match lines.into_inner() {
        Ok(inner) => Ok(inner),
        Err(IntoInnerError(lines, _)) => Err(lines.into_inner_with_buffer().1),
    }
}

fn frames_apart(frames: FrameWriter<Target>) -> Result<Target, Buffer> {
    match frames.into_inner() {
        Ok(inner) => Ok(inner),
        Err(IntoInnerError(frames, _)) => Err(frames.into_inner_with_buffer().1),
    }
}

// Whether the stream took that byte and was flushed once, or the byte is left.
fn is_apart(parts: Result<Target, Buffer>, sent: bool) -> bool {
    match parts {
        Ok(inner) => {
            let target = inner.into_inner();
            sent && target.taken() == b"x".as_slice() && target.flushes() == 1
        }
        Err(buffer) => !sent && buffer.buf() == b"x".as_slice(),
    }
}

#[test]
fn comes_apart(rt: HostRuntime) -> Result<(), Fail> {
    let alloc = rt.alloc();
    let scripts: [(&[Answer], bool); 2] = [(&[], true), (&[FULL], false)];
    for (script, sent) in scripts {
        assert!(rt; is_apart(lines_apart(lines_behind(alloc, script)?), sent));
        assert!(rt; is_apart(frames_apart(frames_behind(alloc, script)?), sent));
    }
    Ok(())
}

fn over_again(
    alloc: Global,
    lines: LineWriter,
    max: usize,
) -> Result<LineWriter, MakeError<(Buffer, Target, Delimited)>> {
    written_over(alloc, lines, lines_of(max))
}

// What is left in the buffer of a writer that is made again of its parts, for longer lines, and takes one, or that is refused.
fn goes_on(alloc: Global, lines: LineWriter, max: usize) -> Buffer {
    match over_again(alloc, lines, max) {
        Ok(mut lines) => {
            let _ = lines.write_buffered(b"abcd");
            lines.into_inner_with_buffer().1
        }
        Err(MakeError((buffer, _, _), _)) => buffer,
    }
}

#[test]
fn goes_on_with_longer_lines(rt: HostRuntime) -> Result<(), Fail> {
    let alloc = rt.alloc();
    assert!(rt; goes_on(alloc, lines_behind(alloc, &[])?, 4).buf() == b"xabcd\n".as_slice());
    assert!(rt; goes_on(alloc, lines_behind(alloc, &[])?, HUGE).buf() == b"x".as_slice());
    Ok(())
}
