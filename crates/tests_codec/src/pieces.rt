//! Pieces, frames and lines, whole and byte by byte, with a fault at each read.
use crate::kinds::Kind::{
    Aba, Bulk, Frames, LengthsOf, Lines, LinesOf, Net, SevenBits, Trim, Whole,
};
use crate::kinds::{Kind, Walk, is_so};
use decoders::{Order, Width};
use line_reader::trimmed;
use redux_script::Answer;
use std::alloc::Global;
use std::io;
use std::io::ErrorKind;
use std::test::Fail;
use tests_common::sweep::{FAULT, sweep};

// What the stream gives, and call after call: its letter, `=`, what it answers, and a bar.
type Row<'a> = (&'a [u8], &'a [u8]);

// The pieces are those of std's `split` at the byte, where none is too long.
static LINES: [Row<'static>; 3] = [
    (b"a\n\n\nbc", b"n=a|n=|n=|n=bc|n=end|n=end|"),
    (b"abc\nabcd", b"n=abc|n=TooLong(3)|r=abcd|"),
    (b"\r\nab\r\n", b"n=\r|n=ab\r|n=end|"),
];

// The pieces are those of std's `lines`.
static TRIMMED: [Row<'static>; 2] = [
    (b"a\r\nb\n\r\r\nc\r", b"n=a|n=b|n=\r|n=c\r|n=end|n=end|"),
    (b"ab\r\nabc\r", b"n=ab|n=TooLong(3)|r=abc\r|"),
];

// The same lines, but none that the stream ended in.
static WHOLE: [Row<'static>; 2] = [(b"", b"n=end|n=end|"), (b"a\nbc", b"n=a|n=Cut(2)|r=bc|")];

// The pieces are those of Python's `split` at `aba`, where none is too long.
static SEVERAL: [Row<'static>; 3] = [
    (b"xabaababaz", b"n=x|n=|n=baz|n=end|n=end|"),
    (b"wxyzaba", b"n=wxyz|n=end|"),
    (b"abxyabz", b"n=TooLong(4)|r=abxyabz|"),
];

// `12:hello world!,` is the example of the paper that has netstrings from.
static NETSTRINGS: [Row<'static>; 5] = [
    (
        b"3:abc,0:,12:hello world!,",
        b"n=abc|n=|n=hello world!|n=end|n=end|",
    ),
    (b"1:a,5x", b"n=a|n=NoHeader|r=5x|"),
    // No length without a digit, and no zero in front of another.
    (b"0:,:,", b"n=|n=NoHeader|"),
    (b"0:,01:a,", b"n=|n=NoHeader|"),
    (b"1:ab", b"n=NoTail|r=1:ab|"),
];

// What is too long is so before more of it came.
static LIMITS: [Row<'static>; 5] = [
    (b"13:", b"n=TooLong(13)|r=13:|"),
    (b"999999999999999999:", b"n=TooLong(999999999999999999)|"),
    (b"9999999999999999999:", b"n=NoHeader|"),
    (b"3:ab", b"n=Truncated(4)|"),
    (b"3:abc", b"n=Truncated(5)|"),
];

static STRINGS: [Row<'static>; 5] = [
    (b"$5\r\nhello\r\n$0\r\n\r\n", b"n=hello|n=|n=end|"),
    (b"$2\r\n\r\n\r\n", b"n=\r\n|n=end|"),
    (b"$-1\r\n", b"n=NoHeader|"),
    (b"$1\na\r\n", b"n=NoHeader|"),
    // Wrong at the first byte that isn't the tail's.
    (b"$1\r\na\n", b"n=NoTail|"),
];

static ONE: [Row<'static>; 1] = [(b"\x02hi\0\x04", b"n=hi|n=|n=TooLong(4)|r=\x04|")];

static BIG: [Row<'static>; 3] = [
    (b"\0\x02hi\0\0", b"n=hi|n=|n=end|"),
    (b"\x01\0", b"n=TooLong(256)|"),
    (b"\0\x03ab", b"n=Truncated(4)|r=\0\x03ab|"),
];

static LITTLE: [Row<'static>; 1] = [(b"\x02\0\0\0hi\0\0\0\0", b"n=hi|n=|n=end|")];

// The greatest length of all takes no sum and no memory.
static EIGHT: [Row<'static>; 2] = [
    (b"\0\0\0\0\0\0\0\x01a", b"n=a|n=end|"),
    (
        b"\xff\xff\xff\xff\xff\xff\xff\xff",
        b"n=TooLong(18446744073709551615)|",
    ),
];

// Lengths of MQTT 3.1.1, table 2.4, and the example of Protocol Buffers' encoding, 300.
static VARINTS: [Row<'static>; 6] = [
    (b"\x02hi\0", b"n=hi|n=|n=end|"),
    (b"\xac\x02", b"n=TooLong(300)|"),
    (b"\xff\xff\x7f", b"n=TooLong(2097151)|"),
    (b"\xff\xff\xff\x7f", b"n=TooLong(268435455)|"),
    (b"\xff\xff\xff\xff", b"n=NoHeader|"),
    (b"\x80", b"n=Truncated(1)|"),
];

static FRAMES: [Row<'static>; 4] = [
    (b"\x00\x03abc\x00\x00\x00\x02d", b"n=abc|n=|n=Truncated(3)|"),
    (b"\x00\x04", b"n=TooLong(4)|"),
    (b"", b"n=end|n=end|"),
    (b"\x00\x01a\x00\x01b", b"n=a|n=b|n=end|"),
];

// The higher byte of a length comes first: these are 256 bytes.
static LONG: [Row<'static>; 1] = [(b"\x01\x00", b"n=TooLong(256)|")];

// The lines are those of std's `read_until` without their ends, and those that are trimmed are those of its `lines`.
static LINES_OF: [Row<'static>; 5] = [
    (b"a\n\n\nbc", b"n=a|n=|n=|n=bc|n=end|n=end|"),
    (b"abc\nabcd", b"n=abc|n=TooLong(3)|"),
    // Nothing is decoded.
    (b"\xff\0\n\xc3", b"n=\xff\0|n=\xc3|n=end|"),
    (b"a\r\n\r\r\nb\na\rb\n", b"t=a|t=\r|t=b|t=a\rb|t=end|"),
    (b"ab\r\n\nab\r", b"t=ab|n=|t=ab\r|n=end|"),
];

// Whether these are so in pieces of at most 7, 3, 2 and 1 bytes, with such a fault at each call, and without.
fn are_so(alloc: Global, tables: &[(Kind, &[Row<'_>])], fault: Answer) -> io::Result<bool> {
    for &(kind, rows) in tables {
        for &(given, wants) in rows {
            let walk = Walk(kind, Some(given), wants);
            if sweep(alloc, &[walk], &[7, 3, 2, 1], fault)?.is_err() {
                return Ok(false);
            }
        }
    }
    Ok(true)
}

#[test]
fn by_their_ends(rt: HostRuntime) -> Result<(), Fail> {
    let tables: [(Kind, &[Row<'_>]); 5] = [
        (Lines(3), &LINES),
        (Trim, &TRIMMED),
        (Whole, &WHOLE),
        (Aba, &SEVERAL),
        (LinesOf(3), &LINES_OF),
    ];
    assert!(rt; are_so(rt.alloc(), &tables, FAULT)?);
    assert!(rt; are_so(rt.alloc(), &tables, Answer::Interrupt(1))?);
    Ok(())
}

#[test]
fn by_their_lengths(rt: HostRuntime) -> Result<(), Fail> {
    let tables: [(Kind, &[Row<'_>]); 10] = [
        (Net, &NETSTRINGS),
        (Net, &LIMITS),
        (Bulk, &STRINGS),
        (LengthsOf(Width::One, Order::BigEndian), &ONE),
        (LengthsOf(Width::Two, Order::BigEndian), &BIG),
        (LengthsOf(Width::Four, Order::LittleEndian), &LITTLE),
        (LengthsOf(Width::Eight, Order::BigEndian), &EIGHT),
        (SevenBits, &VARINTS),
        (Frames(3), &FRAMES),
        (Frames(255), &LONG),
    ];
    assert!(rt; are_so(rt.alloc(), &tables, FAULT)?);
    Ok(())
}

const FAILS: Answer = Answer::Fail(ErrorKind::TimedOut);

// What the stream answers, and what comes of it.
static SCRIPTED: [(Kind, &[Answer], Row<'static>); 10] = [
    (
        Lines(3),
        &[Answer::Serve(5)],
        (
            b"ab\ncd",
            b"s=false|b=none|a=0|f=true|s=true|b=ab|s=false|l=0|b=none|l=2|r=cd|a=1|n=cd|e=true|s=true|b=none|n=end|e=false|a=2|",
        ),
    ),
    (
        Lines(3),
        &[FAILS],
        (
            b"a\n",
            b"f=failed|f=true|a=2|n=a|f=false|e=true|a=3|n=end|a=3|",
        ),
    ),
    (
        Lines(3),
        &[],
        (
            b"abcdef\ng",
            b"f=true|s=true|b=none|n=TooLong(3)|d=|l=0|s=false|n=g|n=end|",
        ),
    ),
    (
        Lines(3),
        &[Answer::Serve(3), FAILS],
        (b"a\nbcd\n", b"n=a|p=failed|p=c|n=bd|a=4|"),
    ),
    // Two frames come in one read; and the stream fails within a length, and gives the rest in one read.
    (
        Frames(3),
        &[],
        (
            b"\x00\x01a\x00\x01b",
            b"s=false|n=a|r=\x00\x01b|s=true|n=b|a=1|",
        ),
    ),
    (
        Frames(3),
        &[Answer::Serve(1), FAILS],
        (b"\x00\x01a", b"n=failed|r=\x00|n=a|n=end|a=4|"),
    ),
    // Lines that are dropped, of which one is whole, and one is too long.
    (
        LinesOf(3),
        &[Answer::ServeEach(1)],
        (
            b"ab\nabcdefghijklmnopqrst\nab",
            b"n=ab|n=TooLong(3)|d=21|n=ab|n=end|d=0|",
        ),
    ),
    (
        LinesOf(3),
        &[Answer::Serve(3), FAILS],
        (
            b"abcdef\nok",
            b"d=failed|k=true|s=false|n=ok|k=false|s=true|n=end|",
        ),
    ),
    (
        LinesOf(3),
        &[Answer::Serve(3)],
        (b"a\nbcd\n", b"s=false|n=a|p=c|n=bd|a=3|"),
    ),
    // A terminal that ends after three bytes of a line, and goes on.
    (
        LinesOf(3),
        &[
            Answer::Serve(7),
            Answer::Serve(0),
            Answer::Serve(2),
            Answer::Serve(0),
        ],
        (
            b"a\nb\ncdef\ng\n",
            b"t=a|s=true|d=2|a=1|n=cde|n=end|a=2|d=2|a=3|d=0|n=end|a=4|n=g|",
        ),
    ),
];

#[test]
fn as_the_stream_gives(rt: HostRuntime) -> Result<(), Fail> {
    for (at, &(kind, script, (given, wants))) in SCRIPTED.iter().enumerate() {
        assert!(rt;
            is_so(rt.alloc(), script, Walk(kind, Some(given), wants))?,
            "row {at}"
        );
    }
    Ok(())
}

// As std's `lines` has it.
static TRIMS: [(&'static [u8], &'static [u8]); 4] = [
    (b"", b""),
    (b"a\r", b"a"),
    (b"\r\r", b"\r"),
    (b"\ra", b"\ra"),
];

#[test]
fn trims_lines(rt: HostRuntime) -> Result<(), Fail> {
    for &(line, want) in &TRIMS {
        assert!(rt; trimmed(line) == want);
    }
    Ok(())
}
