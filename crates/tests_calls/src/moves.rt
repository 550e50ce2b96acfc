//! Each call that moves bytes into a bare buffer or out of it, by itself or by the law that says what it does to the potential.
use redux_buffer::laws::potential;
use redux_buffer::tell::{TellRead, TellWrite, Told};
use redux_buffer::{Buffer, GrowError, laws};
use redux_script::Answer;
use std::alloc::Global;
use std::io;
use std::io::{ErrorKind, Read};
use std::test::Fail;
use tests_common::{empty, first, holding, kind, target};

// A call, with how much it is asked for, or what it is given.
#[derive(Clone, Copy)]
enum Move {
    ToSlice(usize),
    FromSlice(&'static [u8]),
    Append(&'static [u8]),
    Push(&'static [u8]),
    Max(usize),
    All,
    Write,
    Read,
    Consume(usize),
    Exactly(usize),
    MakeRoom,
    Reserve(usize),
    Limit(usize),
    Clear,
}

// A count, if the call returns one, or the kind of an error.
type Answered = Result<usize, ErrorKind>;

fn done<E: Into<io::Error>>(answer: Result<(), E>) -> Answered {
    match answer {
        Ok(()) => Ok(0),
        Err(e) => Err(e.into().kind()),
    }
}

// The first `room` bytes, or all.
fn room_of(out: &mut [u8], room: usize) -> &mut [u8] {
    let room = room.min(out.len());
    &mut out[..room]
}

// Appends all in two halves, where there is space behind it.
fn append(b: &mut Buffer, src: &[u8]) -> usize {
    if !b.has_space_behind(src.len()) {
        return 0;
    }
    let (front, back) = src.split_at(src.len() / 2);
    b.append(front);
    b.append_short(back);
    src.len()
}

// Drops so many bytes, where they are held.
fn consume_exact(b: &mut Buffer, n: usize) {
    if n <= b.len() {
        b.consume_exact(n);
    }
}

// A call over these streams and this slice, by its law if it has one; or by itself, but for those that `replay` makes. It
// promises nothing.
fn makes<R: TellRead, W: TellWrite>(
    b: &mut Buffer,
    call: Move,
    (rdr, wrt): (&mut R, &mut W),
    out: &mut [u8],
    is_law: bool,
) -> Answered {
    match call {
        Move::ToSlice(room) if is_law => return Ok(potential::copy_to_slice(b, room_of(out, room))),
        Move::ToSlice(room) => return Ok(b.copy_to_slice(room_of(out, room))),
        Move::FromSlice(src) => return Ok(potential::copy_from_slice(b, src)),
        Move::Append(src) => return Ok(append(b, src)),
        Move::Push(src) => return done(potential::push_bytes(b, src)),
        Move::Max(max) if is_law => return done(potential::write_max(b, max, wrt)),
        Move::Max(max) => return done(b.write_max(max, wrt)),
        Move::All if is_law => return done(potential::write_all(b, wrt)),
        Move::All => return done(b.write_all(wrt)),
        Move::Write if is_law => return kind(potential::write_to(b, wrt)),
        Move::Write => return kind(b.write_to(wrt)),
        Move::Read => return kind(potential::read_from(b, rdr)),
        Move::Consume(n) => potential::consume(b, n),
        Move::Exactly(n) => consume_exact(b, n),
        Move::MakeRoom => potential::make_room(b),
        Move::Reserve(n) => return done(potential::reserve(b, n)),
        Move::Limit(most) => return done(potential::set_limit(b, most)),
        Move::Clear => potential::clear(b),
    }
    Ok(0)
}

// A call, what it returns, and then the bytes that are held and how many can be written behind them.
type Step = (Move, Answered, &'static [u8], usize);

// What a buffer of capacity 8 holds at first, what its stream answers, the calls, and what is in the slice and was received then.
type Walk = (
    &'static [u8],
    &'static [Answer],
    &'static [Step],
    &'static [u8],
    &'static [u8],
);

const OTHER: Answer = Answer::Fail(ErrorKind::Other);

const REFUSED: Answered = Err(ErrorKind::InvalidInput);

const INTO_A_SLICE: &'static [Step] = &[
    (Move::ToSlice(0), Ok(0), &[1, 2], 6),
    (Move::ToSlice(5), Ok(2), &[], 8),
    (Move::ToSlice(5), Ok(0), &[], 8),
];

const AT_MOST: &'static [Step] = &[
    (Move::Max(3), Err(ErrorKind::Other), &[3, 4], 4),
    (Move::Max(1), Ok(0), &[4], 4),
    (Move::Max(18446744073709551615), Ok(0), &[], 8),
];

// A write of nothing isn't made.
const ONCE: &'static [Step] = &[
    (Move::Write, Err(ErrorKind::Other), &[1, 2, 3, 4], 4),
    (Move::Write, Ok(1), &[2, 3, 4], 4),
    (Move::All, Err(ErrorKind::WriteZero), &[3, 4], 4),
    (Move::All, Ok(0), &[], 8),
    (Move::Write, Ok(0), &[], 8),
];

const IN_PLACE: &'static [Step] = &[
    (Move::Consume(5), Ok(0), &[6, 7, 8], 0),
    (Move::Read, Ok(0), &[6, 7, 8], 0),
    (Move::MakeRoom, Ok(0), &[6, 7, 8], 5),
    (Move::Reserve(2), Ok(0), &[6, 7, 8], 5),
    (Move::Push(&[9]), Ok(0), &[6, 7, 8, 9], 4),
    (Move::Read, Ok(1), &[6, 7, 8, 9, 40], 3),
    (
        Move::FromSlice(&[1, 2, 3, 4]),
        Ok(3),
        &[6, 7, 8, 9, 40, 1, 2, 3],
        0,
    ),
    (Move::Limit(7), REFUSED, &[6, 7, 8, 9, 40, 1, 2, 3], 0),
    (Move::Limit(9), Ok(0), &[6, 7, 8, 9, 40, 1, 2, 3], 0),
    (Move::Reserve(2), REFUSED, &[6, 7, 8, 9, 40, 1, 2, 3], 0),
    (Move::Push(&[5]), REFUSED, &[6, 7, 8, 9, 40, 1, 2, 3], 0),
    (Move::Exactly(7), Ok(0), &[3], 0),
    (Move::Consume(99), Ok(0), &[], 8),
    (Move::Append(&[3, 4, 5]), Ok(3), &[3, 4, 5], 5),
    (Move::Append(&[1, 2, 3, 4, 5]), Ok(0), &[3, 4, 5], 5),
    (Move::Clear, Ok(0), &[], 8),
];

static WALKS: [Walk; 4] = [
    (&[1, 2], &[], INTO_A_SLICE, &[1, 2, 0, 0, 0], &[]),
    (
        &[1, 2, 3, 4],
        &[Answer::Serve(2), OTHER],
        AT_MOST,
        &[0; 5],
        &[1, 2, 3, 4],
    ),
    (
        &[1, 2, 3, 4],
        &[OTHER, Answer::Serve(1), Answer::Serve(1), Answer::Serve(0)],
        ONCE,
        &[0; 5],
        &[1, 2, 3, 4],
    ),
    (&[1, 2, 3, 4, 5, 6, 7, 8], &[], IN_PLACE, &[0; 5], &[]),
];

// Whether a buffer holds this, and has so much space behind it, and the rest in front.
fn is_so(b: &Buffer, held: &[u8], space: usize) -> bool {
    b.buf() == held
        && b.usable_space() == space
        && b.free_space() == 8usize.saturating_sub(held.len())
}

// Whether the calls come to what their steps say.
fn walks<R: TellRead, W: TellWrite>(
    b: &mut Buffer,
    steps: &[Step],
    (rdr, wrt): (&mut R, &mut W),
    out: &mut [u8],
    is_law: bool,
) -> bool {
    for &(call, answer, held, space) in steps {
        if makes(b, call, (&mut *rdr, &mut *wrt), out, is_law) != answer || !is_so(b, held, space) {
            return false;
        }
    }
    true
}

// Whether a walk is walked, and leaves the slice and the stream as it says.
fn goes(alloc: Global, walk: &Walk, is_law: bool) -> Result<bool, Fail> {
    let &(held, script, steps, copied, received) = walk;
    let mut wrt = target(alloc, script)?;
    let mut b = holding(alloc, 8, held)?;
    let mut rdr = Told::new([40].as_slice());
    let mut out = [0; 5];
    let is_walked = walks(&mut b, steps, (&mut rdr, &mut wrt), &mut out, is_law);
    drop(b);
    Ok(is_walked && out.as_slice() == copied && wrt.get_ref().taken() == received)
}

#[test]
fn moves(rt: HostRuntime) -> Result<(), Fail> {
    for (row, walk) in WALKS.iter().enumerate() {
        for is_law in [false, true] {
            assert!(rt; goes(rt.alloc(), walk, is_law)?, "{row} {is_law}");
        }
    }
    Ok(())
}

// What goes through an empty buffer at once.
fn through(b: &mut Buffer, out: &mut [u8]) -> usize {
    laws::block_law(b);
    laws::ring_law(b);
    if b.is_empty() {
        laws::copy_through(b, &[1, 2, 3], out)
    } else {
        0
    }
}

fn goes_through(alloc: Global, ring: bool) -> Result<bool, GrowError> {
    let mut b = empty(alloc, ring, 8)?;
    let mut out = [0; 2];
    let count = through(&mut b, &mut out);
    b.buf_mut().fill(7);
    Ok(
        count == 2
            && first(&out, 2) == [1, 2].as_slice()
            && b.buf() == [7].as_slice()
            && b.is_ringbuf() == ring,
    )
}

#[test]
fn laws_of_either_kind(rt: HostRuntime) -> Result<(), Fail> {
    assert!(rt; goes_through(rt.alloc(), false)? && goes_through(rt.alloc(), true)?);
    Ok(())
}

// Says that it gave all that it was asked for, and leaves the bytes as they are.
#[derive(Drop)]
struct Pretends;

impl Read for Pretends {
    fn read(&mut self, buf: &mut [u8]) -> io::Result<usize> {
        Ok(buf.len())
    }
}

fn take_in<R: TellRead>(b: &mut Buffer, rdr: &mut R) -> Answered {
    kind(b.read_from(rdr))
}

// What a ring has before anything is written into it are zeros, and they come round as bytes do.
fn comes_round(b: &mut Buffer) -> bool {
    let mut rdr = Told::new(Pretends);
    let filled = [
        take_in(b, &mut rdr),
        Ok(b.usable_space()),
        take_in(b, &mut rdr),
    ];
    b.consume(8187);
    let copied = [b.usable_space(), b.copy_from_slice(&[1, 2, 3, 4, 5])];
    let is_round = b.buf() == [0, 0, 0, 0, 0, 1, 2, 3, 4, 5].as_slice();
    b.clear();
    filled == [Ok(8192), Ok(0), Ok(0)]
        && copied == [8187, 5]
        && is_round
        && b.usable_space() == 8192
}

#[test]
fn pretended(rt: HostRuntime) -> Result<(), Fail> {
    assert!(rt; comes_round(&mut empty(rt.alloc(), true, 8192)?));
    Ok(())
}
