//! A reader that gives its buffer up, by worked examples.
use crate::fixtures::of_four;
use buffer_redux::Unbuffer;
use buffer_redux::tell::{Tell, TellRead};
use redux_script::Answer;
use std::io::{ErrorKind, Read};
use std::test::Fail;
use tests_common::{Source, first, kind, read};

// The room of a read, what it returns, what it hands out, and what is left afterwards.
type Step = (
    usize,
    Result<usize, ErrorKind>,
    &'static [u8],
    &'static [u8],
);

fn has<R: Tell>(rdr: &Unbuffer<R>, bytes: &[u8]) -> bool {
    rdr.buf() == bytes && rdr.buf_len() == bytes.len() && rdr.is_buf_empty() == bytes.is_empty()
}

// Whether a read comes to what its step says.
fn is_so<R: TellRead>(rdr: &mut Unbuffer<R>, step: &Step) -> bool {
    let &(room, answer, handed, left) = step;
    let mut out = [0; 3];
    let answered = kind(read(rdr, &mut out[..room.min(3)]));
    answered == answer && first(&out, handed.len()) == handed && has(rdr, left)
}

// Whether these bytes are left at first, and all steps come to what they say.
fn walks<R: TellRead>(rdr: &mut Unbuffer<R>, held: &[u8], steps: &[Step]) -> bool {
    let mut is_so_far = has(rdr, held);
    for step in steps {
        is_so_far = is_so_far && is_so(rdr, step);
    }
    is_so_far
}

// What is held, what the stream gives by which script, the reads, and the offers that it saw.
type Row = (
    &'static [u8],
    &'static [u8],
    &'static [Answer],
    &'static [Step],
    &'static [usize],
);

static ROWS: [Row; 3] = [
    (
        &[1, 2],
        &[],
        &[],
        &[(0, Ok(0), &[], &[1, 2]), (3, Ok(2), &[1, 2], &[])],
        &[],
    ),
    (&[], &[7], &[], &[(2, Ok(1), &[7], &[])], &[2]),
    (
        &[1],
        &[7],
        &[Answer::Interrupt(1), Answer::Fail(ErrorKind::TimedOut)],
        &[
            (3, Ok(1), &[1], &[]),
            (3, Err(ErrorKind::Interrupted), &[], &[]),
            (3, Err(ErrorKind::TimedOut), &[], &[]),
            (3, Ok(1), &[7], &[]),
        ],
        &[3, 3, 3],
    ),
];

// Whether a reader hands out, and asks for, what its row says.
fn is_read(mut rdr: Unbuffer<Source>, row: &Row) -> bool {
    let &(held, _, _, steps, offers) = row;
    let is_walked = walks(&mut rdr, held, steps);
    rdr.into_inner().get_ref().offers() == offers && is_walked
}

#[test]
fn reads_by_rows(rt: HostRuntime) -> Result<(), Fail> {
    for row in &ROWS {
        let rdr = of_four(rt.alloc(), row.0, row.1, row.2)?;
        assert!(rt; is_read(rdr.unbuffer(), row), "{:?}", row.0);
    }
    Ok(())
}

fn read_exact<R: TellRead>(rdr: &mut Unbuffer<R>, out: &mut [u8]) -> Result<(), ErrorKind> {
    kind(rdr.read_exact(out))
}

// Whether three bytes come out whole, and then of two the front.
fn is_exact<R: TellRead>(rdr: &mut Unbuffer<R>) -> bool {
    let mut out = [0; 3];
    let whole = read_exact(rdr, &mut out);
    let is_whole = whole == Ok(()) && out == [1, 2, 7];
    let short = read_exact(rdr, &mut out);
    is_whole && short == Err(ErrorKind::UnexpectedEof) && out == [8, 9, 7]
}

#[test]
fn reads_exactly(rt: HostRuntime) -> Result<(), Fail> {
    let script = [Answer::Interrupt(1)];
    let rdr = of_four(rt.alloc(), &[1, 2], &[7, 8, 9], &script)?;
    assert!(rt; is_exact(&mut rdr.unbuffer()));
    Ok(())
}
