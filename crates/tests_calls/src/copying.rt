//! What copies return and leave, of a bare reader, and of `bufcopy` where the flush at its end fails. Its other runs are those of
//! the program.
use crate::fixtures::of_four;
use buffer_redux::tell::{TellRead, TellWrite, Told};
use buffer_redux::{BufReader, add_total, copy_buf};
use copier::run::run;
use redux_script::{Answer, FaultAt};
use std::alloc::Global;
use std::io;
use std::io::ErrorKind;
use std::test::Fail;
use tests_common::{Source, Target, kind, target};

// What a source gives by which script, how its target answers, what a copy between them returns, what is received then, and what
// is left in the reader.
type Copy = (
    &'static [u8],
    &'static [Answer],
    &'static [Answer],
    Result<u64, ErrorKind>,
    &'static [u8],
    &'static [u8],
);

// A writer that takes nothing ends a copy, and nothing is consumed. 64 interruptions in a row are passed over, and anew behind
// each turn.
static COPIES: [Copy; 4] = [
    (&[1, 2, 3], &[], &[Answer::Serve(0)], Ok(0), &[], &[1, 2, 3]),
    (
        &[1, 2],
        &[
            Answer::Interrupt(64),
            Answer::Serve(1),
            Answer::Interrupt(64),
            Answer::Serve(1),
        ],
        &[],
        Ok(2),
        &[1, 2],
        &[],
    ),
    (
        &[1],
        &[Answer::Interrupt(65)],
        &[],
        Err(ErrorKind::Interrupted),
        &[],
        &[],
    ),
    (
        &[1, 2],
        &[],
        &[Answer::Serve(1), Answer::Interrupt(65)],
        Err(ErrorKind::Interrupted),
        &[1],
        &[2],
    ),
];

fn copy<R: TellRead, W: TellWrite>(
    reader: &mut BufReader<R>,
    writer: &mut W,
) -> Result<u64, ErrorKind> {
    kind(copy_buf(reader, writer))
}

// Whether a copy comes to what its row says.
fn is_copied(mut reader: BufReader<Source>, mut writer: Target, row: &Copy) -> bool {
    let &(_, _, _, wanted, taken, left) = row;
    copy(&mut reader, &mut writer) == wanted
        && writer.get_ref().taken() == taken
        && reader.buffer() == left
}

fn copies(alloc: Global, row: &Copy) -> Result<bool, Fail> {
    let reader = of_four(alloc, &[], row.0, row.1)?;
    Ok(is_copied(reader, target(alloc, row.2)?, row))
}

#[test]
fn copies_bare(rt: HostRuntime) -> Result<(), Fail> {
    for (at, row) in COPIES.iter().enumerate() {
        assert!(rt; copies(rt.alloc(), row)?, "{at}");
    }
    Ok(())
}

// A run of `bufcopy` through two bytes, which promises nothing.
fn runs<R: TellRead, W: TellWrite>(alloc: Global, reader: R, writer: W) -> (io::Result<u64>, R, W) {
    run(alloc, false, 2, reader, writer)
}

// The writer's fourth call is the flush: all was received by then.
#[test]
fn a_flush_in_vain(rt: HostRuntime) -> Result<(), Fail> {
    let fault = Answer::Fail(ErrorKind::Other);
    let writer = Told::new(FaultAt::new(Vec::new(rt.alloc()), 3, fault));
    let (came, _, writer) = runs(rt.alloc(), Told::new(b"abcdef".as_slice()), writer);
    let received = writer.get_ref().get_ref().as_slice() == b"abcdef".as_slice();
    assert!(rt; kind(came) == Err(ErrorKind::Other) && received);
    Ok(drop(writer))
}

// A total ends where a `u64` does: a total, what is added, and what comes.
static TOTALS: [(u64, usize, Option<u64>); 2] = [
    (18446744073709551615, 0, Some(18446744073709551615)),
    (18446744073709551615, 1, None),
];

#[test]
fn adds_up_to_a_u64(rt: HostRuntime) -> Result<(), Fail> {
    for &(total, n, came) in &TOTALS {
        assert!(rt; add_total(total, n) == came);
    }
    Ok(())
}
