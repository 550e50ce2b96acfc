//! Readers, and what runs them.
use buffer_redux::tell::Told;
use buffer_redux::{BufReader, GrowError, MakeError, SeekPlan, seek_plan};
use redux_play::play::{ReaderAnswer, ReaderCall, ReaderRun, play_reader};
use std::io::{BufRead, Read, SeekFrom};
use std::test::Fail;

#[test]
fn buf_reader(rt: HostRuntime) -> Result<(), Fail> {
    let alloc = rt.alloc();
    let mut reader = BufReader::with_capacity(alloc, 4, Told::new(b"abcdef".as_slice()))?;
    assert!(rt; reader.fill_buf()? == b"abcd".as_slice());
    reader.consume(3);
    assert!(rt; reader.buffer() == b"d".as_slice());
    Ok(drop(reader))
}

#[test]
fn make_error(rt: HostRuntime) -> Result<(), Fail> {
    let alloc = rt.alloc();
    let refused = BufReader::with_capacity(alloc, usize::MAX, Told::new(b"abc".as_slice()));
    let Err(MakeError(stream, why)) = refused else {
        return Ok(assert!(rt; false));
    };
    assert!(rt; matches!(why, GrowError::TooLarge));
    assert!(rt; stream.into_inner() == b"abc".as_slice());
    Ok(())
}

#[test]
fn unbuffer(rt: HostRuntime) -> Result<(), Fail> {
    let alloc = rt.alloc();
    let mut reader = BufReader::with_capacity(alloc, 2, Told::new(b"abc".as_slice()))?;
    assert!(rt; reader.fill_buf()? == b"ab".as_slice());
    let mut rest = reader.unbuffer();
    let mut out = [0; 4];
    assert!(rt; rest.read(&mut out)? == 2);
    assert!(rt; rest.is_buf_empty());
    assert!(rt; rest.read(&mut out)? == 1);
    Ok(drop(rest))
}

#[test]
fn plan(rt: HostRuntime) -> Result<(), Fail> {
    let plan = seek_plan(SeekFrom::Current(1), 4);
    assert!(rt; matches!(plan, SeekPlan::One(SeekFrom::Current(-3))));
    Ok(())
}

#[test]
fn reader_run(rt: HostRuntime) -> Result<(), Fail> {
    let alloc = rt.alloc();
    let mut reader = BufReader::with_capacity(alloc, 4, Told::new(b"abcde".as_slice()))?;
    let mut run = ReaderRun::new(alloc);
    play_reader(
        alloc,
        &mut reader,
        &[ReaderCall::Read(2), ReaderCall::Fill],
        &mut run,
    )?;
    let answers = run.answers.as_slice();
    assert!(rt; matches!(answers, [ReaderAnswer::Count(2), ReaderAnswer::Shown(2)]));
    assert!(rt; run.handed.as_slice() == b"ab".as_slice());
    Ok(drop(reader))
}
