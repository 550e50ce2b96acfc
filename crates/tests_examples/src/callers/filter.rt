use buffer_redux::tell::Told;
use buffer_redux::{BufReader, LineSender, LineWriter};
use redux_script::{Answer, ScriptWriter};
use std::alloc::Global;
use std::io;
use std::io::ErrorKind;
use std::test::Fail;
use tests_common::{Target, taken_lines, target};
use uses::filter::{filter, matching};

const FULL: Answer = Answer::Fail(ErrorKind::StorageFull);

// What of these lines a device took that fails so, and whether the filter ended well.
fn filters(alloc: Global, faults: &[Answer]) -> io::Result<(LineWriter<Target>, bool)> {
    let mut reader = BufReader::new(alloc, Told::new(b"no one\nany one\nany other\n".as_slice()))?;
    let mut writer = LineSender::new(LineWriter::new(alloc, target(alloc, faults)?)?);
    let ended = matching(alloc, &mut reader, &mut writer, b"any").is_ok();
    Ok((writer.into_inner(), ended))
}

#[test]
fn copies_lines_up_to_one_that_fails(rt: HostRuntime) -> Result<(), Fail> {
    let (whole, ended) = filters(rt.alloc(), &[])?;
    assert!(rt; ended && taken_lines(&whole) == b"any one\nany other\n".as_slice());
    drop(whole);
    let (cut, ended) = filters(rt.alloc(), &[Answer::Serve(3), FULL, FULL])?;
    assert!(rt; !ended && cut.buffer() == b" one\n".as_slice());
    Ok(drop(cut))
}

// The same from a slice to a device of std, and what that took. The last fault is met as the writer is dropped.
static FILTERED: [(&[Answer], bool, &'static [u8]); 2] = [
    (&[], true, b"one\none more"),
    (&[Answer::Serve(3), FULL, FULL, FULL], false, b"one"),
];

#[test]
fn filters_streams_of_std(rt: HostRuntime) -> Result<(), Fail> {
    for &(script, ends, taken) in &FILTERED {
        let mut device = ScriptWriter::new(rt.alloc(), script)?;
        let lines = b"one\ntwo\none more".as_slice();
        let ended = filter(rt.alloc(), lines, &mut device, b"one").is_ok();
        assert!(rt; ended == ends && device.taken() == taken);
    }
    Ok(())
}
