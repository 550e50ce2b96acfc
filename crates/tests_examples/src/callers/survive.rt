use buffer_redux::BufReader;
use buffer_redux::tell::TellRead;
use redux_script::Answer;
use std::io::ErrorKind;
use std::test::Fail;
use tests_common::{kind, reader, source};
use uses::survive::read_patiently;

const SCRIPT: [Answer; 5] = [
    Answer::Serve(2),
    Answer::Fail(ErrorKind::WouldBlock),
    Answer::Interrupt(1),
    Answer::Serve(1),
    Answer::Fail(ErrorKind::Other),
];

fn reads<R: TellRead>(
    reader: &mut BufReader<R>,
    all: &mut Vec<u8>,
    faults: u32,
) -> Result<(), ErrorKind> {
    if reader.capacity() == 0 {
        return Ok(());
    }
    kind(read_patiently(reader, all, faults))
}

#[test]
fn faults_lose_no_byte(rt: HostRuntime) -> Result<(), Fail> {
    let mut all = Vec::new(rt.alloc());
    let mut reader = reader(
        rt.alloc(),
        4,
        b"",
        source(rt.alloc(), b"all of it", &SCRIPT)?,
    )?;
    assert!(rt; matches!(reads(&mut reader, &mut all, 5), Err(ErrorKind::Other)));
    assert!(rt; all.as_slice() == b"all".as_slice());
    assert!(rt; reads(&mut reader, &mut all, 0).is_ok());
    assert!(rt; all.as_slice() == b"all of it".as_slice());
    Ok(drop(reader))
}
