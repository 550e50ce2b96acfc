//! Streams of std that tell, and scripted ones.
use buffer_redux::tell::{TellWrite, Told};
use redux_script::{Answer, FaultAt, ScriptReader, ScriptSeeker, ScriptWriter};
use std::io::{ErrorKind, Read, Seek, SeekFrom, Write};
use std::test::Fail;

#[test]
fn told(rt: HostRuntime) -> Result<(), Fail> {
    let alloc = rt.alloc();
    let mut file = Told::new(Vec::<u8>::new(alloc));
    assert!(rt; file.write_told(b"abc")? == 3);
    assert!(rt; file.into_inner().as_slice() == b"abc".as_slice());
    Ok(())
}

#[test]
fn script_reader(rt: HostRuntime) -> Result<(), Fail> {
    let alloc = rt.alloc();
    let script = [Answer::Serve(2), Answer::Fail(ErrorKind::TimedOut)];
    let mut reader = ScriptReader::new(alloc, b"abc", &script)?;
    let mut out = [0; 4];
    assert!(rt; reader.read(&mut out)? == 2);
    assert!(rt; reader.read(&mut out).is_err());
    assert!(rt; reader.read(&mut out)? == 1);
    Ok(drop(reader))
}

#[test]
fn fault_at(rt: HostRuntime) -> Result<(), Fail> {
    let once = Answer::Fail(ErrorKind::TimedOut);
    let mut reader = FaultAt::new(b"abc".as_slice(), 1, once);
    let mut out = [0; 1];
    assert!(rt; reader.read(&mut out)? == 1);
    assert!(rt; reader.read(&mut out).is_err());
    assert!(rt; reader.read(&mut out)? == 1);
    assert!(rt; reader.calls() == 3);
    Ok(())
}

#[test]
fn script_writer(rt: HostRuntime) -> Result<(), Fail> {
    let alloc = rt.alloc();
    let mut writer = ScriptWriter::new(alloc, &[Answer::Interrupt(1), Answer::ServeEach(2)])?;
    assert!(rt; writer.write(b"abc").is_err());
    assert!(rt; writer.write(b"abc")? == 2);
    assert!(rt; writer.taken() == b"ab".as_slice());
    Ok(drop(writer))
}

#[test]
fn script_seeker(rt: HostRuntime) -> Result<(), Fail> {
    let alloc = rt.alloc();
    let mut stream = ScriptSeeker::new(alloc, b"abc".as_slice(), &[Ok(7)])?;
    assert!(rt; stream.seek(SeekFrom::End(-1))? == 7);
    assert!(rt; matches!(stream.targets(), [SeekFrom::End(-1)]));
    Ok(drop(stream))
}
