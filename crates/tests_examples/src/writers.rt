//! Writers, and what runs them.
use buffer_redux::tell::Told;
use buffer_redux::{BufWriter, LineSender, LineWriter};
use redux_play::play::{WriterAnswer, WriterCall, WriterRun, play_writer};
use redux_script::{Answer, ScriptWriter};
use std::io::{ErrorKind, Write};
use std::test::Fail;

#[test]
fn buf_writer(rt: HostRuntime) -> Result<(), Fail> {
    let alloc = rt.alloc();
    let mut writer = BufWriter::with_capacity(alloc, 4, Told::new(Vec::new(alloc)))?;
    assert!(rt; writer.write(b"abc")? == 3);
    assert!(rt; writer.buf_len() == 3);
    writer.flush()?;
    assert!(rt; writer.get_ref().get_ref().as_slice() == b"abc".as_slice());
    Ok(())
}

#[test]
fn write_parts(rt: HostRuntime) -> Result<(), Fail> {
    let alloc = rt.alloc();
    let mut writer = BufWriter::with_capacity(alloc, 4, Told::new(Vec::new(alloc)))?;
    writer.write_parts(&[b"$2", b"\r\n", b"hi"])?;
    assert!(rt; writer.buffer() == b"$2\r\nhi".as_slice());
    Ok(())
}

#[test]
fn line_writer(rt: HostRuntime) -> Result<(), Fail> {
    let alloc = rt.alloc();
    let mut writer = LineWriter::new(alloc, Told::new(Vec::new(alloc)))?;
    writer.write_all(b"one\ntwo")?;
    assert!(rt; writer.get_ref().get_ref().as_slice() == b"one\n".as_slice());
    assert!(rt; writer.buf_len() == 3);
    Ok(())
}

#[test]
fn line_sender(rt: HostRuntime) -> Result<(), Fail> {
    let alloc = rt.alloc();
    let fault = Answer::Fail(ErrorKind::StorageFull);
    let full = Told::new(ScriptWriter::new(alloc, &[fault, fault])?);
    let mut writer = LineSender::new(LineWriter::new(alloc, full)?);
    assert!(rt; writeln!(writer, "one").is_err());
    assert!(rt; writer.get_ref().buf_len() == 4);
    Ok(())
}

#[test]
fn into_inner_error(rt: HostRuntime) -> Result<(), Fail> {
    let alloc = rt.alloc();
    let full = ScriptWriter::new(alloc, &[Answer::Fail(ErrorKind::StorageFull)])?;
    let mut writer = BufWriter::new(alloc, Told::new(full))?;
    writer.write_all(b"abc")?;
    let Err(failed) = writer.into_inner() else {
        return Ok(assert!(rt; false));
    };
    assert!(rt; failed.error().kind() == ErrorKind::StorageFull);
    assert!(rt; failed.into_inner().buf_len() == 3);
    Ok(())
}

#[test]
fn writer_run(rt: HostRuntime) -> Result<(), Fail> {
    let alloc = rt.alloc();
    let mut writer = BufWriter::with_capacity(alloc, 2, Told::new(Vec::new(alloc)))?;
    let mut run = WriterRun::new(alloc);
    play_writer(
        &mut writer,
        &[WriterCall::Write(b"abc"), WriterCall::Flush],
        &mut run,
    )?;
    let answers = run.answers.as_slice();
    assert!(rt; matches!(answers, [WriterAnswer::Count(3), WriterAnswer::Done]));
    Ok(())
}
