//! Policies that ship, and one of one's own.
use buffer_redux::policy::{
    DoRead, FlushAtLeast, FlushExact, FlushOn, FlushOnNewline, MinBuffered, ReaderPolicy,
};
use buffer_redux::tell::Told;
use buffer_redux::{BufReader, BufWriter, Buffer};
use redux_script::{Answer, ScriptReader};
use std::io;
use std::io::{BufRead, Write};
use std::test::Fail;

/// Reads whenever there is room, for a source whose calls are dear.
#[derive(Drop)]
struct Eager;

impl ReaderPolicy for Eager {
    fn before_read(&mut self, buffer: &mut Buffer) -> io::Result<DoRead> {
        buffer.make_room();
        Ok(DoRead(true))
    }

    fn after_consume(&mut self, _buffer: &mut Buffer, _amt: usize) {}
}

#[test]
fn under_eager(rt: HostRuntime) -> Result<(), Fail> {
    let alloc = rt.alloc();
    let source = Told::new(b"abcdef".as_slice());
    let mut reader = BufReader::with_capacity(alloc, 4, source)?.set_policy(Eager);
    assert!(rt; reader.fill_buf()? == b"abcd".as_slice());
    reader.consume(1);
    assert!(rt; reader.fill_buf()? == b"bcde".as_slice());
    Ok(drop(reader))
}

#[test]
fn min_buffered(rt: HostRuntime) -> Result<(), Fail> {
    let alloc = rt.alloc();
    let slow = ScriptReader::new(alloc, b"abcdefgh", &[Answer::ServeEach(2)])?;
    let mut reader = BufReader::new(alloc, Told::new(slow))?.set_policy(MinBuffered(5));
    assert!(rt; reader.fill_buf()? == b"abcdef".as_slice());
    Ok(drop(reader))
}

#[test]
fn flush_on(rt: HostRuntime) -> Result<(), Fail> {
    let alloc = rt.alloc();
    let mut writer = BufWriter::new(alloc, Told::new(Vec::new(alloc)))?.set_policy(FlushOn(b';'));
    writer.write_all(b"a;b;c")?;
    assert!(rt; writer.get_ref().get_ref().as_slice() == b"a;b;".as_slice());
    Ok(())
}

#[test]
fn flush_on_newline(rt: HostRuntime) -> Result<(), Fail> {
    let alloc = rt.alloc();
    let mut writer = BufWriter::new(alloc, Told::new(Vec::new(alloc)))?.set_policy(FlushOnNewline);
    writer.write_all(b"a\nb")?;
    assert!(rt; writer.get_ref().get_ref().as_slice() == b"a\n".as_slice());
    Ok(())
}

#[test]
fn flush_at_least(rt: HostRuntime) -> Result<(), Fail> {
    let alloc = rt.alloc();
    let mut writer = BufWriter::new(alloc, Told::new(Vec::new(alloc)))?.set_policy(FlushAtLeast(3));
    writer.write_all(b"ab")?;
    assert!(rt; writer.buf_len() == 2);
    writer.write_all(b"cd")?;
    assert!(rt; writer.buf_len() == 0);
    Ok(())
}

#[test]
fn flush_exact(rt: HostRuntime) -> Result<(), Fail> {
    let alloc = rt.alloc();
    let mut writer = BufWriter::new(alloc, Told::new(Vec::new(alloc)))?.set_policy(FlushExact(3));
    writer.write_all(b"abcd")?;
    assert!(rt; writer.get_ref().get_ref().as_slice() == b"abc".as_slice());
    assert!(rt; writer.buf_len() == 1);
    Ok(())
}
