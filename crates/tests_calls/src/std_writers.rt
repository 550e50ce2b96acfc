//! The calls of std's writers, each as a user of std writes it, so that `docs/STD.md` says what is there.
use buffer_redux::tell::Told;
use buffer_redux::{BufWriter, LineWriter};
use std::alloc::Global;
use std::io;
use std::io::{IoSlice, Write};
use std::test::Fail;
use tests_common::{line_writer, writer};

type Sink = Told<Vec<u8>>;

fn sink(alloc: Global) -> Sink {
    Told::new(Vec::new(alloc))
}

static TEXT: &[u8] = b"abcd5-6\nxy";

// How many bytes the calls that count them took.
fn writes<W: Write>(to: &mut W) -> io::Result<usize> {
    let one = to.write(b"ab")?;
    to.write_all(b"cd")?;
    write!(to, "{}-", 5)?;
    writeln!(to, "{}", 6)?;
    let both = to.write_vectored(&[IoSlice::new(b"x"), IoSlice::new(b"y")])?;
    to.by_ref().flush()?;
    Ok(one.saturating_add(both))
}

// Whether all of the text was received.
fn is_received(sink: &Sink) -> bool {
    sink.get_ref().as_slice() == TEXT
}

fn through(to: &mut BufWriter<Sink>) -> io::Result<bool> {
    let count = writes(to)?;
    let is_sent = to.buffer().is_empty() && is_received(to.get_ref());
    to.get_mut().get_mut().clear();
    Ok(count == 4 && is_sent && to.get_ref().get_ref().is_empty())
}

fn through_lines(to: &mut LineWriter<Sink>) -> io::Result<bool> {
    let count = writes(to)?;
    let is_sent = to.buffer().is_empty() && is_received(to.get_ref());
    to.get_mut().get_mut().clear();
    Ok(count == 4 && is_sent && to.get_ref().get_ref().is_empty())
}

#[test]
fn write_as_stds_do(rt: HostRuntime) -> Result<(), Fail> {
    assert!(rt; through(&mut writer(rt.alloc(), 16, &[], sink(rt.alloc()))?)?);
    assert!(rt; through_lines(&mut line_writer(rt.alloc(), 16, &[], sink(rt.alloc()))?)?);
    Ok(())
}
