//! The examples of README, CALLING and PROOFS.
ghost use Rattle.std.specs.Prelude.{◌≡◌, ◌++◌, ◌∷◌, IfOk, OnErr, OnOk, [], take, true};
ghost use Rattle.buffer_redux.specs.BufReader.{ReadsInOrder};
ghost use Rattle.buffer_redux.specs.BufWriter.{AllFlushed, WritesInOrder};

use buffer_redux::policy::{MinBuffered, ReaderPolicy, WriterPolicy};
use buffer_redux::tell::{TellRead, TellWrite, Told};
use buffer_redux::{BufReader, BufWriter};
use std::alloc::Global;
use std::io;
use std::io::{BufRead, Read, Write};
use std::test::Fail;
use tests_common::writer;

/// Writes one entry of a log, and flushes it.
fn log<W: TellWrite, P: WriterPolicy>(writer: &mut BufWriter<W, P>, entry: &[u8]) -> io::Result<()>
    ensures received { OnOk result (writer.new.log.writes.received
        ≡ writer.old.log.writes.received ++ (writer.old.block.bytes ++ entry.now)) }
    ensures flushed { OnOk result (writer.new.log.writes.flushed ≡ writer.new.log.writes.received) }
{
    writer.write_all(entry)?;
    writer.flush()
}

// How many bytes stay buffered.
fn logs<W: TellWrite + Drop>(alloc: Global, to: W) -> io::Result<usize> {
    let mut writer = writer(alloc, 16, b"ab", to)?;
    log(&mut writer, b"cdefg\n")?;
    Ok(writer.buf_len())
}

#[test]
fn logs_an_entry(rt: HostRuntime) -> Result<(), Fail> {
    let mut device = Vec::new(rt.alloc());
    assert!(rt; logs(rt.alloc(), Told::new(&mut device))? == 0);
    assert!(rt; logs_line(rt.alloc(), Told::new(&mut device))? == 0);
    assert!(rt; device.as_slice() == b"abcdefg\nabcdefg\n".as_slice());
    Ok(())
}

/// Writes a line, and flushes.
fn log_line<W: TellWrite, P: WriterPolicy>(
    writer: &mut BufWriter<W, P>,
    line: &[u8],
) -> io::Result<()>
    requires steady { (P.rules.claims writer.old.policy).steady ≡ true }
    ensures { AllFlushed W.log W.trace P.rules writer.old (line.now ++ 10 ∷ []) result writer.new }
{
    writer.write_all(line)?;
    writer.write_all(b"\n")?;
    writer.flush()
}

// How many bytes stay buffered.
fn logs_line<W: TellWrite + Drop>(alloc: Global, to: W) -> io::Result<usize> {
    let mut writer = writer(alloc, 4, b"ab", to)?;
    log_line(&mut writer, b"cdefg")?;
    Ok(writer.buf_len())
}

/// Hands on what is buffered of `from`, as far as `to` takes it. An `Err` leaves that as it was.
fn hand_on<R: TellRead, P: ReaderPolicy, W: TellWrite>(
    from: &mut BufReader<R, P>,
    to: &mut BufWriter<W>,
) -> io::Result<usize>
    ensures sent { IfOk result (λ n. WritesInOrder to.old (take n from.old.block.bytes) to.new) }
    ensures handed { IfOk result (λ n. ReadsInOrder from.old (take n from.old.block.bytes) from.new) }
    ensures kept { OnErr result (from.new ≡ from.old) }
{
    let taken = to.write(from.buffer())?;
    from.consume(taken);
    Ok(taken)
}

/// A reader over a stream of std that looks ahead by so many bytes.
fn look_ahead<R: Read + Drop>(
    alloc: Global,
    from: R,
    min: usize,
) -> io::Result<BufReader<Told<R>, MinBuffered>> {
    Ok(BufReader::new(alloc, Told::new(from))?.set_policy(MinBuffered(min)))
}
