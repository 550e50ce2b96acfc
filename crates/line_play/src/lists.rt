//! Lists of lines, written and read again.
ghost use Rattle.std.specs.Prelude.{◌≡◌, ◌+◌, map, IfOk, IfErr, OnOk};
ghost use Rattle.std.specs.List.{All};
ghost use Rattle.buffer_redux.specs.BufWriter.{WritesInOrder, WriterStopped};
ghost use Rattle.buffer_redux.specs.Faults.{IsMemory};
ghost use Rattle.buffer_redux.specs.LineWriter.{line_rules};
ghost use Rattle.codec.specs.WriteRuns.{CallRuns, CallsEach};
ghost use Rattle.piece_reader.specs.KnownPieces.{BufferRefused};
ghost use Rattle.line_reader.specs.Lines.{FitsLine, with_newlines};
ghost use Rattle.line_play.specs.WrittenLines.{StopsInLine, WritesLine};

use buffer_redux::LineWriter;
use buffer_redux::tell::{MemoryReader, MemoryWriter, TellWrite};
use codec::laws::{WriteEachError, read_each};
use line_reader::LineReader;
use std::alloc::Global;
use std::io;
use std::io::Write;

/// Writes each line, and its end, up to the first `Err`, which is one of the inner writer, and says how many lines were taken in
/// before. A beginning of the next one may have been too, and no call tells how much: who goes on with that line may write this
/// beginning twice. Nothing is flushed, and the buffer doesn't grow.
pub fn write_each<W: TellWrite>(
    writer: &mut LineWriter<W>,
    lines: &[Vec<u8>],
) -> Result<(), WriteEachError<io::Error>>
    ensures written { OnOk result (WritesInOrder writer.old (with_newlines (map (λ v. v.items) lines.now)) writer.new) }
    ensures stopped { IfErr result (λ e.
        StopsInLine (map (λ v. v.items) lines.now) e.taken writer.old writer.new) }
    ensures calls { CallsEach (WritesLine W.log W.trace line_rules) (CallRuns (WritesLine W.log W.trace line_rules))
        writer.old (map (λ v. v.items) lines.now) result writer.new }
    ensures caused { IfErr result (λ e. WriterStopped writer.old.log.writes writer.new.log.writes e.error) }
    ensures not_flushed { writer.new.log.writes.flushed ≡ writer.old.log.writes.flushed }
    ensures capacity { writer.new.block.capacity ≡ writer.old.block.capacity }
    ensures trace { W.trace writer.old.inner writer.new.inner }
{
    let mut taken = 0usize;
    for line in lines {
        match write_line(writer, line) {
            Ok(()) => {
                taken += 1;
            }
            Err(error) => return Err(WriteEachError { taken, error }),
        }
    }
    Ok(())
}

// Writes one, and its end.
fn write_line<W: TellWrite>(writer: &mut LineWriter<W>, line: &[u8]) -> io::Result<()>
    ensures { WritesLine W.log W.trace line_rules writer.old line.now result writer.new }
{
    writer.write_all(line)?;
    writer.write_all(b"\n")?;
    Ok(())
}

/// Lines that are written, each with an end, and flushed are read again, each of them whole, in order, and no other: the text
/// that was written, and the lines that were read of it. An `Err` is want of memory, or of a buffer for lines of `max` bytes,
/// which no memory holds.
pub fn round_trip(
    alloc: Global,
    lines: &[Vec<u8>],
    max: usize,
) -> io::Result<(Vec<u8>, Vec<Vec<u8>>)>
    requires { All (FitsLine max) (map (λ v. v.items) lines.now) }
    ensures written { IfOk result (λ both. both.0.items ≡ with_newlines (map (λ v. v.items) lines.now)) }
    ensures same { IfOk result (λ both. map (λ v. v.items) both.1.items ≡ map (λ v. v.items) lines.now) }
    ensures refused { IfErr result (BufferRefused (1 + max)) }
{
    let bytes = written(alloc, lines)?;
    let read = read_back(alloc, bytes.as_slice(), lines, max)?;
    Ok((bytes, read))
}

// The lines, each with its end.
fn written(alloc: Global, lines: &[Vec<u8>]) -> io::Result<Vec<u8>>
    ensures bytes { IfOk result (λ bytes. bytes.items ≡ with_newlines (map (λ v. v.items) lines.now)) }
    ensures memory { IfErr result IsMemory }
{
    let mut writer = LineWriter::new(alloc, MemoryWriter::new(alloc))?;
    let wrote = write_each(&mut writer, lines);
    // What it tells is what the stream inside tells, which says why that failed.
    let _ = writer.get_ref();
    match wrote {
        Ok(()) => {}
        Err(e) => return Err(e.error),
    }
    Ok(writer.into_inner()?.into_vec())
}

// The lines of the text, which are known to be these.
fn read_back(alloc: Global, text: &[u8], lines: &[Vec<u8>], max: usize) -> io::Result<Vec<Vec<u8>>>
    requires fit { All (FitsLine max) (map (λ v. v.items) lines.now) }
    requires text { text.now ≡ with_newlines (map (λ v. v.items) lines.now) }
    ensures same { IfOk result (λ kept. map (λ v. v.items) kept.items ≡ map (λ v. v.items) lines.now) }
    ensures refused { IfErr result (BufferRefused (1 + max)) }
{
    let mut reader = LineReader::new(alloc, MemoryReader::new(text), max)?;
    let read = read_each(alloc, &mut reader, lines);
    let _ = reader.get_ref();
    read
}
