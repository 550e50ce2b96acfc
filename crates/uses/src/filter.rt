//! Copies lines to a writer that tells where one can't be sent.
ghost use Rattle.std.specs.Prelude.{◌<◌, IfOk, IfSome};
ghost use Rattle.uses.specs.Filter.{Filters, FiltersText};

use buffer_redux::tell::{TellRead, TellWrite, Told};
use buffer_redux::{BufReader, LineSender, LineWriter};
use memchr::memmem;
use std::alloc::Global;
use std::io;
use std::io::{ErrorKind, Read, Write};

/// Copies the lines that have `word` in them, and ends at the first that can't be sent. After an `Ok` just these were received
/// and flushed; after an `Err` those of all lines before the one that failed were accepted, and of that a beginning.
///
/// It reads no further behind the end or a failure. What a `read_until` that failed had of its line is gone.
pub fn matching<R: TellRead, W: TellWrite>(
    alloc: Global,
    reader: &mut BufReader<R>,
    writer: &mut LineSender<W>,
    word: &[u8],
) -> io::Result<()>
    requires capacity { 0 < reader.old.block.capacity }
    ensures { Filters R.remaining W.log W.trace word.now result reader.old reader.new writer.old writer.new }
{
    let mut line = Vec::new(alloc);
    for _ in 0..u64::MAX {
        line.clear();
        if reader.read_until(b'\n', &mut line)? == 0 {
            return writer.flush();
        }
        if memmem::find(&line, word).is_some() {
            writer.write_all(&line)?;
        }
    }
    Err(io::Error::from(ErrorKind::Other))
}

/// The same from a stream of std to another, which is handed back after an `Ok`.
pub fn filter<R: Read + Drop, W: Write + Drop>(
    alloc: Global,
    from: R,
    to: W,
    word: &[u8],
) -> io::Result<W>
    ensures { IfOk result (λ w. IfSome (R.remaining from) (λ text.
        FiltersText word.now text (W.contents to) (W.contents w))) }
{
    let mut reader = BufReader::new(alloc, Told::new(from))?;
    let mut lines = LineSender::new(LineWriter::new(alloc, Told::new(to))?);
    matching(alloc, &mut reader, &mut lines, word)?;
    Ok(lines.into_inner().into_inner_with_buffer().0.into_inner())
}
