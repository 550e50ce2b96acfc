//! A writer of lines that tells where a line isn't sent.
ghost use Rattle.std.specs.Prelude.{◌≡◌, ◌+◌, ◌*◌, ◌<◌, [], ◌++◌, length, Ok, IfErr, IfSome, OnOk};
ghost use Rattle.std.specs.Io.{WritesAtMost};
ghost use Rattle.std.specs.Io.KnownBytes.{Appends, Keeps, WriteAppends};
ghost use Rattle.redux_buffer.specs.Block.{IsBlock};
ghost use Rattle.redux_buffer.specs.Faults.{FaultsOften, FewFaults, IsInterrupt, interrupt_limit};
ghost use Rattle.redux_buffer.specs.StreamLog.{portion};
ghost use Rattle.buffer_redux.specs.BufWriter.{writer_contents, AllAlong, EmptyWriteCaused, WasFlushed, WriteErrorCaused, WriteRows, WriterKeeps, Writes, WritesInOrder, WritesSteadily};
ghost use Rattle.buffer_redux.specs.LineWriter.{line_rules, SendsLines, ThenSendsLines};
ghost use Rattle.buffer_redux.specs.ReadUntil.{Lacks};
ghost use Rattle.buffer_redux.specs.WriteAll.{TookBeginning, WritesAll};
ghost use Rattle.buffer_redux.specs.WriteFmt.{WritesText};

use crate::line_writer::LineWriter;
use memchr::memchr;
use redux_buffer::tell::TellWrite;
use std::fmt::Display;
use std::io;
use std::io::Write;
use std::marker::Model;

/// A [`LineWriter`] whose `write_all`, `write!` and `writeln!` return the fault of a line's send, as those of std's
/// `LineWriter` do.
///
/// After an `Ok` the inner writer has received all up to the last line feed. A send that failed behind the bytes is made once
/// more, and the fault of that is returned: then all was accepted, or a beginning of it, and what wasn't sent stays buffered.
/// So `flush` goes on with it, and who writes the same again has its beginning twice. `write` alone forgets the fault, as that
/// of a `LineWriter`; the next of the others meets it.
///
/// ```
/// let fault = Answer::Fail(ErrorKind::StorageFull);
/// let full = Told::new(ScriptWriter::new(alloc, &[fault, fault])?);
/// let mut writer = LineSender::new(LineWriter::new(alloc, full)?);
/// assert!(rt; writeln!(writer, "one").is_err());
/// assert!(rt; writer.get_ref().buf_len() == 4);
/// ```
#[derive(Debug, Drop)]
pub struct LineSender<W: TellWrite> {
    writer: LineWriter<W>,
}

// A `LineSender` is seen as the writer that it is.
impl<W: TellWrite> Model for LineSender<W> {
    ghost use Rattle.buffer_redux.specs.Buffered.{Buffered};
    ghost use Rattle.buffer_redux.specs.declared.policy.writers.FlushOnNewline.{FlushOnNewline};

    ghost Value = { Buffered W FlushOnNewline };

    ghost view = { λ l. l.writer };
}

impl<W: TellWrite> LineSender<W> {
    /// The same writer, whose calls tell.
    pub fn new(writer: LineWriter<W>) -> Self
        ensures { result ≡ writer }
    {
        LineSender { writer }
    }

    /// The line writer.
    pub fn get_ref(&self) -> &LineWriter<W>
        ensures { result.now ≡ self.now }
    {
        &self.writer
    }

    /// The line writer, as it stands. Nothing is sent.
    pub fn into_inner(self) -> LineWriter<W>
        ensures { result ≡ self }
    {
        let LineSender { writer } = self;
        writer
    }

    // Sends what is buffered, where a line feed is among it: one stays there only where its send failed.
    #[inline(always)]
    fn send_lines(&mut self) -> io::Result<()>
        ensures sends { SendsLines W.log W.trace self.old result self.new }
        ensures sent { OnOk result (Lacks 10 self.new.block.bytes) }
        ensures whole { IsBlock self.new.block }
    {
        match memchr(b'\n', self.writer.buffer()) {
            Some(_) => self.writer.send(),
            None => Ok(()),
        }
    }

    /// Writes a formatted text, as `write!` and `writeln!` ask for it, by `write_fmt` of the [`LineWriter`]; and behind an
    /// `Ok` of that, sends what is buffered where a line feed is among it.
    #[inline(always)]
    pub fn write_fmt<D: Display + Drop>(&mut self, text: D) -> io::Result<()>
        ensures bytes { OnOk result (IfSome (D.output text) (Appends (writer_contents self.old) (writer_contents self.new))) }
        ensures steps { ThenSendsLines W.log W.trace
            (WritesText W.log W.trace line_rules self.old (D.output text)) result self.new }
        ensures sent { OnOk result (Lacks 10 self.new.block.bytes) }
    {
        self.writer.write_fmt(text)?;
        self.send_lines()
    }
}

impl<W: TellWrite> Write for LineSender<W> {
    ghost contents = { writer_contents };

    /// That of the [`LineWriter`], which forgets the fault of a line's send.
    fn write(&mut self, bytes: &[u8]) -> io::Result<usize>
        ensures bound { WritesAtMost result bytes.now }
        ensures bytes { WriteAppends (writer_contents self.old) (writer_contents self.new) result bytes.now }
        ensures in_order { WritesInOrder self.old (portion bytes.now result) self.new }
        ensures caused { WriteErrorCaused line_rules self.old bytes.now result self.new }
        ensures empty { result ≡ Ok 0 → 0 < length bytes.now
            → EmptyWriteCaused line_rules self.old bytes.now self.new }
        ensures steadily { WritesSteadily line_rules self.old (length bytes.now) result self.new }
        ensures steps { Writes line_rules self.old bytes.now result self.new }
        ensures rows { WriteRows W.log W.trace line_rules self.old bytes.now result self.new }
        ensures keeps { WriterKeeps W.log W.trace line_rules self.old self.new }
    {
        self.writer.write(bytes)
    }

    /// That of the [`LineWriter`]; and behind an `Ok` of that, sends what is buffered where a line feed is among it.
    #[inline(always)]
    fn write_all(&mut self, bytes: &[u8]) -> io::Result<()>
        ensures bytes { OnOk result (Appends (writer_contents self.old) (writer_contents self.new) bytes.now) }
        ensures in_order { OnOk result (WritesInOrder self.old bytes.now self.new) }
        ensures beginning { TookBeginning bytes.now self.old self.new }
        ensures few { FewFaults ((interrupt_limit + 1) * length bytes.now + 1) self.old.log.writes self.new.log.writes }
        ensures often { IfErr result (λ e. IsInterrupt e → FaultsOften self.old.log.writes self.new.log.writes) }
        ensures all { AllAlong W.log W.trace line_rules self.old bytes.now result self.new }
        ensures steps { ThenSendsLines W.log W.trace (WritesAll W.log W.trace line_rules self.old bytes.now)
            result self.new }
        ensures sent { OnOk result (Lacks 10 self.new.block.bytes) }
        ensures whole { IsBlock self.new.block }
    {
        self.writer.write_all(bytes)?;
        self.send_lines()
    }

    fn flush(&mut self) -> io::Result<()>
        ensures all { OnOk result ((self.new.block.bytes ≡ [])
            × (self.new.log.writes.received ≡ self.old.log.writes.received ++ self.old.block.bytes)
            × (self.new.log.writes.flushed ≡ self.new.log.writes.received)) }
        ensures bytes { Keeps (writer_contents self.old) (writer_contents self.new) }
        ensures flushed { WasFlushed W.log W.trace self.old result self.new }
    {
        self.writer.flush()
    }
}
