//! A writer that takes bytes by a script.
ghost use Rattle.std.specs.Prelude.{◌≡◌, ◌+◌, ◌-◌, ◌^◌, ◌⊎◌, Some, [], length, min, IfOk, IsOk};
ghost use Rattle.std.specs.Io.{WritesAtMost};
ghost use Rattle.std.specs.Io.KnownBytes.{Keeps, WriteAppends};

use crate::{Answer, Script};
use std::alloc::{AllocError, Global};
use std::io;
use std::io::Write;

/// A writer that takes bytes, each call as the script says. After the script it takes all that it is offered, or as much
/// as the last `ServeEach` allows.
///
/// A call that finds no memory to note its offer, or for its bytes, returns `OutOfMemory`, and changes nothing.
///
/// ```
/// let mut writer = ScriptWriter::new(alloc, &[Answer::Interrupt(1), Answer::ServeEach(2)])?;
/// assert!(rt; writer.write(b"abc").is_err());
/// assert!(rt; writer.write(b"abc")? == 2);
/// assert!(rt; writer.taken() == b"ab".as_slice());
/// ```
#[derive(Debug, Drop)]
pub struct ScriptWriter {
    script: Script,
    taken: Vec<u8>,
    flushes: usize,
}

impl ScriptWriter {
    ghost use Rattle.redux_script.specs.Script.{writer_progress, taken_bytes, flush_count};

    /// A writer that answers by `answers`. Fails where memory is refused.
    pub fn new(alloc: Global, answers: &[Answer]) -> Result<Self, AllocError>
        ensures taken { IfOk result (λ w. taken_bytes w ≡ []) }
        ensures flushes { IfOk result (λ w. flush_count w ≡ 0) }
        ensures offers { IfOk result (λ w. (writer_progress w).offers ≡ []) }
        ensures plan { IfOk result (λ w. (writer_progress w).plan
            ≡ record { interrupts = 0; most = 2 ^ 64 - 1; answers = answers.now }) }
    {
        Ok(ScriptWriter {
            script: Script::new(alloc, answers)?,
            taken: Vec::new(alloc),
            flushes: 0,
        })
    }

    /// The lengths in bytes of the slices of all calls of `write`, in order.
    pub fn offers(&self) -> &[usize]
        ensures { result.now ≡ (writer_progress self.now).offers }
    {
        self.script.offers.as_slice()
    }

    /// All bytes that it took.
    pub fn taken(&self) -> &[u8]
        ensures { result.now ≡ taken_bytes self.now }
    {
        self.taken.as_slice()
    }

    /// How many calls of `flush` came. The count stops at `usize::MAX`.
    pub fn flushes(&self) -> usize
        ensures { result ≡ flush_count self.now }
    {
        self.flushes
    }
}

impl Write for ScriptWriter {
    ghost use Rattle.redux_script.specs.Script.{Answers, RunsOut, writer_progress, taken_bytes, flush_count};

    ghost contents = { λ w. Some w.taken.items };

    fn write(&mut self, buf: &[u8]) -> io::Result<usize>
        ensures bound { WritesAtMost result buf.now }
        ensures bytes { WriteAppends (Some (taken_bytes self.old)) (Some (taken_bytes self.new)) result buf.now }
        ensures called { Answers (writer_progress self.old) (length buf.now) (length buf.now) result (writer_progress self.new)
            ⊎ RunsOut (writer_progress self.old) result (writer_progress self.new) }
        ensures flushes { flush_count self.new ≡ flush_count self.old }
    {
        self.taken.reserve(buf.len())?;
        let n = self.script.next(buf.len(), buf.len())?;
        self.taken.extend_from_slice(&buf[..n])?;
        Ok(n)
    }

    // A flush never fails.
    fn flush(&mut self) -> io::Result<()>
        ensures bytes { Keeps (Some (taken_bytes self.old)) (Some (taken_bytes self.new)) }
        ensures ok { IsOk result }
        ensures flushes { flush_count self.new ≡ min (flush_count self.old + 1) (2 ^ 64 - 1) }
        ensures offers { writer_progress self.new ≡ writer_progress self.old }
    {
        self.flushes = self.flushes.saturating_add(1);
        Ok(())
    }
}
