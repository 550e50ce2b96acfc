//! A reader that serves bytes by a script.
ghost use Rattle.std.specs.Prelude.{◌≡◌, ◌+◌, ◌-◌, ◌^◌, ◌≤◌, ◌⊎◌, None, [], ◌++◌, length, min, take, drop, vec_len, IfOk, OnErr};
ghost use Rattle.std.specs.Io.{ReadsAtMost};
ghost use Rattle.std.specs.Io.KnownBytes.{ReadConsumes};

use crate::{Answer, Script};
use std::alloc::{AllocError, Global};
use std::io;
use std::io::Read;

/// A reader that serves its bytes in order, each call as the script says. After the script it serves as much as is asked
/// for, or as the last `ServeEach` allows, and after its bytes it returns `Ok(0)`.
///
/// A call that finds no memory to note its offer returns `OutOfMemory`, and changes nothing.
///
/// ```
/// let script = [Answer::Serve(2), Answer::Fail(ErrorKind::TimedOut)];
/// let mut reader = ScriptReader::new(alloc, b"abc", &script)?;
/// let mut out = [0; 4];
/// assert!(rt; reader.read(&mut out)? == 2);
/// assert!(rt; reader.read(&mut out).is_err());
/// assert!(rt; reader.read(&mut out)? == 1);
/// ```
#[derive(Debug, Drop)]
pub struct ScriptReader {
    script: Script,
    bytes: Vec<u8>,
    served: usize,
    ghost within: { served ≤ vec_len bytes },
}

impl ScriptReader {
    ghost use Rattle.redux_script.specs.Script.{reader_progress, served_count, unserved_bytes};

    /// A reader of `bytes` that answers by `answers`. Fails where memory is refused.
    pub fn new(alloc: Global, bytes: &[u8], answers: &[Answer]) -> Result<Self, AllocError>
        ensures bytes { IfOk result (λ r. unserved_bytes r ≡ bytes.now) }
        ensures served { IfOk result (λ r. served_count r ≡ 0) }
        ensures offers { IfOk result (λ r. (reader_progress r).offers ≡ []) }
        ensures plan { IfOk result (λ r. (reader_progress r).plan
            ≡ record { interrupts = 0; most = 2 ^ 64 - 1; answers = answers.now }) }
    {
        Ok(ScriptReader {
            script: Script::new(alloc, answers)?,
            bytes: Vec::from_slice(alloc, bytes)?,
            served: 0,
        })
    }

    /// The lengths in bytes of the slices of all calls of `read`, in order.
    pub fn offers(&self) -> &[usize]
        ensures { result.now ≡ (reader_progress self.now).offers }
    {
        self.script.offers.as_slice()
    }

    /// How many bytes it has served.
    pub fn served(&self) -> usize
        ensures { result ≡ served_count self.now }
    {
        self.served
    }
}

// The bytes that are left are not told as `remaining`, since an answer `Ok(0)` need not be the end.
impl Read for ScriptReader {
    ghost use Rattle.redux_script.specs.Script.{Answers, RunsOut, reader_progress, served_count, unserved_bytes};

    fn read(&mut self, buf: &mut [u8]) -> io::Result<usize>
        ensures bound { ReadsAtMost result buf.new }
        ensures bytes { ReadConsumes None None result buf.new }
        ensures called { Answers (reader_progress self.old) (length buf.old)
            (min (length (unserved_bytes self.old)) (length buf.old)) result (reader_progress self.new)
            ⊎ RunsOut (reader_progress self.old) result (reader_progress self.new) }
        ensures given { IfOk result (λ n. buf.new ≡ take n (unserved_bytes self.old) ++ drop n buf.old) }
        ensures left { IfOk result (λ n. unserved_bytes self.new ≡ drop n (unserved_bytes self.old)) }
        ensures served { IfOk result (λ n. served_count self.new ≡ served_count self.old + n) }
        ensures err { OnErr result ((buf.new ≡ buf.old) × (unserved_bytes self.new ≡ unserved_bytes self.old)
            × (served_count self.new ≡ served_count self.old)) }
    {
        let left = &self.bytes.as_slice()[self.served..];
        let n = self.script.next(buf.len(), left.len().min(buf.len()))?;
        buf[..n].copy_from_slice(&left[..n]);
        self.served += n;
        Ok(n)
    }
}
