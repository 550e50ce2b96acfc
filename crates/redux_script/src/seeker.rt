//! A stream that seeks by a script.
ghost use Rattle.std.specs.Prelude.{◌≡◌, ◌⊎◌, None, [], IfOk};
ghost use Rattle.std.specs.Io.{ReadsAtMost, WritesAtMost};
ghost use Rattle.std.specs.Io.KnownBytes.{Keeps, ReadConsumes, WriteAppends};
ghost use Rattle.std.specs.Io.Seek.{SeekMoves};

use std::alloc::{AllocError, Global};
use std::collections::VecDeque;
use std::io;
use std::io::{ErrorKind, Read, Seek, SeekFrom, Write};

/// A stream whose seeks answer by a script of their own, and move nothing. It notes where it is asked to go. Reads and
/// writes go on to the stream inside. After the script each seek returns `Ok(0)`.
///
/// A seek that finds no memory to note where it goes returns `OutOfMemory`, and changes nothing.
///
/// ```
/// let mut stream = ScriptSeeker::new(alloc, b"abc".as_slice(), &[Ok(7)])?;
/// assert!(rt; stream.seek(SeekFrom::End(-1))? == 7);
/// assert!(rt; matches!(stream.targets(), [SeekFrom::End(-1)]));
/// ```
#[derive(Debug, Drop)]
pub struct ScriptSeeker<S> {
    stream: S,
    answers: VecDeque<Result<u64, ErrorKind>>,
    targets: Vec<SeekFrom>,
}

impl<S> ScriptSeeker<S> {
    ghost use Rattle.redux_script.specs.Script.{seeker_stream, seeker_progress};

    /// `stream`, whose seeks answer by `answers`. Fails where memory is refused.
    pub fn new(
        alloc: Global,
        stream: S,
        answers: &[Result<u64, ErrorKind>],
    ) -> Result<Self, AllocError>
    where
        S: Drop,
        ensures stream { IfOk result (λ s. seeker_stream s ≡ stream) }
        ensures answers { IfOk result (λ s. (seeker_progress s).answers ≡ answers.now) }
        ensures targets { IfOk result (λ s. (seeker_progress s).targets ≡ []) }
    {
        let answers = Vec::from_slice(alloc, answers)?;
        Ok(ScriptSeeker {
            stream,
            answers: VecDeque::from(answers),
            targets: Vec::new(alloc),
        })
    }

    /// Where all calls of `seek` asked it to go, in order.
    pub fn targets(&self) -> &[SeekFrom]
        ensures { result.now ≡ (seeker_progress self.now).targets }
    {
        self.targets.as_slice()
    }

    /// The stream inside.
    pub fn get_ref(&self) -> &S
        ensures { result.now ≡ seeker_stream self.now }
    {
        &self.stream
    }
}

impl<S> Seek for ScriptSeeker<S> {
    ghost use Rattle.redux_script.specs.Script.{seeker_stream, seeker_progress, SeekAnswers, RunsOut};

    fn seek(&mut self, to: SeekFrom) -> io::Result<u64>
        ensures moves { SeekMoves None None None to result }
        ensures bytes { Keeps None None }
        ensures sought { SeekAnswers (seeker_progress self.old) to result (seeker_progress self.new)
            ⊎ RunsOut (seeker_progress self.old) result (seeker_progress self.new) }
        ensures stream { seeker_stream self.new ≡ seeker_stream self.old }
    {
        self.targets.push(to)?;
        match self.answers.pop_front() {
            None => Ok(0),
            Some(Ok(position)) => Ok(position),
            Some(Err(kind)) => Err(io::Error::from(kind)),
        }
    }
}

impl<S: Read> Read for ScriptSeeker<S> {
    ghost use Rattle.redux_script.specs.Script.{seeker_stream, seeker_progress};

    ghost remaining = { λ s. S.remaining s.stream };

    fn read(&mut self, buf: &mut [u8]) -> io::Result<usize>
        ensures bound { ReadsAtMost result buf.new }
        ensures bytes { ReadConsumes (S.remaining (seeker_stream self.old))
            (S.remaining (seeker_stream self.new)) result buf.new }
        ensures no_seek { seeker_progress self.new ≡ seeker_progress self.old }
    {
        self.stream.read(buf)
    }
}

impl<S: Write> Write for ScriptSeeker<S> {
    ghost use Rattle.redux_script.specs.Script.{seeker_stream, seeker_progress};

    ghost contents = { λ s. S.contents s.stream };

    fn write(&mut self, buf: &[u8]) -> io::Result<usize>
        ensures bound { WritesAtMost result buf.now }
        ensures bytes { WriteAppends (S.contents (seeker_stream self.old))
            (S.contents (seeker_stream self.new)) result buf.now }
        ensures no_seek { seeker_progress self.new ≡ seeker_progress self.old }
    {
        self.stream.write(buf)
    }

    fn flush(&mut self) -> io::Result<()>
        ensures bytes { Keeps (S.contents (seeker_stream self.old))
            (S.contents (seeker_stream self.new)) }
        ensures no_seek { seeker_progress self.new ≡ seeker_progress self.old }
    {
        self.stream.flush()
    }
}
