//! A stream that goes wrong at one call, and notes its calls and its errors in order.
use redux_script::{Answer, FaultAt};
use std::alloc::Global;
use std::io;
use std::io::{ErrorKind, Read, Write};

/// What a stream does beside going wrong, so that a sweep can be seen to see it.
#[derive(Clone, Copy)]
pub enum Lie {
    None,
    /// The call behind the one that goes wrong loses a byte, the last that it gives or the first that it takes.
    Loses,
    /// An error is noted, and in its place the stream says that nothing came, or was taken.
    Hides,
}

/// Which call of a stream goes wrong, and how.
#[derive(Clone, Copy)]
pub struct Fault {
    /// How many calls come before it.
    pub before: usize,
    pub answer: Answer,
    pub lie: Lie,
}

impl Fault {
    /// No call goes wrong.
    pub const NONE: Fault = Fault {
        before: usize::MAX,
        answer: Answer::Serve(0),
        lie: Lie::None,
    };
}

/// A call of a stream.
#[derive(Clone, Copy)]
pub enum Noted {
    /// A read or a write that offered so many bytes.
    Bytes(usize),
    Flush,
}

/// A stream that goes wrong at one call, and notes its calls and its errors in order.
#[derive(Drop)]
pub struct Watched<S> {
    stream: FaultAt<S>,
    fault: Fault,
    notes: Vec<Noted>,
    errors: Vec<ErrorKind>,
}

impl<S> Watched<S> {
    ghost use Rattle.std.specs.Prelude.{◌≡◌, [], IfOk};
    ghost use Rattle.replay.specs.Watched.{noted};

    /// `stream`, but for the call that goes wrong.
    pub fn new(alloc: Global, stream: S, fault: Fault) -> Watched<S>
        ensures { noted result ≡ [] }
    {
        Watched {
            stream: FaultAt::new(stream, fault.before, fault.answer),
            fault,
            notes: Vec::new(alloc),
            errors: Vec::new(alloc),
        }
    }

    /// All calls so far.
    pub fn notes(&self) -> &[Noted]
        ensures { result.now ≡ noted self.now }
    {
        self.notes.as_slice()
    }

    /// The kinds of the errors that it returned, and `WriteZero` for each write that took nothing of something.
    pub fn errors(&self) -> &[ErrorKind] {
        self.errors.as_slice()
    }

    /// The stream inside.
    pub fn inside(&self) -> &S {
        self.stream.get_ref()
    }

    // Whether the next call is the one that loses a byte.
    fn loses(&self) -> bool {
        matches!(self.fault.lie, Lie::Loses)
            && self.stream.calls().checked_sub(self.fault.before) == Some(1)
    }

    // Notes an error, and returns it, or `hidden` in its place.
    fn fails_or<T: Drop>(&mut self, e: io::Error, hidden: T) -> io::Result<T>
        ensures notes { noted self.new ≡ noted self.old }
        ensures ok { IfOk result (λ value. value ≡ hidden) }
    {
        let e = self.fails(e);
        match self.fault.lie {
            Lie::Hides => Ok(hidden),
            _ => Err(e),
        }
    }

    // Notes an error.
    fn fails(&mut self, e: io::Error) -> io::Error
        ensures { noted self.new ≡ noted self.old }
    {
        match self.errors.push(e.kind()) {
            Ok(()) => e,
            Err(refused) => refused.into(),
        }
    }
}

// The clause `bytes` is owed to std's trait, and says nothing here; `notes` says what is noted.
impl<S: Read> Read for Watched<S> {
    ghost use Rattle.std.specs.Prelude.{length, None};
    ghost use Rattle.std.specs.Io.{ReadsAtMost};
    ghost use Rattle.std.specs.Io.KnownBytes.{ReadConsumes};
    ghost use Rattle.replay.specs.Watched.{Notes};

    fn read(&mut self, buf: &mut [u8]) -> io::Result<usize>
        ensures bound { ReadsAtMost result buf.new }
        ensures bytes { ReadConsumes None None result buf.new }
        ensures notes { Notes self.old (Noted.Bytes (length buf.old)) result self.new }
    {
        self.notes.push(Noted::Bytes(buf.len()))?;
        let loses = self.loses();
        match self.stream.read(buf) {
            Ok(count) if loses => Ok(count.saturating_sub(1)),
            Ok(count) => Ok(count),
            Err(e) => self.fails_or(e, 0),
        }
    }
}

impl<S: Write> Write for Watched<S> {
    ghost use Rattle.std.specs.Prelude.{length, None};
    ghost use Rattle.std.specs.Io.{WritesAtMost};
    ghost use Rattle.std.specs.Io.KnownBytes.{Keeps, WriteAppends};
    ghost use Rattle.replay.specs.Watched.{Notes};

    fn write(&mut self, bytes: &[u8]) -> io::Result<usize>
        ensures bound { WritesAtMost result bytes.now }
        ensures bytes { WriteAppends None None result bytes.now }
        ensures notes { Notes self.old (Noted.Bytes (length bytes.now)) result self.new }
    {
        self.notes.push(Noted::Bytes(bytes.len()))?;
        let lost = usize::from(self.loses() && !bytes.is_empty());
        match self.stream.write(&bytes[lost..]) {
            Ok(0) if lost == 0 && !bytes.is_empty() => {
                self.errors.push(ErrorKind::WriteZero)?;
                Ok(0)
            }
            Ok(count) => Ok(count + lost),
            Err(e) => self.fails_or(e, 0),
        }
    }

    fn flush(&mut self) -> io::Result<()>
        ensures bytes { Keeps None None }
        ensures notes { Notes self.old Noted.Flush result self.new }
    {
        self.notes.push(Noted::Flush)?;
        match self.stream.flush() {
            Ok(()) => Ok(()),
            Err(e) => self.fails_or(e, ()),
        }
    }
}
