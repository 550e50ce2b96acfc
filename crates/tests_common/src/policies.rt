//! Policies that grow the buffer, fail, or change their mind, for readers and writers alike.
ghost use Rattle.std.specs.Prelude.{Some};
ghost use Rattle.buffer_redux.specs.Policy.{Lawful, any_read_rules, no_read_claims};

use buffer_redux::Buffer;
use buffer_redux::policy::{
    DoRead, FlushAmt, MinBuffered, ReaderPolicy, WriterPolicy, flush_when_full, read_when_empty,
};
use std::alloc::Global;
use std::io;
use std::io::ErrorKind;

/// Has room for 4096 more bytes at each question, and always reads.
#[derive(Drop)]
pub struct Greedy;

impl ReaderPolicy for Greedy {
    fn before_read(&mut self, buffer: &mut Buffer) -> io::Result<DoRead> {
        buffer.reserve(4096)?;
        Ok(DoRead(true))
    }

    fn after_consume(&mut self, _buffer: &mut Buffer, _amt: usize) {}
}

impl WriterPolicy for Greedy {
    fn before_write(&mut self, buf: &mut Buffer, _incoming: usize) -> io::Result<FlushAmt> {
        buf.reserve(4096)?;
        Ok(FlushAmt(0))
    }

    fn after_write(&mut self, _buf: &Buffer) -> FlushAmt {
        FlushAmt(0)
    }
}

/// Does what std does, but for one question, which it answers by an error of the kind `Other`.
#[derive(Drop)]
pub struct FailsAt {
    /// How many questions come before that one.
    pub left: usize,
    /// Whether it came.
    pub failed: bool,
}

impl FailsAt {
    /// Fails at this question, counted from 0.
    pub fn new(question: usize) -> FailsAt {
        FailsAt {
            left: question,
            failed: false,
        }
    }

    // Whether this is the question that it fails at.
    fn fails(&mut self) -> bool {
        if self.failed {
            return false;
        }
        if self.left == 0 {
            self.failed = true;
            return true;
        }
        self.left -= 1;
        false
    }
}

impl ReaderPolicy for FailsAt {
    fn before_read(&mut self, buffer: &mut Buffer) -> io::Result<DoRead> {
        if self.fails() {
            return Err(io::Error::from(ErrorKind::Other));
        }
        Ok(read_when_empty(buffer))
    }

    fn after_consume(&mut self, _buffer: &mut Buffer, _amt: usize) {}
}

impl WriterPolicy for FailsAt {
    fn before_write(&mut self, buf: &mut Buffer, incoming: usize) -> io::Result<FlushAmt> {
        if self.fails() {
            return Err(io::Error::from(ErrorKind::Other));
        }
        Ok(flush_when_full(buf, incoming))
    }

    fn after_write(&mut self, _buf: &Buffer) -> FlushAmt {
        FlushAmt(0)
    }
}

/// Looks ahead as `MinBuffered` does, whose minimum it claims, and makes room after each consume and before each write.
#[derive(Drop)]
pub struct Tidy(pub MinBuffered);

impl ReaderPolicy for Tidy {
    ghost rules = { record any_read_rules { claims = λ p. record no_read_claims { minimum = Some p.0.0 } } };

    fn before_read(&mut self, buffer: &mut Buffer) -> io::Result<DoRead> {
        self.0.before_read(buffer)
    }

    fn after_consume(&mut self, buffer: &mut Buffer, _amt: usize) {
        buffer.make_room();
    }
}

impl WriterPolicy for Tidy {
    fn before_write(&mut self, buf: &mut Buffer, incoming: usize) -> io::Result<FlushAmt> {
        buf.make_room();
        Ok(flush_when_full(buf, incoming))
    }

    fn after_write(&mut self, _buf: &Buffer) -> FlushAmt {
        FlushAmt(0)
    }
}

/// Has one byte more of usable space at each question than there was, always reads, and flushes by single bytes.
#[derive(Drop)]
pub struct Growing;

impl ReaderPolicy for Growing {
    fn before_read(&mut self, buffer: &mut Buffer) -> io::Result<DoRead> {
        buffer.reserve(buffer.usable_space() + 1)?;
        Ok(DoRead(true))
    }

    fn after_consume(&mut self, _buffer: &mut Buffer, _amt: usize) {}
}

impl WriterPolicy for Growing {
    fn before_write(&mut self, buf: &mut Buffer, _incoming: usize) -> io::Result<FlushAmt> {
        buf.reserve(buf.usable_space() + 1)?;
        Ok(FlushAmt(1))
    }

    fn after_write(&mut self, _buf: &Buffer) -> FlushAmt {
        FlushAmt(1)
    }
}

/// Keeps the buffer from growing past this many bytes, and does else what std does.
#[derive(Drop)]
pub struct Limiting(pub usize);

impl Limiting {
    // A limit below the capacity is refused, and then the buffer keeps its own.
    fn limit(&self, buffer: &mut Buffer)
        ensures { Lawful buffer.old buffer.new }
    {
        let _ = buffer.set_limit(self.0);
    }
}

impl ReaderPolicy for Limiting {
    fn before_read(&mut self, buffer: &mut Buffer) -> io::Result<DoRead> {
        self.limit(buffer);
        Ok(read_when_empty(buffer))
    }

    fn after_consume(&mut self, _buffer: &mut Buffer, _amt: usize) {}
}

impl WriterPolicy for Limiting {
    fn before_write(&mut self, buf: &mut Buffer, incoming: usize) -> io::Result<FlushAmt> {
        self.limit(buf);
        Ok(flush_when_full(buf, incoming))
    }

    fn after_write(&mut self, _buf: &Buffer) -> FlushAmt {
        FlushAmt(0)
    }
}

/// Says yes and no in turn, and fails at each seventh question.
#[derive(Drop)]
pub struct Fickle {
    /// How many questions were answered since it failed last.
    pub asked: usize,
}

impl Fickle {
    // Counts a question, and says whether its answer is yes.
    fn mind(&mut self) -> io::Result<bool> {
        if self.asked >= 6 {
            self.asked = 0;
            return Err(io::Error::from(ErrorKind::Other));
        }
        self.asked += 1;
        Ok(self.asked % 2 == 1)
    }
}

impl ReaderPolicy for Fickle {
    fn before_read(&mut self, buffer: &mut Buffer) -> io::Result<DoRead> {
        let yes = self.mind()?;
        if yes {
            buffer.make_room();
        }
        Ok(DoRead(yes))
    }

    fn after_consume(&mut self, buffer: &mut Buffer, amt: usize) {
        if amt % 2 == 1 {
            buffer.make_room();
        }
    }
}

impl WriterPolicy for Fickle {
    fn before_write(&mut self, buf: &mut Buffer, _incoming: usize) -> io::Result<FlushAmt> {
        if self.mind()? {
            return Ok(FlushAmt(buf.len()));
        }
        buf.make_room();
        Ok(FlushAmt(2))
    }

    fn after_write(&mut self, buf: &Buffer) -> FlushAmt {
        FlushAmt(buf.len().min(self.asked))
    }
}

/// Keeps a copy of the bytes that it saw last, and looks four bytes ahead.
#[derive(Drop)]
pub struct Copying {
    /// Where the copies take their memory from.
    pub alloc: Global,
    /// What was buffered at the last question.
    pub seen: Vec<u8>,
}

impl Copying {
    /// Has seen nothing yet.
    pub fn new(alloc: Global) -> Copying {
        Copying {
            alloc,
            seen: Vec::new(alloc),
        }
    }
}

impl ReaderPolicy for Copying {
    fn before_read(&mut self, buffer: &mut Buffer) -> io::Result<DoRead> {
        self.seen = Vec::from_slice(self.alloc, buffer.buf())?;
        Ok(DoRead(self.seen.len() < 4))
    }

    fn after_consume(&mut self, _buffer: &mut Buffer, _amt: usize) {}
}
