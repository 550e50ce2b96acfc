//! Calls for one byte, and for a look at bytes ahead.
ghost use Rattle.std.specs.Prelude.{◌≡◌, ◌+◌, ◌<◌, ◌≤◌, [], length, min, take, IfOk};
ghost use Rattle.std.specs.Borrow.{sem};
ghost use Rattle.std.specs.Io.{StartsWith};
ghost use Rattle.std.specs.Io.BufRead.{Rests};
ghost use Rattle.redux_buffer.specs.Block.{MakesRoom, usable};
ghost use Rattle.buffer_redux.specs.BufReader.{ReadsInOrder};
ghost use Rattle.buffer_redux.specs.Buffered.{with_block};
ghost use Rattle.buffer_redux.specs.contracts.buf_reader.BufReader.{the_row};
ghost use Rattle.buffer_redux.specs.Peek.{ReadsAhead};
ghost use Rattle.buffer_redux.specs.ReadByte.{FillsAndTakes, handed_byte, ReadsByte, TakesFirst};

use crate::buf_reader::BufReader;
use crate::policy::ReaderPolicy;
use redux_buffer::tell::TellRead;
use std::io;
use std::io::BufRead;

impl<R: TellRead, P: ReaderPolicy> BufReader<R, P> {
    /// The next byte, or `None` where a fill shows nothing: at the end of the stream, unless the policy says no over an empty
    /// buffer, or that has no capacity. Where a byte is buffered, the policy isn't asked, and neither is the reader.
    ///
    /// A fill that was interrupted is made again, 64 times in a row; any other fault is returned, and hands out nothing.
    #[inline(always)]
    pub fn read_byte(&mut self) -> io::Result<Option<u8>>
        ensures in_order { ReadsInOrder self.old (handed_byte result) self.new }
        ensures byte { ReadsByte R.remaining P.rules self.old result self.new }
    {
        // The last one that is buffered is taken apart, since the buffer is emptied there.
        if self.buf.len() > 1 {
            return Ok(self.take_first());
        }
        self.read_byte_apart()
    }

    #[inline(always)]
    fn read_byte_apart(&mut self) -> io::Result<Option<u8>>
        ensures byte { ReadsByte R.remaining P.rules self.old result self.new }
    {
        self.read_byte_slowly()
    }

    // The same, wherever the byte comes from.
    #[cold]
    #[inline(never)]
    fn read_byte_slowly(&mut self) -> io::Result<Option<u8>>
        ensures byte { ReadsByte R.remaining P.rules self.old result self.new }
    {
        match self.take_first() {
            Some(byte) => Ok(Some(byte)),
            None => self.fill_and_take(),
        }
    }

    // Fills, again where that was interrupted, and hands out the first byte that is buffered then.
    fn fill_and_take(&mut self) -> io::Result<Option<u8>>
        ensures takes { FillsAndTakes R.remaining P.rules self.old result self.new }
    {
        self.fill_retried()?;
        Ok(self.take_first())
    }

    // Hands out the first byte that is buffered.
    #[inline(always)]
    fn take_first(&mut self) -> Option<u8>
        ensures takes { TakesFirst R.remaining P.rules self.old result self.new }
    {
        match self.buf.buf().first() {
            Some(&byte) => {
                self.consume(1);
                Some(byte)
            }
            None => None,
        }
    }

    /// The first `n` bytes, which stay buffered; fewer where the stream ends, or no more fit into the buffer. Where they are
    /// buffered, nobody is asked.
    ///
    /// Where fewer are buffered, `peek` reads past the policy until `n` are; in a plain buffer, behind bytes that it moved to the
    /// front where the others didn't fit behind them. A fault, `Interrupted` among them, is returned at once, and what came
    /// before it stays buffered.
    #[inline(always)]
    pub fn peek(&mut self, n: usize) -> io::Result<&[u8]>
        ensures buffered { IfOk result (λ bytes. StartsWith bytes.now (take n self.old.block.bytes)) }
        ensures* after_borrow { sem 𝓛 (Rests (the_row R.row P.row R.Tell) self.entry
            (λ t. ReadsAhead R.remaining P.rules (min n self.entry.now.block.capacity) self.entry.now result t
            × IfOk result (λ bytes. bytes.now ≡ take (min n self.entry.now.block.capacity) t.block.bytes))) }
    {
        let n = n.min(self.buf.capacity());
        self.read_ahead(n)?;
        let shown = self.buf.buf();
        Ok(&shown[..n.min(shown.len())])
    }

    #[inline(always)]
    fn read_ahead(&mut self, n: usize) -> io::Result<()>
        requires fits { n ≤ self.old.block.capacity }
        ensures ahead { ReadsAhead R.remaining P.rules n self.old result self.new }
    {
        if self.buf.len() >= n {
            return Ok(());
        }
        self.read_ahead_apart(n)
    }

    // Inlined, as `read_byte_apart` is, so that an answer is cleared only where it is asked for.
    #[inline(always)]
    fn read_ahead_apart(&mut self, n: usize) -> io::Result<()>
        requires fits { n ≤ self.old.block.capacity }
        ensures ahead { ReadsAhead R.remaining P.rules n self.old result self.new }
    {
        self.read_ahead_slowly(n)
    }

    // Reads past the policy until `n` bytes are buffered.
    #[cold]
    #[inline(never)]
    fn read_ahead_slowly(&mut self, n: usize) -> io::Result<()>
        requires fits { n ≤ self.old.block.capacity }
        ensures ahead { ReadsAhead R.remaining P.rules n self.old result self.new }
    {
        while self.buf.len() < n {
            let more = n - self.buf.len();
            self.make_room_for(more);
            if self.read_into_buf()? == 0 {
                break;
            }
        }
        Ok(())
    }

    // Makes room, unless `more` bytes fit behind those that are buffered.
    fn make_room_for(&mut self, more: usize)
        requires fits { length self.old.block.bytes + more ≤ self.old.block.capacity }
        ensures enough { more ≤ usable self.old.block → self.new ≡ self.old }
        ensures lacking { usable self.old.block < more → MakesRoom self.old.block self.new.block
            × ReadsInOrder self.old [] self.new × (self.new ≡ with_block self.old self.new.block) }
    {
        if self.buf.usable_space() < more {
            self.make_room();
        }
    }
}
