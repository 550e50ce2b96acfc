//! A buffered reader as a stream that tells of its own calls.
ghost use Rattle.std.specs.Prelude.{◌≡◌, drop, length, IfOk};
ghost use Rattle.std.specs.Borrow.{sem};
ghost use Rattle.std.specs.Io.{StartsWith};
ghost use Rattle.std.specs.Io.BufRead.{Rests};
ghost use Rattle.std.specs.Io.KnownBytes.{Keeps};
ghost use Rattle.std.specs.Io.Seek.{SeekMoves};
ghost use Rattle.redux_buffer.specs.Block.{IsBlock};
ghost use Rattle.redux_buffer.specs.StreamLog.{after_consume, after_fill, FillTells, SeekTells};
ghost use Rattle.buffer_redux.specs.contracts.buf_reader.BufReader.{the_row};
ghost use Rattle.buffer_redux.specs.BufReader.{Fills, ReaderConsumes};
ghost use Rattle.buffer_redux.specs.Buffered.{with_calls};
ghost use Rattle.buffer_redux.specs.Fill.{Filled};
ghost use Rattle.buffer_redux.specs.ReaderTells.{reader_log, drops_shown, ReaderWent, ReaderWent-none, ReaderWent-joins, ReaderWent-grows};
ghost use Rattle.buffer_redux.specs.Seek.{plan_for, reader_position, Seeks};

use crate::buf_reader::BufReader;
use crate::policy::ReaderPolicy;
use redux_buffer::tell::{Call, Tell, TellBufRead, TellRead, TellSeek};
use std::io;
use std::io::{BufRead, Seek, SeekFrom};

impl<R: Tell, P> Tell for BufReader<R, P> {
    ghost log = { reader_log };
}

impl<R: TellRead, P: ReaderPolicy> BufReader<R, P> {
    // Fills, and notes the call before what it shows is lent.
    fn fill_noted(&mut self) -> io::Result<()>
        ensures noted { self.new.own_calls ≡ after_fill self.old.own_calls result self.new.block.bytes }
        ensures went { ReaderWent R.remaining P.rules self.old self.new }
        ensures filled { Filled P.rules self.old result self.new }
        ensures whole { IsBlock self.new.block }
    {
        let answer = self.fill();
        match &answer {
            Ok(()) => self.calls.note(&Call::Shown(self.buf.buf())),
            Err(e) => self.calls.note(&Call::FillFault(self.buf.buf(), e)),
        }
        answer
    }
}

impl<R: TellRead, P: ReaderPolicy> TellBufRead for BufReader<R, P> {
    ghost trace = { ReaderWent R.remaining P.rules };

    fn fill_told(&mut self) -> io::Result<&[u8]>
        ensures buffered { IfOk result (λ bytes. StartsWith bytes.now self.old.block.bytes) }
        ensures* after_borrow { sem 𝓛 (Rests (the_row R.row P.row R.Tell) self.entry
            (λ t. FillTells (reader_log self.entry.now) result (reader_log t)
            × ReaderWent R.remaining P.rules self.entry.now t × Fills P.rules self.entry.now result t)) }
    {
        self.fill_noted()?;
        Ok(self.buf.buf())
    }

    fn consume_told(&mut self, amount: usize)
        ensures left { self.new.block.bytes ≡ drop amount self.old.block.bytes }
        ensures told { reader_log self.new ≡ after_consume (reader_log self.old) amount }
        ensures trace { ReaderWent R.remaining P.rules self.old self.new }
        ensures consumed { ReaderConsumes P.rules amount self.old self.new }
        ensures whole { IsBlock self.new.block }
    {
        self.calls.note(&Call::Consume(self.buf.buf(), amount));
        self.consume(amount);
    }

    ghost trace_none = { ReaderWent-none R.remaining P.rules };

    ghost trace_joins = { ReaderWent-joins R.remaining P.rules };

    ghost trace_grows = { ReaderWent-grows R.remaining P.rules };
}

impl<R: TellSeek, P> TellSeek for BufReader<R, P> {
    ghost stream_position = { reader_position R.stream_position };

    ghost stream_bytes = { λ r. R.stream_bytes r.inner };

    ghost readies = { drops_shown };

    fn seek_told(&mut self, to: SeekFrom) -> io::Result<u64>
        ensures moves { SeekMoves (reader_position R.stream_position self.old)
            (reader_position R.stream_position self.new) (R.stream_bytes self.old.inner) to result }
        ensures bytes { Keeps (R.stream_bytes self.old.inner) (R.stream_bytes self.new.inner) }
        ensures told { SeekTells drops_shown (reader_log self.old) to result (reader_log self.new) }
        ensures seeks { Seeks R.readies (plan_for to (length self.old.block.bytes)) self.old result
            (with_calls self.new self.old.own_calls) }
    {
        let answer = self.seek(to);
        self.calls.note(&Call::Seek(to, &answer));
        answer
    }
}
