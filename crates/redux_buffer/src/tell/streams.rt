//! The calls of std's streams, under contracts that tell of each call.
ghost use Rattle.std.specs.Prelude.{◌≡◌, ⊤, ℕ, List, Option, None};
ghost use Rattle.std.specs.Io.{ReadsAtMost, WritesAtMost};
ghost use Rattle.std.specs.Io.KnownBytes.{Keeps, ReadConsumes};
ghost use Rattle.std.specs.Io.Seek.{SeekMoves};
ghost use Rattle.std.specs.Borrow.{sem};
ghost use Rattle.std.specs.Io.BufRead.{Rests};
ghost use Rattle.redux_buffer.specs.StreamLog.{StreamLog, after_read, after_write, after_flush, after_consume, FillTells, Readies, SeekTells};
ghost use Rattle.redux_buffer.specs.LogGrows.{WritesGoOn, FillsGoOn};

use std::io;
use std::io::SeekFrom;

/// A stream that tells what its calls were.
pub trait Tell {
    // All calls so far. What a stream has no calls for stays as it began.
    ghost log: { Self → StreamLog };
}

/// An honest reader: `Ok(n)` gave the first n bytes of the slice, and an `Err` gave none.
pub trait TellRead: Tell {
    // The bytes that reads will give from here on, where they are known, as std's `Read` has them.
    ghost remaining: { Self → Option (List ℕ) } = { λ _. None };

    /// [`Read::read`](std::io::Read::read).
    fn read_told(&mut self, buf: &mut [u8]) -> io::Result<usize>
        ensures bound { ReadsAtMost result buf.new }
        ensures told { Self.log self.new ≡ after_read (Self.log self.old) buf.new result }
        ensures bytes { ReadConsumes (remaining self.old) (remaining self.new) result buf.new };
}

/// An honest writer: `Ok(n)` took the first n bytes of the slice, and an `Err` took none.
pub trait TellWrite: Tell {
    // What any calls, one after another, may do to the writer.
    ghost trace: { Self → Self → Type 0 };

    // What is known of one call alone, and not of several together: by default nothing.
    ghost call: { Self → Self → Type 0 } = { λ _ _. ⊤ };

    /// [`Write::write`](std::io::Write::write).
    fn write_told(&mut self, buf: &[u8]) -> io::Result<usize>
        ensures bound { WritesAtMost result buf.now }
        ensures told { Self.log self.new ≡ after_write (Self.log self.old) buf.now result }
        ensures trace { trace self.old self.new }
        ensures call { call self.old self.new };

    /// [`Write::flush`](std::io::Write::flush).
    fn flush_told(&mut self) -> io::Result<()>
        ensures told { Self.log self.new ≡ after_flush (Self.log self.old) result }
        ensures trace { trace self.old self.new }
        ensures call { call self.old self.new };

    // No call is a trace too.
    ghost trace_none: { (s : Self) → trace s s };

    // Two traces join.
    ghost trace_joins: { (a b c : Self) → trace a b → trace b c → trace a c };

    // In a trace the log only goes on.
    ghost trace_grows: { (s t : Self) → trace s t → WritesGoOn (Self.log s) (Self.log t) };
}

/// An honest buffered reader: what a fill shows is what is consumed next, and what isn't consumed is shown again.
pub trait TellBufRead: Tell {
    // What any calls, one after another, may do to the reader.
    ghost trace: { Self → Self → Type 0 };

    /// [`BufRead::fill_buf`](std::io::BufRead::fill_buf).
    fn fill_told(&mut self) -> io::Result<&[u8]>
        ensures* after_borrow { sem 𝓛 (Rests Self.row self.entry (λ new.
            FillTells (Self.log self.old) result (Self.log new) × trace self.old new)) };

    /// [`BufRead::consume`](std::io::BufRead::consume).
    fn consume_told(&mut self, amount: usize)
        ensures told { Self.log self.new ≡ after_consume (Self.log self.old) amount }
        ensures trace { trace self.old self.new };

    // No call is a trace too.
    ghost trace_none: { (s : Self) → trace s s };

    // Two traces join.
    ghost trace_joins: { (a b c : Self) → trace a b → trace b c → trace a c };

    // In a trace the log only goes on.
    ghost trace_grows: { (s t : Self) → trace s t → FillsGoOn (Self.log s) (Self.log t) };
}

/// A seeker that tells where it was asked to go, and what it answered.
pub trait TellSeek: Tell {
    // Where the stream stands, where that is known, as std's `Seek` has it.
    ghost stream_position: { Self → Option ℕ } = { λ _. None };

    // All bytes of the stream, which a seek from the end counts, where they are known.
    ghost stream_bytes: { Self → Option (List ℕ) } = { λ _. None };

    // What a seek with this answer does to what is flushed and shown, just before it is told: by default nothing.
    ghost readies: { Readies } = { λ before _ after. after ≡ before };

    /// [`Seek::seek`](std::io::Seek::seek).
    fn seek_told(&mut self, to: SeekFrom) -> io::Result<u64>
        ensures told { SeekTells readies (Self.log self.old) to result (Self.log self.new) }
        ensures moves { SeekMoves (stream_position self.old) (stream_position self.new)
            (stream_bytes self.old) to result }
        ensures bytes { Keeps (stream_bytes self.old) (stream_bytes self.new) };
}
