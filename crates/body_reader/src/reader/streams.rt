//! The reader of a body, as a stream of std's.
ghost use Rattle.std.specs.Prelude.{None, Some, [], ◌≡◌, ℕ, List, ◌-◌, ◌++◌, length, min, take, IfOk, IfSome};
ghost use Rattle.std.specs.Borrow.{sem};
ghost use Rattle.std.specs.Io.{ReadsAtMost, StartsWith};
ghost use Rattle.std.specs.Io.BufRead.{Rests};
ghost use Rattle.std.specs.Io.KnownBytes.{ReadConsumes};
ghost use Rattle.body_reader.specs.contracts.reader.BodyReader.{the_row};
ghost use Rattle.body_reader.specs.Between.{LeavesRest};
ghost use Rattle.buffer_redux.specs.StreamLog.{StreamLog, after_read};
ghost use Rattle.body_reader.specs.BodyReader.{ConsumesPayload, FillsAsIo, IsBodyReader, ReadsAsIo};

use crate::coding::Coding;
use crate::reader::BodyReader;
use buffer_redux::policy::ReaderPolicy;
use buffer_redux::tell::{Call, Tell, TellRead};
use std::io;
use std::io::{BufRead, Read};

impl<R: Tell, C: Coding, P> Tell for BodyReader<R, C, P> {
    ghost log = { λ b. b.calls };
}

/// Payload, as [`read_payload`](BodyReader::read_payload) hands it out. An error is the stream's own, or of the kind
/// `InvalidData` or `UnexpectedEof`.
impl<R: TellRead, C: Coding, P: ReaderPolicy> Read for BodyReader<R, C, P>
where
    C::Wrong: Drop,
{
    fn read(&mut self, out: &mut [u8]) -> io::Result<usize>
        ensures bound { ReadsAtMost result out.new }
        ensures bytes { ReadConsumes None None result out.new }
        ensures rest { LeavesRest self.old.reader.block.capacity out.old result out.new }
        ensures read { ReadsAsIo R.remaining P.rules (C.grammar self.old.coding) self.old out.new result self.new }
    {
        Ok(self.read_payload(out)?)
    }
}

/// The same, told.
impl<R: TellRead, C: Coding, P: ReaderPolicy> TellRead for BodyReader<R, C, P>
where
    C::Wrong: Drop,
{
    fn read_told(&mut self, out: &mut [u8]) -> io::Result<usize>
        ensures bound { ReadsAtMost result out.new }
        ensures told { self.new.calls ≡ after_read self.old.calls out.new result }
        ensures bytes { ReadConsumes None None result out.new }
        ensures rest { LeavesRest self.old.reader.block.capacity out.old result out.new }
        ensures read { (untold : StreamLog) × ReadsAsIo R.remaining P.rules (C.grammar self.old.coding) self.old out.new result
            (record self.new { calls = untold }) }
        ensures whole { IsBodyReader (C.grammar self.new.coding) self.new }
    {
        let answer = self.read(out);
        if answer.is_err() {
            self.calls.note(&Call::Read(out, &answer));
        }
        answer
    }
}

/// Payload, lent out of the buffer.
impl<R: TellRead, C: Coding, P: ReaderPolicy> BufRead for BodyReader<R, C, P>
where
    C::Wrong: Drop,
{
    ghost consumable_len = { λ b. Some b.known };

    fn fill_buf(&mut self) -> io::Result<&[u8]>
        ensures front { IfSome {T = List ℕ} None (λ xs. IfOk result (λ bytes. StartsWith xs bytes.now)) }
        ensures end { IfSome {T = List ℕ} None (λ xs. IfOk result (λ bytes. length bytes.now ≡ 0 → xs ≡ [])) }
        ensures* after_borrow { sem 𝓛 (Rests (the_row R.row C.row P.row C.Place.row C.Wrong.row R.Tell C.Coding) self.entry
            (FillsAsIo R.remaining P.rules (C.grammar self.entry.now.coding) self.entry.now result)) }
    {
        self.fill_payload()?;
        Ok(self.piece())
    }

    fn consume(&mut self, amount: usize)
        ensures taken { self.new.taken ≡ self.old.taken ++ take (min amount self.old.known) self.old.reader.block.bytes }
        ensures left { self.new.known ≡ self.old.known - amount }
        ensures consumes { ConsumesPayload R.remaining P.rules (C.grammar self.old.coding) amount self.old self.new }
    {
        self.consume_payload(amount)
    }
}
