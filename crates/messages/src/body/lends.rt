//! A body whose payload is lent.
ghost use Rattle.std.specs.Prelude.{◌≡◌, ◌-◌, ◌≤◌, [], ◌++◌, drop, length, min, take, IfOk};
ghost use Rattle.buffer_redux.specs.Policy.{std_read_rules};
ghost use Rattle.body_reader.specs.BodyReader.{ConsumesPayload, FillsPayload};
ghost use Rattle.body_reader.specs.Coding.{IsKnown};
ghost use Rattle.messages.specs.Messages.{InsideGoes, TellsWhy, body_rules};

use crate::body::Body;
use crate::error::{BodyError, answer_of};
use buffer_redux::tell::{Tell, TellRead};

impl<R: Tell> Body<R> {
    /// The payload that is buffered, as far as the last call found, and wasn't consumed. What is
    /// [`buffered`](Body::buffered) begins with it.
    pub fn piece(&self) -> &[u8]
        ensures front { result.now ≡ take self.now.body.known self.now.body.reader.block.bytes }
        ensures payload { IsKnown (body_rules self.now.body.coding) self.now.body.place self.now.body.known
            self.now.body.reader.block.bytes }
    {
        let _ = self.reader.get_ref();
        self.reader.piece()
    }
}

impl<R: TellRead> Body<R> {
    /// How many bytes of payload are buffered, which [`piece`](Body::piece) lends; none only where the body ended. Where some
    /// are known nobody is asked. An `Err` is as one of [`read`](Body::read), and no read is told.
    pub fn fill_payload(&mut self) -> Result<usize, BodyError>
        ensures count { IfOk result (λ n. (n ≡ self.new.body.known) × (n ≤ length self.new.body.reader.block.bytes)) }
        ensures goes { InsideGoes R.remaining self.old [] self.new }
        ensures fills { TellsWhy self.new.body.place (λ told. FillsPayload R.remaining std_read_rules
            (body_rules self.old.body.coding) self.old.body told self.new.body) result }
    {
        let _ = self.reader.get_ref();
        let answer = self.reader.fill_payload();
        answer_of(self.reader.place(), answer)
    }

    /// Goes on behind the first `count` bytes that [`piece`](Body::piece) lends, or behind all, and tells them as a read.
    pub fn consume_payload(&mut self, count: usize)
        ensures taken { self.new.body.taken
            ≡ self.old.body.taken ++ take (min count self.old.body.known) self.old.body.reader.block.bytes }
        ensures left { self.new.body.reader.block.bytes
            ≡ drop (min count self.old.body.known) self.old.body.reader.block.bytes }
        ensures known { self.new.body.known ≡ self.old.body.known - count }
        ensures goes { InsideGoes R.remaining self.old (take (min count self.old.body.known) self.old.body.reader.block.bytes)
            self.new }
        ensures consumes { ConsumesPayload R.remaining std_read_rules (body_rules self.old.body.coding) count self.old.body
            self.new.body }
    {
        let _ = self.reader.get_ref();
        self.reader.consume_payload(count)
    }
}
