//! A body as a stream of std's, which tells its reads.
ghost use Rattle.std.specs.Prelude.{◌≡◌, None};
ghost use Rattle.std.specs.Io.{ReadsAtMost};
ghost use Rattle.std.specs.Io.KnownBytes.{ReadConsumes};
ghost use Rattle.buffer_redux.specs.Policy.{std_read_rules};
ghost use Rattle.buffer_redux.specs.StreamLog.{StreamLog, after_read};
ghost use Rattle.body_reader.specs.Between.{LeavesRest, handed_out};
ghost use Rattle.body_reader.specs.BodyReader.{ReadsAsIo};
ghost use Rattle.messages.specs.Messages.{InsideGoes, body_rules};

use crate::body::Body;
use buffer_redux::tell::{Tell, TellRead};
use std::io;
use std::io::Read;

impl<R: Tell> Tell for Body<R> {
    ghost log = { λ b. b.body.calls };
}

/// Payload, as [`read`](Body::read) hands it out; for an empty slice nothing is done. An error is the stream's own, or of the
/// kind `InvalidData` or `UnexpectedEof`.
impl<R: TellRead> Read for Body<R> {
    fn read(&mut self, out: &mut [u8]) -> io::Result<usize>
        ensures bound { ReadsAtMost result out.new }
        ensures told { self.new.body.calls ≡ after_read self.old.body.calls out.new result }
        ensures bytes { ReadConsumes None None result out.new }
        ensures rest { LeavesRest self.old.body.reader.block.capacity out.old result out.new }
        ensures goes { InsideGoes R.remaining self.old (handed_out out.new result) self.new }
        ensures read { (untold : StreamLog) × ReadsAsIo R.remaining std_read_rules (body_rules self.old.body.coding) self.old.body
            out.new result (record self.new.body { calls = untold }) }
    {
        self.read_told(out)
    }
}

/// The same, told.
impl<R: TellRead> TellRead for Body<R> {
    fn read_told(&mut self, out: &mut [u8]) -> io::Result<usize>
        ensures bound { ReadsAtMost result out.new }
        ensures told { self.new.body.calls ≡ after_read self.old.body.calls out.new result }
        ensures bytes { ReadConsumes None None result out.new }
        ensures rest { LeavesRest self.old.body.reader.block.capacity out.old result out.new }
        ensures goes { InsideGoes R.remaining self.old (handed_out out.new result) self.new }
        ensures read { (untold : StreamLog) × ReadsAsIo R.remaining std_read_rules (body_rules self.old.body.coding) self.old.body
            out.new result (record self.new.body { calls = untold }) }
    {
        let _ = self.reader.get_ref();
        self.reader.read_told(out)
    }
}
