//! A write of all bytes, of a length that the compiler knows or doesn't.
ghost use Rattle.std.specs.Prelude.{◌≤◌, length};
ghost use Rattle.redux_buffer.specs.Block.{Extends, IsBlock, usable};
ghost use Rattle.buffer_redux.specs.WriteAll.{WritesAll};

use crate::buf_writer::BufWriter;
use crate::policy::{FlushAmt, WriterPolicy};
use redux_buffer::Buffer;
use redux_buffer::tell::TellWrite;
use std::io;

// Appends bytes that fit. Of a length that the compiler is to know std's copy makes no call, and of any other a short one.
#[inline(always)]
fn append_by(buf: &mut Buffer, bytes: &[u8], known: bool)
    requires fits { length bytes.now ≤ usable buf.old }
    ensures bytes { Extends bytes.now buf.old buf.new }
    ensures whole { IsBlock buf.new }
{
    if known {
        buf.append(bytes);
    } else {
        buf.append_short(bytes);
    }
}

impl<W: TellWrite, P: WriterPolicy> BufWriter<W, P> {
    // `write_all`, with whether the compiler is to know the length.
    #[inline(always)]
    pub(super) fn write_whole(&mut self, bytes: &[u8], known: bool) -> io::Result<()>
        ensures steps { WritesAll W.log W.trace P.rules self.old bytes.now result self.new }
    {
        if bytes.is_empty() {
            let _ = &self.buf;
            return Ok(());
        }
        // Asked before the policy is, so that a policy that asks the same isn't compiled into the caller.
        if !self.buf.has_space_behind(bytes.len()) {
            return self.write_large_apart(bytes);
        }
        match self.policy.before_write(&mut self.buf, bytes.len()) {
            Ok(FlushAmt(first)) => {
                if first > 0 {
                    return self.write_rest_apart(first, bytes);
                }
                if self.buf.usable_space() <= bytes.len() {
                    return self.write_rest_apart(0, bytes);
                }
                // Nothing is sent first, and the bytes fit with room to spare.
                append_by(&mut self.buf, bytes, known);
                self.flush_after();
                Ok(())
            }
            Err(e) => self.write_on_apart(e, bytes),
        }
    }
}
