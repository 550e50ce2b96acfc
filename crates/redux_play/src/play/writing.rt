//! One call of a writer.
ghost use Rattle.redux_buffer.specs.Block.{IsBlock};
ghost use Rattle.redux_play.specs.declared.play.WriterCall.TheVariants.{Write, Flush, MakeRoom, Reserve};
ghost use Rattle.redux_play.specs.PlayWriter.{WriterStep};

use crate::play::{WriterAnswer, WriterCall};
use buffer_redux::BufWriter;
use buffer_redux::policy::WriterPolicy;
use redux_buffer::tell::TellWrite;
use std::io::Write;

// Makes the call.
pub fn step<W: TellWrite, P: WriterPolicy>(
    writer: &mut BufWriter<W, P>,
    call: WriterCall<'_>,
) -> WriterAnswer
    ensures step { WriterStep W.log W.trace P.rules writer.old call.entry result writer.new }
    ensures whole { IsBlock writer.new.block }
{
    match call {
        WriterCall::Write(bytes) => write(writer, bytes),
        WriterCall::Flush => flush(writer),
        WriterCall::MakeRoom => make_room(writer),
        WriterCall::Reserve(a) => reserve(writer, a),
    }
}

fn write<W: TellWrite, P: WriterPolicy>(writer: &mut BufWriter<W, P>, bytes: &[u8]) -> WriterAnswer
    ensures step { WriterStep W.log W.trace P.rules writer.old (Write bytes.entry) result writer.new }
    ensures whole { IsBlock writer.new.block }
{
    match writer.write(bytes) {
        Ok(count) => WriterAnswer::Count(count),
        Err(e) => WriterAnswer::Fault(e.kind()),
    }
}

fn flush<W: TellWrite, P: WriterPolicy>(writer: &mut BufWriter<W, P>) -> WriterAnswer
    ensures step { WriterStep W.log W.trace P.rules writer.old Flush result writer.new }
    ensures whole { IsBlock writer.new.block }
{
    match writer.flush() {
        Ok(()) => WriterAnswer::Done,
        Err(e) => WriterAnswer::Fault(e.kind()),
    }
}

fn make_room<W: TellWrite, P: WriterPolicy>(writer: &mut BufWriter<W, P>) -> WriterAnswer
    ensures step { WriterStep W.log W.trace P.rules writer.old MakeRoom result writer.new }
    ensures whole { IsBlock writer.new.block }
{
    writer.make_room();
    WriterAnswer::Done
}

fn reserve<W: TellWrite, P: WriterPolicy>(
    writer: &mut BufWriter<W, P>,
    additional: usize,
) -> WriterAnswer
    ensures step { WriterStep W.log W.trace P.rules writer.old (Reserve additional) result writer.new }
    ensures whole { IsBlock writer.new.block }
{
    match writer.reserve(additional) {
        Ok(()) => WriterAnswer::Done,
        Err(e) => WriterAnswer::Refused(e),
    }
}
