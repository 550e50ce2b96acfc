//! One call of a reader: the room for what it may add to a run, and then the call itself.
ghost use Rattle.std.specs.Prelude.{◌≡◌, ◌+◌, ◌<◌, ◌≤◌, ℕ, List, length, min, IfOk, OnErr, vec_len, vec_capacity};
ghost use Rattle.redux_play.specs.declared.play.ReaderCall.TheVariants.{Read, Fill, Consume, ReadIntoBuf, MakeRoom, Reserve};
ghost use Rattle.redux_buffer.specs.Block.{IsBlock};
ghost use Rattle.redux_play.specs.PlayReader.{ReaderStep, WantsRoom, with_handed, room_to_read, most_handed};

use crate::play::record::hand_out;
use crate::play::{ReaderAnswer, ReaderCall, ReaderRun};
use buffer_redux::BufReader;
use buffer_redux::policy::ReaderPolicy;
use redux_buffer::tell::{Tell, TellRead};
use std::alloc::{AllocError, Global};
use std::io::{BufRead, Read};

// Makes room for what the call may add to the run, and returns the slice that a `Read` reads into.
pub fn room_for<R: Tell, P>(
    alloc: Global,
    reader: &BufReader<R, P>,
    call: ReaderCall,
    run: &mut ReaderRun,
) -> Result<Vec<u8>, AllocError>
    ensures out { IfOk result (λ out. length out.items ≡ room_to_read call) }
    ensures answer { IfOk result (λ _. vec_len run.new.answers < vec_capacity run.new.answers) }
    ensures bytes { IfOk result (λ _.
        vec_len run.new.handed + most_handed reader.now call ≤ vec_capacity run.new.handed) }
    ensures wanted { OnErr result
        (WantsRoom reader.now call (vec_capacity run.old.answers) (vec_capacity run.old.handed) run.old) }
    ensures more_answers { vec_capacity run.old.answers ≤ vec_capacity run.new.answers }
    ensures more_handed { vec_capacity run.old.handed ≤ vec_capacity run.new.handed }
    ensures answers_stay { run.new.answers.items ≡ run.old.answers.items }
    ensures handed_stays { run.new.handed.items ≡ run.old.handed.items }
{
    let mut out = Vec::new(alloc);
    match call {
        ReaderCall::Read(n) => {
            out.resize(n, 0)?;
            run.handed.reserve(n)?;
        }
        ReaderCall::Consume(n) => run.handed.reserve(n.min(reader.buf_len()))?,
        _ => {}
    }
    run.answers.reserve(1)?;
    Ok(out)
}

// Makes the call, with `out` as the slice to read into, and adds the bytes that it handed out.
pub fn step<R: TellRead, P: ReaderPolicy>(
    reader: &mut BufReader<R, P>,
    call: ReaderCall,
    out: &mut [u8],
    handed: &mut Vec<u8>,
) -> ReaderAnswer
    requires slice { length out.old ≡ room_to_read call }
    requires room { vec_len handed.old + most_handed reader.old call ≤ vec_capacity handed.old }
    ensures step { ReaderStep R.remaining P.rules (with_handed reader.old handed.old.items) call result
        (with_handed reader.new handed.new.items) }
    ensures room { vec_capacity handed.old ≤ vec_capacity handed.new }
    ensures whole { IsBlock reader.new.block }
{
    match call {
        ReaderCall::Read(_) => read(reader, out, handed),
        ReaderCall::Fill => fill(reader),
        ReaderCall::Consume(n) => consume(reader, n, handed),
        ReaderCall::ReadIntoBuf => read_into_buf(reader),
        ReaderCall::MakeRoom => make_room(reader),
        ReaderCall::Reserve(a) => reserve(reader, a),
    }
}

fn read<R: TellRead, P: ReaderPolicy>(
    reader: &mut BufReader<R, P>,
    out: &mut [u8],
    handed: &mut Vec<u8>,
) -> ReaderAnswer
    requires { vec_len handed.old + length out.old ≤ vec_capacity handed.old }
    ensures step { ReaderStep R.remaining P.rules (with_handed reader.old handed.old.items) (Read (length out.old)) result
        (with_handed reader.new handed.new.items) }
    ensures room { vec_capacity handed.old ≤ vec_capacity handed.new }
    ensures whole { IsBlock reader.new.block }
{
    match reader.read(out) {
        Ok(count) => {
            hand_out(handed, &out[..count]);
            ReaderAnswer::Count(count)
        }
        Err(e) => ReaderAnswer::Fault(e.kind()),
    }
}

fn fill<R: TellRead, P: ReaderPolicy>(reader: &mut BufReader<R, P>) -> ReaderAnswer
    ensures step { (handed : List ℕ) → ReaderStep R.remaining P.rules (with_handed reader.old handed) Fill result
        (with_handed reader.new handed) }
    ensures whole { IsBlock reader.new.block }
{
    match reader.fill_buf() {
        Ok(bytes) => ReaderAnswer::Shown(bytes.len()),
        Err(e) => ReaderAnswer::Fault(e.kind()),
    }
}

fn consume<R: TellRead, P: ReaderPolicy>(
    reader: &mut BufReader<R, P>,
    n: usize,
    handed: &mut Vec<u8>,
) -> ReaderAnswer
    requires { vec_len handed.old + min n (length reader.old.block.bytes) ≤ vec_capacity handed.old }
    ensures step { ReaderStep R.remaining P.rules (with_handed reader.old handed.old.items) (Consume n) result
        (with_handed reader.new handed.new.items) }
    ensures room { vec_capacity handed.old ≤ vec_capacity handed.new }
    ensures whole { IsBlock reader.new.block }
{
    let count = n.min(reader.buf_len());
    hand_out(handed, &reader.buffer()[..count]);
    reader.consume(n);
    ReaderAnswer::Count(count)
}

fn read_into_buf<R: TellRead, P: ReaderPolicy>(reader: &mut BufReader<R, P>) -> ReaderAnswer
    ensures step { (handed : List ℕ) → ReaderStep R.remaining P.rules (with_handed reader.old handed) ReadIntoBuf result
        (with_handed reader.new handed) }
    ensures whole { IsBlock reader.new.block }
{
    match reader.read_into_buf() {
        Ok(count) => ReaderAnswer::Count(count),
        Err(e) => ReaderAnswer::Fault(e.kind()),
    }
}

fn make_room<R: TellRead, P: ReaderPolicy>(reader: &mut BufReader<R, P>) -> ReaderAnswer
    ensures step { (handed : List ℕ) → ReaderStep R.remaining P.rules (with_handed reader.old handed) MakeRoom result
        (with_handed reader.new handed) }
    ensures whole { IsBlock reader.new.block }
{
    reader.make_room();
    ReaderAnswer::Done
}

fn reserve<R: TellRead, P: ReaderPolicy>(
    reader: &mut BufReader<R, P>,
    additional: usize,
) -> ReaderAnswer
    ensures step { (handed : List ℕ) → ReaderStep R.remaining P.rules (with_handed reader.old handed) (Reserve additional) result
        (with_handed reader.new handed) }
    ensures whole { IsBlock reader.new.block }
{
    match reader.reserve(additional) {
        Ok(()) => ReaderAnswer::Done,
        Err(e) => ReaderAnswer::Refused(e),
    }
}
