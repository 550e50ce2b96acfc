//! Bodies are taken whole, and their payload counted.
ghost use Rattle.std.specs.Prelude.{◌≡◌, ℕ, ◌+◌, ◌<◌, ◌≤◌, ◌⊎◌, false, List, [], length, take, Err, IfErr, IfOk, MatchResult, Ok, OnOk};
ghost use Rattle.std.specs.declared.io.Error.{Error};
ghost use Rattle.buffer_redux.specs.Asking.{AskedWhere};
ghost use Rattle.body_reader.specs.Between.{handed_out};
ghost use Rattle.body_reader.specs.BodyReader.{IsBodyReader, TookWholeBody, handed_of};
ghost use Rattle.body_reader.specs.Coding.{LeadsOpen};
ghost use Rattle.codec.specs.AskedAgain.{InARow};
ghost use Rattle.codec.specs.PieceReader.{left_of};
ghost use Rattle.messages.specs.declared.error.BodyError.TheVariants.{Io};
ghost use Rattle.messages.specs.Limits.{usual};
ghost use Rattle.messages.specs.Messages.{Enters, InsideGoes, body_rules, room_of};
ghost use Rattle.redux_buffer.specs.Faults.{IsInterrupt, interrupt_limit};
ghost use Rattle.requests.specs.Answers.{NoneLeft, OneReadFails, ReadsSome, ReadsSteadily, TakeFails, TakesWhole, sent_till, sent_with, stream_in, unless_large};
ghost use Rattle.requests.specs.Large.{AwaitsMore, IsAwaited, is_large};
ghost use Rattle.requests.specs.Sending.{IsHeld, Prompt, SendsUnless};

use crate::limits::is_large;
use crate::rows::row_with;
use crate::writing::send_held;
use buffer_redux::BufWriter;
use buffer_redux::tell::{TellRead, TellWrite};
use messages::{Body, BodyError, Requests};
use std::io;

// Why a body isn't taken whole.
#[derive(Drop)]
pub enum Untaken {
    // It can't be read: a read failed, or it is torn.
    Body(BodyError),
    // It is too large.
    Large,
    // What was held couldn't be sent before the stream was asked.
    Unsent(io::Error),
}

// Takes the whole body, and counts its payload.
pub fn take_whole<R: TellRead, W: TellWrite>(
    body: Body<R>,
    writer: &mut BufWriter<W>,
) -> Result<(u64, Requests<R>), (Body<R>, Untaken)>
    requires held { IsHeld writer.old }
    requires enters { Enters usual body }
    ensures limits { IfOk result (λ r. r.1.decoder.0 ≡ usual) }
    ensures whole { IfOk result (λ r. TakesWhole R.remaining body (left_of r.1) r.0) }
    ensures steady { IfOk result (λ r. ReadsSteadily 0 (stream_in body) (left_of r.1)) }
    ensures room { IfOk result (λ r. room_of r.1.reader.block ≡ room_of body.body.reader.block) }
    ensures part { IfErr result (λ e. (handed : List ℕ) × InsideGoes R.remaining body handed e.0
        × TakeFails R.log (stream_in body) e.1 e.0) }
    ensures writes { MatchResult result
        (λ r. Prompt W.log W.trace (IsAwaited body.said.extent) (stream_in body, writer.old) (Ok tt)
        (left_of r.1, writer.new))
        (λ e. Prompt W.log W.trace (IsAwaited body.said.extent) (stream_in body, writer.old) (sent_till e.1)
        (stream_in e.0, writer.new)) }
{
    let mut body = body;
    match payload_len(&mut body, writer) {
        Ok(len) => match body.finish() {
            Ok(requests) => Ok((len, requests)),
            // Nothing is asked for at the end of a body.
            Err(_) => unreachable!(),
        },
        Err(e) => Err((body, e)),
    }
}

// How many bytes of payload the body has, of which all is read, unless it is too large. A read that was interrupted is made
// again, up to 64 times in a row, which begins anew where bytes came; any other failure is returned, so no answer counts a part
// of a body.
fn payload_len<R: TellRead, W: TellWrite>(
    body: &mut Body<R>,
    writer: &mut BufWriter<W>,
) -> Result<u64, Untaken>
    requires held { IsHeld writer.old }
    requires enters { Enters usual body.old }
    ensures goes { (payload : List ℕ) × InsideGoes R.remaining body.old payload body.new }
    ensures many { IfOk result (λ len. len ≡ length (handed_of body.new.body)) }
    ensures fails { IfErr result (λ e. TakeFails R.log (stream_in body.old) e body.new) }
    ensures ended { OnOk result (TookWholeBody (body_rules body.new.body.coding) body.new.body) }
    ensures small { IfOk result (λ len. is_large body.new.said.extent (length body.new.body.taken) len ≡ false) }
    ensures steady { OnOk result (ReadsSteadily 0 (stream_in body.old) (stream_in body.new)) }
    ensures writes { Prompt W.log W.trace (IsAwaited body.old.said.extent) (stream_in body.old, writer.old)
        (sent_with result) (stream_in body.new, writer.new) }
{
    let extent = body.said().extent;
    let mut out = [0; 4096];
    let mut len = 0u64;
    let mut row = 0;
    'reads: loop {
        if is_large(extent, body.taken(), len) {
            return Err(Untaken::Large);
        }
        if body.is_done() {
            return Ok(len);
        }
        let had = body.taken();
        let answer = read_on(body, &mut out, writer);
        // Says that what is seen is what the stream tells.
        let _ = body.get_ref();
        match unless_again(answer, row, had, body.taken()) {
            Ok((count, with)) => {
                len += count as u64;
                row = with;
            }
            Err(e) => return Err(unless_large(e, is_large(extent, body.taken(), len))),
        }
    }
}

// What is too large is called that, and not torn.
fn unless_large(e: Untaken, is_large: bool) -> Untaken
    ensures { result ≡ unless_large e is_large }
{
    match e {
        Untaken::Body(BodyError::Io(e)) => Untaken::Body(BodyError::Io(e)),
        Untaken::Body(torn) => {
            if is_large {
                Untaken::Large
            } else {
                Untaken::Body(torn)
            }
        }
        e => e,
    }
}

// How much payload a read handed out, and how many reads in a row were interrupted with it: none was, or one that is made again.
fn unless_again(
    answer: Result<usize, Untaken>,
    row: u32,
    had: u64,
    has: u64,
) -> Result<(usize, u32), Untaken>
    requires { row ≤ interrupt_limit }
    ensures goes_on { IfOk result (λ r. ((answer ≡ Ok r.0) × (r.1 ≡ 0)) ⊎ ((r.0 ≡ 0) × (r.1 ≤ interrupt_limit)
        × InARow row had has r.1 × (e : Error) × (answer ≡ Err (Untaken.Body (Io e))) × IsInterrupt e)) }
    ensures ends { IfErr result (λ e. (answer ≡ Err e) × ((fault : Error) → e ≡ Untaken.Body (Io fault)
        → IsInterrupt fault → InARow row had has (interrupt_limit + 1))) }
{
    match answer {
        Ok(count) => Ok((count, 0)),
        Err(Untaken::Body(BodyError::Io(e))) => match row_with(&e, row, had, has) {
            Some(with) => Ok((0, with)),
            None => Err(Untaken::Body(BodyError::Io(e))),
        },
        Err(e) => Err(e),
    }
}

// Reads some payload of a body that goes on. Where it isn't buffered, what is held is sent before the stream is asked.
fn read_on<R: TellRead, W: TellWrite>(
    body: &mut Body<R>,
    out: &mut [u8],
    writer: &mut BufWriter<W>,
) -> Result<usize, Untaken>
    requires room { 4096 ≤ length out.old }
    requires held { IsHeld writer.old }
    requires whole { IsBodyReader (body_rules body.old.body.coding) body.old.body }
    ensures bound { IfOk result (λ n. n ≤ length out.new) }
    ensures noted { IfOk result (λ n. 0 < n → body.new.body.calls.reads.latest ≡ take n out.new) }
    ensures goes { InsideGoes R.remaining body.old (handed_out out.new result) body.new }
    ensures reads { IfOk result (λ n. ReadsSome (stream_in body.old) n body.new) }
    ensures fails { IfErr result (λ e. OneReadFails (stream_in body.old) e body.new) }
    ensures asks { OnOk result ((stream_in body.old).left ≡ []
        → ¬ (TookWholeBody (body_rules body.old.body.coding) body.old.body)
        → (stream_in body.old).log.reads.asks < (stream_in body.new).log.reads.asks) }
    ensures writes { Prompt W.log W.trace (AwaitsMore body.old) (stream_in body.old, writer.old) (sent_with result)
        (stream_in body.new, writer.new) }
{
    let count = read_shown(body, out);
    if count > 0 {
        return Ok(count);
    }
    if body.is_done() {
        return Ok(0);
    }
    match send_unless_shown(body, writer) {
        Ok(()) => read(body, out),
        Err(e) => Err(Untaken::Unsent(e)),
    }
}

// Reads payload that is buffered. Where nothing is, no look is made.
fn read_shown<R: TellRead>(body: &mut Body<R>, out: &mut [u8]) -> usize
    requires whole { IsBodyReader (body_rules body.old.body.coding) body.old.body }
    ensures bound { result ≤ length out.new }
    ensures noted { 0 < result → body.new.body.calls.reads.latest ≡ take result out.new }
    ensures goes { InsideGoes R.remaining body.old (take result out.new) body.new }
    ensures unasked { (stream_in body.new).log ≡ (stream_in body.old).log }
    ensures idle { (stream_in body.old).left ≡ [] → (result ≡ 0) × (body.new ≡ body.old) }
    ensures all { 0 < length (stream_in body.new).left
        → NoneLeft body.new.body.coding body.new.body result (length out.new) }
{
    if body.buffered().is_empty() {
        return 0;
    }
    body.read_buffered(out)
}

// Reads some payload.
fn read<R: TellRead>(body: &mut Body<R>, out: &mut [u8]) -> Result<usize, Untaken>
    requires some { 0 < length out.old }
    ensures bound { IfOk result (λ n. n ≤ length out.new) }
    ensures noted { IfOk result (λ n. 0 < n → body.new.body.calls.reads.latest ≡ take n out.new) }
    ensures goes { InsideGoes R.remaining body.old (handed_out out.new result) body.new }
    ensures reads { IfOk result (λ n. ReadsSome (stream_in body.old) n body.new) }
    ensures fails { IfErr result (λ e. OneReadFails (stream_in body.old) e body.new) }
    ensures sent { sent_with result ≡ Ok tt }
    ensures asked { AskedWhere (LeadsOpen (body_rules body.old.body.coding) body.old.body.place []) (stream_in body.old)
        (stream_in body.new) }
    ensures asks { (stream_in body.old).left ≡ [] → ¬ (TookWholeBody (body_rules body.old.body.coding) body.old.body)
        → (stream_in body.old).log.reads.asks < (stream_in body.new).log.reads.asks }
{
    match body.read(out) {
        Ok(count) => Ok(count),
        Err(e) => Err(Untaken::Body(e)),
    }
}

// Sends what is held where more of the body has to be asked for.
fn send_unless_shown<R: TellRead, W: TellWrite>(
    body: &Body<R>,
    writer: &mut BufWriter<W>,
) -> io::Result<()>
    requires held { IsHeld writer.old }
    ensures { SendsUnless W.log W.trace (0 < length (stream_in body.now).left) writer.old result writer.new }
{
    if !body.buffered().is_empty() {
        return Ok(());
    }
    send_held(writer)
}
