//! Answers each request on standard input by how many bytes of payload its body has.
//!
//! 200 and that number, where all of the body came, or 501 to a method that it doesn't know, or 417 to who expects something but
//! `100-continue`, before the body if the client waits (`early_refusal`); and else 100 before it. What comes and is no request is
//! refused by the status that RFC 9112 has for it (`refusal_of`); 400 is for a body that is none, or ends early, and 413 for one
//! that is too large (`is_large`); and then no more comes. It ends behind a request after which none may follow, and where the
//! stream does. It asks the stream only for more of a head, or of a body behind the call, each step at last where that settles
//! nothing (`AwaitsHead`, `AwaitsBody`), and once all that it wrote was sent, and sends only there, for room, and at the end
//! (`Prompt`).
//! Each request is answered before more is taken (`AnswersInTurns`); and behind a call of a stream that failed nothing is taken
//! or asked (`AnswersPart`).
#![tactic(auto)]

mod limits;
mod rows;
mod taking;
mod writing;

ghost use Rattle.std.specs.Prelude.{◌≡◌, ◌+◌, ◌≤◌, ℕ, true, IsTrue, IfOk, MatchResult, None, Ok, OnOk};
ghost use Rattle.buffer_redux.specs.Buffered.{Buffered};
ghost use Rattle.buffer_redux.specs.Faults.{interrupt_limit};
ghost use Rattle.buffer_redux.specs.Unbuffer.{Unbuffered};
ghost use Rattle.buffer_redux.specs.declared.policy.StdPolicy.{StdPolicy};
ghost use Rattle.codec.specs.PieceReader.{IsSettled, left_of};
ghost use Rattle.messages.specs.Heads.{heads};
ghost use Rattle.messages.specs.Limits.{usual};
ghost use Rattle.messages.specs.Messages.{Enters, room_of};
ghost use Rattle.requests.specs.Sending.{IsHeld, SendsUnless};
ghost use Rattle.requests.specs.Answers.{AnswersTurn, CallsFor, CameToBody, EndsSent, EndsUntaken, FewFailed, KeepsRoom, RunsToLast, ServesRequests, ending_of, only_line_ends, room_at, sending_of, stream_at, stream_in};
ghost use Rattle.requests.specs.Texts.{early_refusal, is_known};

use crate::rows::row_with;
use crate::taking::{Untaken, take_whole};
use crate::writing::{
    Refusal, answer_whole, call_for_body, early_refusal, is_known, refusal_of, refuse, send_held,
};
use buffer_redux::BufWriter;
use buffer_redux::tell::{Tell, TellRead, TellWrite, Told};
use messages::{BadHead, Body, BodyError, Requests, Stop, blank_len};
use std::io;
use std::io::{ErrorKind, Write};

// How many bytes of answers are held. On a socket where nobody set `nodelay` a write that is smaller than what the kernel sends
// at once waits until the last is acknowledged; one of this size doesn't.
const HELD: usize = 1 << 16;

fn main(rt: HostRuntime) -> io::Result<()> {
    let alloc = rt.alloc();
    let mut writer = BufWriter::with_capacity(alloc, HELD, Told::new(rt.stdout()))?;
    match Requests::new(alloc, Told::new(rt.stdin())) {
        Ok(requests) => {
            let answer = serve(requests, &mut writer).1;
            // A drop would send once more what wasn't sent.
            let _apart = writer.into_inner_with_buffer();
            answer
        }
        Err(_) => Err(io::Error::from(ErrorKind::OutOfMemory)),
    }
}

// Where the reader stands at the end.
#[derive(Drop)]
enum Place<R: Tell> {
    Before(Requests<R>),
    Inside(Body<R>),
}

// Answers each request.
fn serve<R: TellRead, W: TellWrite>(
    requests: Requests<R>,
    writer: &mut BufWriter<W>,
) -> (Place<R>, io::Result<()>)
    requires held { IsHeld writer.old }
    requires room { 65536 ≤ writer.old.block.capacity }
    requires limits { requests.decoder.0 ≡ usual }
    ensures room { room_at result.0 ≡ room_of requests.reader.block }
    ensures few { FewFailed (interrupt_limit + 1) (left_of requests) (stream_at result.0) }
    ensures serves { ServesRequests R.remaining W.log W.trace R.log (left_of requests) writer.old result.0 result.1 writer.new }
{
    let mut next = requests;
    for _message in 0..u64::MAX {
        match answer(next, writer) {
            Ok(behind) => {
                next = behind;
            }
            Err((place, ending)) => {
                let answer = send_last(ending, writer);
                return (place, answer);
            }
        }
    }
    let answer = send_last(Ending::Many, writer);
    (Place::Before(next), answer)
}

// Why no more is answered. Of these, only behind `Over` and `Many` something may be left to be sent.
#[derive(Drop)]
enum Ending {
    // No message follows, or what follows was refused.
    Over,
    // So many turns aren't counted.
    Many,
    // A read failed.
    Unread(io::Error),
    // Sending failed.
    Unsent(io::Error),
}

// Sends what is held at the end.
fn send_last<W: TellWrite>(ending: Ending, writer: &mut BufWriter<W>) -> io::Result<()>
    requires held { OnOk (sending_of ending) (IsHeld writer.old) }
    ensures { EndsSent W.log W.trace ending writer.old result writer.new }
{
    match ending {
        Ending::Over => send_held(writer),
        Ending::Many => match send_held(writer) {
            Ok(()) => Err(io::Error::from(ErrorKind::Other)),
            Err(e) => Err(e),
        },
        Ending::Unread(e) => Err(e),
        Ending::Unsent(e) => Err(e),
    }
}

// Answers one request, and goes on to the next. An `Err` is the end: there is none, or none may follow.
fn answer<R: TellRead, W: TellWrite>(
    requests: Requests<R>,
    writer: &mut BufWriter<W>,
) -> Result<Requests<R>, (Place<R>, Ending)>
    requires held { IsHeld writer.old }
    requires limits { requests.decoder.0 ≡ usual }
    ensures turns { AnswersTurn R.remaining W.log W.trace R.log (left_of requests) writer.old result writer.new }
    ensures room { KeepsRoom (room_of requests.reader.block) result }
    ensures limits { IfOk result (λ next. next.decoder.0 ≡ usual) }
{
    match requests.next_buffered() {
        Ok(body) => answer_body(body, writer),
        Err(requests) => match come_to_next(requests, writer) {
            Ok(body) => answer_body(body, writer),
            Err((requests, ending)) => Err((Place::Before(requests), ending)),
        },
    }
}

// Goes on into a request whose head isn't buffered whole, or refuses what is none. Where the stream has to be asked, what is held
// is sent first, and a read that was interrupted is made again, up to 64 times in a row, which begins anew where bytes came.
fn come_to_next<R: TellRead, W: TellWrite>(
    requests: Requests<R>,
    writer: &mut BufWriter<W>,
) -> Result<Body<R>, (Requests<R>, Ending)>
    requires held { IsHeld writer.old }
    requires limits { requests.decoder.0 ≡ usual }
    ensures comes { MatchResult result
        (λ body. CameToBody R.remaining W.log W.trace (left_of requests) writer.old body writer.new)
        (λ e. RunsToLast R.remaining W.log W.trace R.log (left_of requests) writer.old (Place.Before e.0) e.1 writer.new) }
    ensures room { MatchResult result (λ body. room_of body.body.reader.block ≡ room_of requests.reader.block)
        (λ e. room_of e.0.reader.block ≡ room_of requests.reader.block) }
{
    let mut next = requests;
    let mut row = 0;
    'asks: loop {
        match send_to_ask(&next, writer) {
            Ok(()) => {
                let had = next.buffered().len() as u64;
                match next.next() {
                    Ok(body) => return Ok(body),
                    Err((back, stop)) => match stop {
                        Stop::Ended => return Err((back, Ending::Over)),
                        Stop::Bad(why) => {
                            if is_blank_end(why, back.buffered()) {
                                return Err((back, Ending::Over));
                            }
                            let ending = ending_of(refuse(refusal_of(why), false, writer));
                            return Err((back, ending));
                        }
                        Stop::Io(e) => {
                            // Says that what is seen is what the stream tells.
                            let _ = back.get_ref();
                            match row_with(&e, row, had, back.buffered().len() as u64) {
                                Some(with) => {
                                    row = with;
                                    next = back;
                                }
                                None => return Err((back, Ending::Unread(e))),
                            }
                        }
                    },
                }
            }
            Err(e) => return Err((next, Ending::Unsent(e))),
        }
    }
}

// Sends what is held where a further request has to be asked for.
fn send_to_ask<R: TellRead, W: TellWrite>(
    requests: &Requests<R>,
    writer: &mut BufWriter<W>,
) -> io::Result<()>
    requires held { IsHeld writer.old }
    requires limits { requests.now.decoder.0 ≡ usual }
    ensures { SendsUnless W.log W.trace (IsSettled (heads usual) requests.now) writer.old result writer.new }
{
    if requests.is_settled() {
        return Ok(());
    }
    send_held(writer)
}

// Whether the stream ended behind empty lines, which say nothing.
fn is_blank_end(why: BadHead, left: &[u8]) -> bool
    ensures yes { result ≡ true → (have : ℕ) × (why ≡ BadHead.CutShort have) × IsTrue (only_line_ends left.now) }
    ensures cut { (have : ℕ) → why ≡ BadHead.CutShort have → result ≡ only_line_ends left.now }
{
    match why {
        BadHead::CutShort(_) => blank_len(left) == left.len(),
        _ => false,
    }
}

fn ending_of(sending: io::Result<()>) -> Ending
    ensures { result ≡ ending_of sending }
{
    match sending {
        Ok(()) => Ending::Over,
        Err(e) => Ending::Unsent(e),
    }
}

fn answer_body<R: TellRead, W: TellWrite>(
    body: Body<R>,
    writer: &mut BufWriter<W>,
) -> Result<Requests<R>, (Place<R>, Ending)>
    requires held { IsHeld writer.old }
    requires enters { Enters usual body }
    ensures limits { IfOk result (λ next. next.decoder.0 ≡ usual) }
    ensures room { KeepsRoom (room_of body.body.reader.block) result }
    ensures turns { (s : Unbuffered R) (w : Buffered W StdPolicy)
        → CameToBody R.remaining W.log W.trace s w body writer.old
        → AnswersTurn R.remaining W.log W.trace R.log s w result writer.new }
{
    let said = body.said();
    let known = is_known(body.head());
    match early_refusal(known, said) {
        Some(why) => {
            let ending = ending_of(refuse(why, false, writer));
            Err((Place::Inside(body), ending))
        }
        None => match call_for_body(known, said, writer) {
            Ok(()) => answer_called(body, writer),
            Err(e) => Err((Place::Inside(body), Ending::Unsent(e))),
        },
    }
}

// The same, where the body was called for. It goes on only where another request may follow.
fn answer_called<R: TellRead, W: TellWrite>(
    body: Body<R>,
    writer: &mut BufWriter<W>,
) -> Result<Requests<R>, (Place<R>, Ending)>
    requires held { IsHeld writer.old }
    requires enters { Enters usual body }
    requires open { early_refusal (is_known body.head) body.said ≡ None }
    ensures limits { IfOk result (λ next. next.decoder.0 ≡ usual) }
    ensures room { KeepsRoom (room_of body.body.reader.block) result }
    ensures turns { (s : Unbuffered R) (w v : Buffered W StdPolicy) → CameToBody R.remaining W.log W.trace s w body v
        → CallsFor R.remaining W.log W.trace body.head body.said (s, w) (Ok tt) (stream_in body, writer.old)
        → AnswersTurn R.remaining W.log W.trace R.log s w result writer.new }
{
    let said = body.said();
    let known = is_known(body.head());
    match take_whole(body, writer) {
        Ok((len, requests)) => match answer_whole(known, len, said, writer) {
            Ok(()) => {
                if said.keeps {
                    Ok(requests)
                } else {
                    Err((Place::Before(requests), Ending::Over))
                }
            }
            Err(e) => Err((Place::Before(requests), Ending::Unsent(e))),
        },
        Err((body, why)) => {
            let ending = unended(why, writer);
            Err((Place::Inside(body), ending))
        }
    }
}

// Refuses a body that isn't whole, or is too large, where that isn't the stream's fault.
fn unended<W: TellWrite>(e: Untaken, writer: &mut BufWriter<W>) -> Ending
    ensures { EndsUntaken W.log W.trace writer.old e result writer.new }
{
    match e {
        Untaken::Body(BodyError::Io(e)) => Ending::Unread(e),
        Untaken::Body(_) => ending_of(refuse(Refusal::BadRequest, false, writer)),
        Untaken::Large => ending_of(refuse(Refusal::LargeBody, false, writer)),
        Untaken::Unsent(e) => Ending::Unsent(e),
    }
}
