//! Laws, each as the contract of a function. What its grammars and exact relations come to in lists stands in front.
ghost use Rattle.std.specs.Prelude.{◌≡◌, ℕ, ◌<◌, ◌≤◌, List, ◌∷◌, [], ◌++◌, length, false, IfErr, IfOk, Some};
ghost use Rattle.buffer_redux.specs.Unbuffer.{Unbuffered, unbuffer_remaining};
ghost use Rattle.codec.specs.declared.HeaderError.{HeaderError};
ghost use Rattle.codec.specs.declared.Header.TheVariants as header;
ghost use Rattle.codec.specs.PieceReader.{ReaderState, left_of, rest};
ghost use Rattle.codec.specs.Scanning.{scan_on};
ghost use Rattle.httparse.specs.Grammar.{IsRequestHead, RequestHead, print_request};
ghost use Rattle.messages.specs.Lines.{EndsByBoth, texts, turn};
ghost use Rattle.messages.specs.declared.lines.Before.TheVariants.{Start};
ghost use Rattle.messages.specs.declared.head.Heads as head;
ghost use Rattle.messages.specs.Messages.{AreMessages, Begun, EachReadGave, FinishesBody, InBody, InsideGoes, Message, MessagesWent, room_of};
ghost use Rattle.messages.specs.declared.limits.Limits.{Limits};
ghost use Rattle.messages.specs.Passing.{StopsIn};

use crate::body::Body;
use crate::error::BodyError;
use crate::requests::{Requests, Stop};
use buffer_redux::tell::{Tell, TellRead};

/// No beginning of the head of a request is refused by its lines, of HTTP/1.0 to 1.9, where CR LF ends each.
pub fn never_refused()
    ensures right { (h : RequestHead) (minor : ℕ) → IsRequestHead h → minor ≤ 9 → EndsByBoth h
        → length (print_request (record h { minor = minor })) ≤ 16384 → (front more : List ℕ)
        → print_request (record h { minor = minor }) ≡ front ++ more → ¬ (scan_on turn 16384 Start 0 front ≡ header.Bad) }
    ensures never { (h : RequestHead) (minor : ℕ) → IsRequestHead h → minor ≤ 9 → EndsByBoth h
        → length (print_request (record h { minor = minor })) ≤ 16384 → (front more : List ℕ)
        → print_request (record h { minor = minor }) ≡ front ++ more → (why : HeaderError) → ¬ (texts.wrong front why) }
{}

// No fact of few words stands in front, here and in the next: they join whole grammars and whole calls.
/// No message begins another: a text is cut into so many messages in one way.
pub fn one_cut()
    ensures { (limits : Limits) (messages others : List Message) (text text' behind behind' : List ℕ)
        → length messages ≡ length others → AreMessages limits messages text → AreMessages limits others text'
        → text ++ behind ≡ text' ++ behind'
        → (messages ≡ others) × (behind ≡ behind') }
{}

/// However a stream is cut into reads, and whatever its reads answered: from `next` to `finish`, whatever was read of the body
/// between, just a message goes, so the next one begins where this one ended (`one`, `many`). So of a stream that is known the
/// messages that went are its first, and what follows them is left (`known`). Where a call failed, the reader that it hands back
/// stands before the same head, or in the same body, of which what was taken is gone (`next`, `read` and `finish` say so).
pub fn no_byte_between<R: TellRead>(requests: &Requests<R>)
    ensures one { (s : ReaderState R head.Heads) (b m : InBody R) (handed : List ℕ) → Begun R.remaining s b
        → InsideGoes R.remaining b handed m → (ends : FinishesBody R.remaining m requests.now)
        → MessagesWent R.remaining s.decoder.0 (left_of s) ((b.head, handed ++ ends.drains.payload) ∷ [])
        (left_of requests.now) }
    ensures many { (limits : Limits) (s m : Unbuffered R) (messages more : List Message)
        → MessagesWent R.remaining limits s messages m → MessagesWent R.remaining limits m more (left_of requests.now)
        → MessagesWent R.remaining limits s (messages ++ more) (left_of requests.now) }
    ensures known { (limits : Limits) (s : Unbuffered R) (messages others : List Message) (text behind : List ℕ)
        → MessagesWent R.remaining limits s messages (left_of requests.now)
        → unbuffer_remaining R.remaining s ≡ Some (text ++ behind) → AreMessages limits others text
        → length messages ≡ length others
        → (messages ≡ others) × (unbuffer_remaining R.remaining (left_of requests.now) ≡ Some behind) }
{}

/// Why fewer messages went: the reader stands before a head, or in a body.
#[derive(Drop)]
pub enum Stopped<R: Tell> {
    Before(Requests<R>, Stop),
    Inside(Body<R>, BodyError),
}

/// Passes so many messages, however the stream is cut: each begins where the one before it ended, and what is left begins where
/// the last did. An `Err` stands behind fewer, before a head, of which nothing is gone, or in a body, and says why. Until then
/// no read failed, or gave nothing. However many there are, the buffer takes what it took at first.
pub fn pass<R: TellRead>(requests: Requests<R>, count: usize) -> Result<Requests<R>, Stopped<R>>
    ensures in_order { IfOk result (λ next. (wire : List ℕ) × (got : List ℕ)
        × (next.reader.log.reads.given ≡ requests.reader.log.reads.given ++ got)
        × (wire ++ rest next ≡ rest requests ++ got) × (count ≤ length wire)) }
    ensures passed { IfOk result (λ next. (messages : List Message) × (length messages ≡ count)
        × MessagesWent R.remaining requests.decoder.0 (left_of requests) messages (left_of next)
        × EachReadGave (left_of requests) (left_of next)
        × (room_of next.reader.block ≡ room_of requests.reader.block) × (next.decoder ≡ requests.decoder)) }
    ensures stopped { IfErr result (λ stopped. (messages : List Message) × (between : ReaderState R head.Heads)
        × (length messages < count) × MessagesWent R.remaining requests.decoder.0 (left_of requests) messages (left_of between)
        × EachReadGave (left_of requests) (left_of between) × (room_of between.reader.block ≡ room_of requests.reader.block)
        × (between.decoder ≡ requests.decoder) × (between.ended ≡ false) × StopsIn R.remaining between stopped) }
{
    let mut next = requests;
    for _ in 0..count {
        match pass_one(next) {
            Ok(behind) => {
                next = behind;
            }
            Err(stopped) => return Err(stopped),
        }
    }
    Ok(next)
}

// Passes one.
fn pass_one<R: TellRead>(requests: Requests<R>) -> Result<Requests<R>, Stopped<R>>
    ensures passed { IfOk result (λ next. (head : List ℕ) × (payload : List ℕ)
        × MessagesWent R.remaining requests.decoder.0 (left_of requests) ((head, payload) ∷ []) (left_of next)
        × EachReadGave (left_of requests) (left_of next)
        × (room_of next.reader.block ≡ room_of requests.reader.block) × (next.decoder ≡ requests.decoder)) }
    ensures stopped { IfErr result (StopsIn R.remaining requests) }
    ensures told { requests.ended ≡ false }
{
    match requests.next() {
        Ok(body) => match body.finish() {
            Ok(next) => Ok(next),
            Err((body, e)) => Err(Stopped::Inside(body, e)),
        },
        Err((requests, stop)) => Err(Stopped::Before(requests, stop)),
    }
}
