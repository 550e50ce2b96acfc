//! What answers the pieces of one client: what came of its request, and the store.
ghost use Rattle.std.specs.Prelude.{◌≡◌, false};
ghost use Rattle.codec.specs.Answering.{WasAnswered};
ghost use Rattle.resp.specs.Sessions.{RepliesWhole, closes_by, refusal_reply, session, session_of};
ghost use Rattle.resp.specs.Stored.{held};

use crate::command::{act, command_of, goes_on};
use crate::request::{Fed, Refusal, Request};
use crate::store::Store;
use buffer_redux::BufWriter;
use buffer_redux::tell::TellWrite;
use codec::{AnswerError, Service, write_answer};
use decoders::{Resp, RespItem};
use std::alloc::Global;
use std::convert::Infallible;

/// What is replied to bytes that are no piece.
pub static PROTOCOL_ERROR: &[u8] = b"-ERR Protocol error\r\n";

/// What answers the pieces of one client.
#[derive(Drop)]
pub struct Session {
    alloc: Global,
    request: Request,
    store: Store,
    closed: bool,
}

impl Session {
    /// What came of a request, and the store, before a piece is answered.
    pub fn new(alloc: Global, request: Request, store: Store) -> Session
        ensures { result ≡ session_of alloc request store false }
    {
        Session {
            alloc,
            request,
            store,
            closed: false,
        }
    }

    /// Both as they are now, and whether no further piece is to be taken.
    pub fn into_parts(self) -> (Request, Store, bool)
        ensures request { result.0 ≡ self.request }
        ensures store { result.1 ≡ self.store }
        ensures closed { result.2 ≡ self.closed }
    {
        let Session {
            alloc: _,
            request,
            store,
            closed,
        } = self;
        (request, store, closed)
    }
}

/// Each request that is whole gets one reply, and each piece that is of none an error, behind which no further is taken.
impl Service<Resp> for Session {
    ghost use Rattle.codec.specs.Answering.{NeverFails};
    ghost use Rattle.resp.specs.Sessions.{RepliesBy};

    type Failure = Infallible;

    ghost answers = { RepliesBy };

    ghost fails = { NeverFails };

    fn answer<W: TellWrite>(
        &mut self,
        item: RespItem,
        payload: &[u8],
        writer: &mut BufWriter<W>,
    ) -> Result<bool, AnswerError<Infallible>> {
        match self.request.take(self.alloc, item, payload) {
            Fed::More => Ok(true),
            Fed::Whole => answer_whole(
                self.alloc,
                &mut self.request,
                &mut self.store,
                &mut self.closed,
                writer,
            ),
            Fed::Bad(refusal) => {
                self.request.clear();
                self.closed = true;
                write_answer(writer, &[refusal_text(refusal)], false)
            }
        }
    }
}

// Does what a request asks for.
fn answer_whole<W: TellWrite>(
    alloc: Global,
    request: &mut Request,
    store: &mut Store,
    closed: &mut bool,
    writer: &mut BufWriter<W>,
) -> Result<bool, AnswerError<Infallible>>
    ensures { WasAnswered W.log W.trace (λ reply more t. RepliesWhole request.old (held store.old) reply more t.waiting t.values
        × (t.closed ≡ closes_by more closed.old)) (λ _ _. ⊥) writer.old result (session request.new (held store.new) closed.new)
        writer.new }
{
    if request.is_lost() {
        request.clear();
        return write_answer(writer, &[b"-ERR out of memory\r\n"], true);
    }
    let command = command_of(request.parts());
    let done = act(alloc, command, store, writer);
    let more = goes_on(command);
    request.clear();
    *closed = closes(more, *closed);
    match done {
        Ok(()) => Ok(more),
        Err(e) => Err(AnswerError::Write(e)),
    }
}

// Whether no further piece is taken behind an answer.
fn closes(more: bool, closed: bool) -> bool
    ensures { result ≡ closes_by more closed }
{
    !more || closed
}

fn refusal_text(refusal: Refusal) -> &'static [u8]
    ensures { result.now ≡ refusal_reply refusal }
{
    match refusal {
        Refusal::Count => b"-ERR Protocol error: invalid multibulk length\r\n",
        Refusal::NoBulk => b"-ERR Protocol error: expected '$'\r\n",
        Refusal::NoArray => b"-ERR Protocol error: expected '*'\r\n",
    }
}
