//! A client, and the store that outlives it.
ghost use Rattle.std.specs.Prelude.{◌≡◌, [], IfErr, IfOk, IsTrue, OnOk, false};
ghost use Rattle.codec.specs.PieceReader.{IsFresh};
ghost use Rattle.decoders.specs.Resp.{resp};
ghost use Rattle.resp.specs.Clients.{IsWithin, MayLackReply, ServesClient, ServesOpen, begun_of, closed_behind, closed_of, ends_as, pieces_of, tells_closed};
ghost use Rattle.resp.specs.Waiting.{nothing};
ghost use Rattle.resp.specs.declared.client.Ending.TheVariants as ending;

use crate::request::Request;
use crate::session::Session;
use crate::store::Store;
use buffer_redux::tell::{Tell, TellRead, TellWrite};
use buffer_redux::{BufWriter, GrowError, MakeError};
use codec::{
    EitherWrong, HeaderError, PieceReader, ServeError, Served, TooLong, Unended, serve_all,
};
use decoders::Resp;
use std::alloc::Global;
use std::convert::Infallible;
use std::io::Write;
use std::mem;

/// The most bytes of a bulk string, and of a line, with its first byte and its carriage return.
pub const MAX_PART: usize = 65536;

/// A client: the stream of its requests, what came of the one that has begun, and whether it is closed. It owns the stream, so
/// that no request begins in one stream and goes on in another. The store outlives it, and may serve other clients meanwhile.
///
/// ```
/// let mut store = Store::new(alloc, 100);
/// let stream = Told::new(b"*1\r\n$4\r\nPING\r\n*2\r\n$3\r\nGET\r\n".as_slice());
/// let mut client = Client::new(alloc, stream)?;
/// let mut replies = BufWriter::new(alloc, Told::new(Vec::new(alloc)))?;
/// assert!(rt; matches!(client.serve(&mut store, &mut replies), Ok(Ending::Within)));
/// assert!(rt; replies.get_ref().get_ref().as_slice() == b"+PONG\r\n".as_slice());
/// ```
#[derive(Drop)]
pub struct Client<R: Tell> {
    alloc: Global,
    requests: PieceReader<R, Resp>,
    request: Request,
    closed: bool,
}

/// Why a client is served no further.
#[derive(Clone, Copy, PartialEq, Eq, Debug, Drop)]
pub enum Ending {
    /// It asked for no more, or sent what belongs to no request. No call takes anything behind that.
    Closed,
    /// Its stream ended behind a whole request.
    End,
    /// Its stream ended where parts of a request are to come. Nothing of that is done.
    Within,
    /// At 2^64 - 1 pieces.
    Many,
}

impl<R: Tell> Client<R> {
    /// A client of which nothing came yet. A refusal hands `stream` back.
    pub fn new(alloc: Global, stream: R) -> Result<Self, MakeError<R>>
        ensures fresh { IfOk result (λ c. IsFresh R.log 8192 (resp 65536).most stream (pieces_of c).decoder (pieces_of c)) }
        ensures takes { IfOk result (λ c. (pieces_of c).decoder.max ≡ 65536) }
        ensures none { IfOk result (λ c. begun_of c ≡ nothing) }
        ensures open { IfOk result (λ c. closed_of c ≡ false) }
        ensures handed_back { IfErr result (λ e. e.0 ≡ stream) }
        ensures refused { IfErr result (λ e. e.1 ≡ GrowError.Memory) }
    {
        match PieceReader::new(alloc, stream, Resp { max: MAX_PART }) {
            Ok(requests) => Ok(Client {
                alloc,
                requests,
                request: Request::new(alloc),
                closed: false,
            }),
            Err(MakeError(back, e)) => Err(MakeError(back.0, e)),
        }
    }
}

impl<R: TellRead> Client<R> {
    /// Answers the client's requests, one after another, by `store`, as [`serve_all`] does. Behind an `Err` of `Read` this may be
    /// called again, and goes on within the request that has begun; a stream that ends within a bulk string, or a line, is
    /// `Wrong`. An `Err` of `Write` closes the client, since a reply may be missing, and a further one would be taken for it.
    /// Once the client is closed this only flushes, and answers `Closed`.
    pub fn serve<W: TellWrite>(
        &mut self,
        store: &mut Store,
        replies: &mut BufWriter<W>,
    ) -> Result<Ending, ServeError<EitherWrong<HeaderError, Unended<TooLong>>, Infallible>>
        ensures flushed { OnOk result (replies.new.block.bytes ≡ []) }
        ensures stays_closed { IsTrue (closed_of self.old) → (self.new ≡ self.old) × (store.new ≡ store.old)
            × IfOk result (λ answer. answer ≡ ending.Closed) }
        ensures closes { IfOk result (λ answer. closed_of self.new ≡ tells_closed answer) }
        ensures missing { IfErr result (λ e. MayLackReply e → IsTrue (closed_of self.new)) }
        ensures within { IfOk result (λ ending. IsWithin (begun_of self.new) ending) }
        ensures serves { ServesClient R.remaining W.log W.trace self.old store.old replies.old result self.new store.new
            replies.new }
    {
        if self.closed {
            return match replies.flush() {
                Ok(()) => Ok(Ending::Closed),
                Err(e) => Err(ServeError::Flush(Served::Closed, e)),
            };
        }
        self.serve_open(store, replies)
    }

    // Serves a client that isn't closed.
    fn serve_open<W: TellWrite>(
        &mut self,
        store: &mut Store,
        replies: &mut BufWriter<W>,
    ) -> Result<Ending, ServeError<EitherWrong<HeaderError, Unended<TooLong>>, Infallible>>
        requires open { closed_of self.old ≡ false }
        ensures flushed { OnOk result (replies.new.block.bytes ≡ []) }
        ensures serves { ServesOpen R.remaining W.log W.trace self.old store.old replies.old result self.new store.new
            replies.new }
    {
        let request = mem::replace(&mut self.request, Request::new(self.alloc));
        let values = mem::replace(store, Store::new(self.alloc, 0));
        let mut session = Session::new(self.alloc, request, values);
        let answer = serve_all(&mut session, &mut self.requests, replies);
        let (request, values, closed) = session.into_parts();
        self.request = request;
        self.closed = closed;
        *store = values;
        match answer {
            Ok(served) => Ok(ending_of(served, &self.request)),
            Err(e) => {
                self.closed = closes_behind(&e, closed);
                Err(e)
            }
        }
    }
}

// Whether no further piece is taken where serving failed so, and the service takes none, or does.
fn closes_behind<W, F>(e: &ServeError<W, F>, closed: bool) -> bool
    ensures { result ≡ closed_behind e.now closed }
{
    match e {
        ServeError::Write(_) => true,
        _ => closed,
    }
}

// Why serving ended, which left this of a request.
fn ending_of(served: Served, request: &Request) -> Ending
    ensures served { ends_as result ≡ served }
    ensures within { IsWithin request.now result }
{
    match served {
        Served::Closed => Ending::Closed,
        Served::End => {
            if request.is_begun() {
                Ending::Within
            } else {
                Ending::End
            }
        }
        Served::Many => Ending::Many,
    }
}
