//! The reader of requests, before a head.
ghost use Rattle.std.specs.Prelude.{◌≡◌, ℕ, List, [], ◌++◌, ◌<◌, ◌≤◌, ◌*◌, ◌↔◌, length, IfErr, IfOk, IsOk, IsTrue, MatchResult, Ok, Some, false};
ghost use Rattle.std.specs.Borrow.{Lends, sem};
ghost use Rattle.buffer_redux.specs.Block.{Plain};
ghost use Rattle.buffer_redux.specs.Buffered.{with_inner};
ghost use Rattle.buffer_redux.specs.Unbuffer.{unbuffered};
ghost use Rattle.codec.specs.Decoding.{IsLent, bytes_at};
ghost use Rattle.codec.specs.Grammar.{Begins};
ghost use Rattle.codec.specs.NextPiece.{NextPiece, StaysLeft};
ghost use Rattle.codec.specs.PieceReader.{IsFresh, IsOver, IsSettled, ReaderState, TakenApart, left_of, rest};
ghost use Rattle.messages.specs.contracts.requests.Requests.{the_row};
ghost use Rattle.messages.specs.declared.head.Heads as head;
ghost use Rattle.messages.specs.Heads.{IsHeadPiece, heads};
ghost use Rattle.messages.specs.Limits.{usual};
ghost use Rattle.messages.specs.Messages.{Begun, stop_answer};

use crate::bad_head::BadHead;
use crate::body::Body;
use crate::head::{Heads, MAX_HEAD, read_head_within};
use crate::limits::Limits;
use buffer_redux::tell::{Tell, TellRead};
use buffer_redux::{BufReader, Buffer, GrowError, MakeError};
use codec::{NextError, PieceReader, Span};
use std::alloc::Global;
use std::io;
use std::marker::Model;

/// Why there is no next message.
#[derive(Debug, Drop)]
pub enum Stop {
    /// The stream ended behind the last message.
    Ended,
    /// What comes next is no head. Each further call says the same, unless the stream ended in a head, and gives more then.
    Bad(BadHead),
    /// The stream failed. The call can be made again.
    Io(io::Error),
}

/// A reader of requests that stands before a head, or at the end of the stream.
///
/// ```
/// let stream = b"PUT / HTTP/1.1\r\nHost: a\r\nContent-Length: 5\r\n\r\nhello".as_slice();
/// let requests = Requests::new(alloc, Told::new(stream))?;
/// let mut body = requests
///     .next()
///     .map_err(|_| io::Error::from(ErrorKind::Other))?;
/// let mut out = [0; 8];
/// assert!(rt; matches!(body.read(&mut out), Ok(5)));
/// let requests = body
///     .finish()
///     .map_err(|_| io::Error::from(ErrorKind::Other))?;
/// assert!(rt; matches!(requests.next(), Err((_, Stop::Ended))));
/// ```
#[derive(Drop)]
pub struct Requests<R: Tell> {
    alloc: Global,
    pieces: PieceReader<R, Heads>,
    // Room for a head.
    head: Buffer,
}

impl<R: Tell> Model for Requests<R> {
    ghost use Rattle.std.specs.Prelude.{◌≡◌, false};
    ghost use Rattle.codec.specs.PieceReader.{ReaderState};
    ghost use Rattle.messages.specs.declared.head.Heads.{Heads};

    ghost Value = { ReaderState R Heads };

    ghost view = { λ r. r.pieces };

    ghost invariant = { λ r. (r.head.capacity ≡ 16384) × (r.pieces.ended ≡ false) };
}

impl<R: Tell> Requests<R> {
    /// The requests of `inner`. A refusal hands it back.
    pub fn new(alloc: Global, inner: R) -> Result<Self, MakeError<R>>
        ensures over { IfOk result (λ r. (r.reader.inner ≡ inner) × (r.reader.block.bytes ≡ [])) }
        ensures made { IfOk result (IsFresh R.log 8192 16384 inner (record { 0 = usual })) }
        ensures handed_back { IfErr result (λ e. e.0 ≡ inner) }
        ensures refused { IfErr result (λ e. e.1 ≡ GrowError.Memory) }
    {
        Requests::with_limits(alloc, inner, Limits::default())
    }

    /// The same under limits of yours.
    pub fn with_limits(alloc: Global, inner: R, limits: Limits) -> Result<Self, MakeError<R>>
        ensures over { IfOk result (λ r. (r.reader.inner ≡ inner) × (r.reader.block.bytes ≡ [])) }
        ensures made { IfOk result (IsFresh R.log 8192 16384 inner (record { 0 = limits })) }
        ensures handed_back { IfErr result (λ e. e.0 ≡ inner) }
        ensures refused { IfErr result (λ e. e.1 ≡ GrowError.Memory) }
    {
        let head = match Buffer::with_capacity(alloc, MAX_HEAD) {
            Ok(head) => head,
            Err(e) => return Err(MakeError(inner, e)),
        };
        match PieceReader::new(alloc, inner, Heads(limits)) {
            Ok(pieces) => Ok(Requests {
                alloc,
                pieces,
                head,
            }),
            Err(MakeError(back, e)) => Err(MakeError(back.0, e)),
        }
    }

    /// The same over buffers of yours: what `buffer` holds comes first, as the beginning of a head, and `head` is room for one,
    /// of which nothing is kept.
    ///
    /// A plain `buffer` in which three heads fit is kept, and so is a `head` whose capacity is [`MAX_HEAD`]: then this takes no
    /// memory. For any other there is a new one, as [`PieceReader::with_buffer`] has it. A refusal hands all three back.
    pub fn with_buffers(
        alloc: Global,
        buffer: Buffer,
        head: Buffer,
        inner: R,
    ) -> Result<Self, MakeError<(Buffer, Buffer, R)>>
        ensures over { IfOk result (λ r. (r.reader.inner ≡ inner) × (rest r ≡ buffer.bytes)) }
        ensures made { IfOk result (IsOver R.log 16384 buffer inner (record { 0 = usual })) }
        ensures handed_back { IfErr result (λ e. (e.0.0 ≡ buffer) × (e.0.1 ≡ head) × (e.0.2 ≡ inner)) }
        ensures refused { IfErr result (λ e. e.1 ≡ GrowError.Memory) }
        ensures kept { buffer.kind ≡ Plain → 3 * 16384 ≤ buffer.capacity → head.capacity ≡ 16384 → IsOk result }
    {
        Requests::with_buffers_and_limits(alloc, buffer, head, inner, Limits::default())
    }

    /// The same under limits of yours.
    pub fn with_buffers_and_limits(
        alloc: Global,
        buffer: Buffer,
        head: Buffer,
        inner: R,
        limits: Limits,
    ) -> Result<Self, MakeError<(Buffer, Buffer, R)>>
        ensures over { IfOk result (λ r. (r.reader.inner ≡ inner) × (rest r ≡ buffer.bytes)) }
        ensures made { IfOk result (IsOver R.log 16384 buffer inner (record { 0 = limits })) }
        ensures handed_back { IfErr result (λ e. (e.0.0 ≡ buffer) × (e.0.1 ≡ head) × (e.0.2 ≡ inner)) }
        ensures refused { IfErr result (λ e. e.1 ≡ GrowError.Memory) }
        ensures kept { buffer.kind ≡ Plain → 3 * 16384 ≤ buffer.capacity → head.capacity ≡ 16384 → IsOk result }
    {
        if head.capacity() == MAX_HEAD {
            return Requests::over(alloc, buffer, head, inner, limits);
        }
        let room = match Buffer::with_capacity(alloc, MAX_HEAD) {
            Ok(room) => room,
            Err(e) => return Err(MakeError((buffer, head, inner), e)),
        };
        match Requests::over(alloc, buffer, room, inner, limits) {
            Ok(requests) => Ok(requests),
            Err(MakeError(back, e)) => Err(MakeError((back.0, head, back.2), e)),
        }
    }

    // The same over this room for a head.
    fn over(
        alloc: Global,
        buffer: Buffer,
        head: Buffer,
        inner: R,
        limits: Limits,
    ) -> Result<Self, MakeError<(Buffer, Buffer, R)>>
        requires room { head.capacity ≡ 16384 }
        ensures made { IfOk result (IsOver R.log 16384 buffer inner (record { 0 = limits })) }
        ensures handed_back { IfErr result (λ e. (e.0.0 ≡ buffer) × (e.0.1 ≡ head) × (e.0.2 ≡ inner)) }
        ensures refused { IfErr result (λ e. e.1 ≡ GrowError.Memory) }
        ensures kept { buffer.kind ≡ Plain → 3 * 16384 ≤ buffer.capacity → IsOk result }
    {
        match PieceReader::with_buffer(alloc, buffer, inner, Heads(limits)) {
            Ok(pieces) => Ok(Requests {
                alloc,
                pieces,
                head,
            }),
            Err(MakeError(back, e)) => Err(MakeError((back.0, head, back.1), e)),
        }
    }

    /// The requests of this reader, with room for a head.
    pub(crate) fn before(alloc: Global, pieces: PieceReader<R, Heads>, head: Buffer) -> Self
        requires room { head.capacity ≡ 16384 }
        requires told { pieces.ended ≡ false }
        ensures { result ≡ pieces }
    {
        Requests {
            alloc,
            pieces,
            head,
        }
    }

    /// The stream. What is read through this is in no message.
    pub fn get_ref(&self) -> &R
        ensures inner { result.now ≡ self.now.reader.inner }
        ensures log { R.log result.now ≡ self.now.reader.log }
    {
        self.pieces.get_ref()
    }

    /// The stream, for changes, as of a time limit, or to answer where it goes both ways. What is read through this is in no
    /// message. One that is put in its place is read behind what is buffered of it.
    pub fn get_mut(&mut self) -> &mut R
        ensures* writes_back { sem 𝓛 (Lends (the_row R.row R.Tell) R.row self.entry result
            (λ stream. record self.old { reader = with_inner R.log self.old.reader stream })) }
        ensures inner { result.now ≡ self.old.reader.inner }
        ensures log { R.log result.now ≡ self.old.reader.log }
    {
        self.pieces.get_mut()
    }

    /// What is buffered of the stream, and comes next.
    pub fn buffered(&self) -> &[u8]
        ensures { result.now ≡ rest self.now }
    {
        self.pieces.rest()
    }

    /// The stream, the buffer with what comes next of it, and the room for a head.
    pub fn into_inner_with_buffers(self) -> (R, Buffer, Buffer)
        ensures left { (result.0 ≡ self.reader.inner) × (result.1.bytes ≡ rest self) }
        ensures apart { TakenApart R.log self result.0 result.1 }
        ensures told { self.ended ≡ false }
        ensures head { result.2.capacity ≡ 16384 }
    {
        let Requests {
            alloc: _,
            pieces,
            head,
        } = self;
        let (inner, buffer, _ended) = pieces.into_inner_with_buffer();
        (inner, buffer, head)
    }
}

impl<R: TellRead> Requests<R> {
    /// Goes on into the next message. An `Err` says why there is none, and hands the reader back, before what there is.
    pub fn next(mut self) -> Result<Body<R>, (Self, Stop)>
        ensures in_order { IfOk result (λ body. (got : List ℕ)
            × (body.body.reader.log.reads.given ≡ self.reader.log.reads.given ++ got)
            × (body.head ++ body.body.reader.block.bytes ≡ rest self ++ got)) }
        ensures told { self.ended ≡ false }
        ensures next { MatchResult result (Begun R.remaining self)
            (λ e. NextPiece R.remaining (heads self.decoder.0) self (stop_answer e.1) e.0) }
    {
        match self.pieces.step() {
            Ok(Some(span)) => Ok(self.enter(span)),
            Ok(None) => Err((self, Stop::Ended)),
            Err(NextError::Wrong(why)) => Err((self, Stop::Bad(why))),
            Err(NextError::Io(e)) => Err((self, Stop::Io(e))),
        }
    }

    /// Goes on into the next message as [`next`](Requests::next) does where its head stands whole in the buffer, and asks the
    /// stream for nothing, and moves no byte. An `Err` hands the reader back where it doesn't: `next` says then why, or asks for
    /// more.
    pub fn next_buffered(mut self) -> Result<Body<R>, Self>
        ensures front { IfOk result (λ body. body.head ++ body.body.reader.block.bytes ≡ rest self) }
        ensures unasked { IfOk result (λ body. body.body.reader.log ≡ self.reader.log) }
        ensures begun { IfOk result (Begun R.remaining self) }
        ensures still { IfOk result (λ body. body.body.reader.block.moved ≡ self.reader.block.moved) }
        ensures stays { IfErr result (StaysLeft (heads self.decoder.0) self) }
        ensures none { IfErr result (λ next. ¬ (Begins (heads self.decoder.0) (rest next))) }
    {
        match self.pieces.step_buffered() {
            Some(span) => Ok(self.enter(span)),
            None => Err(self),
        }
    }

    // Goes on behind the head that was handed out last, which is there.
    fn enter(mut self, span: Span) -> Body<R>
        requires lends { IsLent (heads self.decoder.0) self.handed self.reader.block.bytes span }
        requires head { IsHeadPiece self.decoder.0 (bytes_at span self.reader.block.bytes)
            (bytes_at span self.reader.block.bytes) }
        ensures stream { unbuffered result.body.reader ≡ left_of self }
        ensures still { result.body.reader.block.moved ≡ self.reader.block.moved }
        ensures begun { (s : ReaderState R head.Heads) → NextPiece R.remaining (heads s.decoder.0) s
            (Ok (Some (bytes_at span self.reader.block.bytes))) self → Begun R.remaining s result }
    {
        let Heads(limits) = *self.pieces.decoder();
        let lent = self.pieces.lent(span);
        let Ok(said) = read_head_within(lent, limits) else {
            unreachable!()
        };
        self.head.clear();
        self.head.append(lent);
        let Requests {
            alloc,
            pieces,
            head,
        } = self;
        let (inner, buffer, _ended) = pieces.into_inner_with_buffer();
        Body::new(
            alloc,
            BufReader::with_buffer(buffer, inner),
            limits,
            head,
            said,
        )
    }

    /// Whether [`next`](Requests::next) answers without the stream: a whole head is buffered, or lines that can't become one.
    /// What the lines behind the first say is looked at once the empty line came.
    ///
    /// Who answers requests holds no answer back while the stream is waited for: where this is false, flush, and then call
    /// `next`.
    pub fn is_settled(&self) -> bool
        ensures some { IsTrue result → 0 < length (rest self.now) }
        ensures settled { IsTrue result ↔ IsSettled (heads self.now.decoder.0) self.now }
    {
        self.pieces.is_settled()
    }
}
