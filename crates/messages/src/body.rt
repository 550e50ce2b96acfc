//! The reader of requests, in a body.
ghost use Rattle.std.specs.Prelude.{◌≡◌, ◌-◌, ◌^◌, ◌<◌, ◌≤◌, ◌↔◌, ℕ, List, [], ◌++◌, drop, length, min, take, IfOk, IsTrue, MatchResult};
ghost use Rattle.std.specs.Borrow.{Lends, sem};
ghost use Rattle.buffer_redux.specs.Buffered.{with_inner};
ghost use Rattle.buffer_redux.specs.Policy.{std_read_rules};
ghost use Rattle.body_reader.specs.Between.{LeavesRest, handed_out};
ghost use Rattle.body_reader.specs.BodyReader.{HandsBuffered, IsBodyReader, ReadsPayload};
ghost use Rattle.body_reader.specs.Coding.{IsBody};
ghost use Rattle.body_reader.specs.declared.either.Side.TheVariants as side;
ghost use Rattle.codec.specs.PieceReader.{rest};
ghost use Rattle.messages.specs.contracts.body.Body.{the_row};
ghost use Rattle.messages.specs.Heads.{IsHead};
ghost use Rattle.messages.specs.Messages.{FailsToFinish, FinishesBody, InsideGoes, IsRoomy, TellsWhy, body_rules, coding_of, entering, room_of};

mod lends;
mod tells;

use crate::error::{BodyError, answer_of, unread};
use crate::head::{Extent, Heads, ParsedHead};
use crate::limits::Limits;
use crate::requests::Requests;
use body_reader::{BodyReader, Either, Sized};
use buffer_redux::tell::{Tell, TellRead};
use buffer_redux::{BufReader, Buffer};
use chunked::{Chunked, Limits as ChunkLimits};
use codec::PieceReader;
use std::alloc::Global;
use std::marker::Model;

/// Bodies of a length, and bodies in chunks.
pub type BodyCoding = Either<Sized, Chunked>;

/// A reader of requests that stands in the body of one.
#[derive(Drop)]
pub struct Body<R: Tell> {
    alloc: Global,
    reader: BodyReader<R, BodyCoding>,
    limits: Limits,
    head: Buffer,
    said: ParsedHead,
}

impl<R: Tell> Model for Body<R> {
    ghost use Rattle.std.specs.Prelude.{◌≡◌};
    ghost use Rattle.messages.specs.Heads.{IsHead};
    ghost use Rattle.messages.specs.Messages.{InBody, IsRoomy};

    ghost Value = { InBody R };

    ghost view = { λ b. record { body = b.reader; limits = b.limits; head = b.head.bytes; said = b.said } };

    ghost invariant = { λ b. (b.head.capacity ≡ 16384) × IsHead b.limits b.head.bytes b.said × IsRoomy b.reader.reader.block };
}

impl<R: Tell> Body<R> {
    /// The body of a message with this head, of which the reader has the beginning.
    pub(crate) fn new(
        alloc: Global,
        reader: BufReader<R>,
        limits: Limits,
        head: Buffer,
        said: ParsedHead,
    ) -> Self
        requires room { head.capacity ≡ 16384 }
        requires is { IsHead limits head.bytes said }
        requires roomy { IsRoomy reader.block }
        ensures enters { result ≡ entering reader limits head.bytes said }
        ensures whole { IsBodyReader (body_rules result.body.coding) result.body }
    {
        Body {
            alloc,
            reader: BodyReader::new(reader, coding_of(said.extent, limits)),
            limits,
            head,
            said,
        }
    }

    /// The head.
    pub fn head(&self) -> &[u8]
        ensures { result.now ≡ self.now.head }
    {
        self.head.buf()
    }

    /// What the head says.
    pub fn said(&self) -> ParsedHead
        ensures value { result ≡ self.now.said }
        ensures is { IsHead self.now.limits self.now.head result }
    {
        self.said
    }

    /// How many bytes of the body were taken so far, as far as a `u64` counts: its payload, and in chunks what is none. Who reads
    /// chunks knows by that how much of them is none, which has no bound but those of a line and of the trailers.
    pub fn taken(&self) -> u64
        ensures { result ≡ min (length self.now.body.taken) (2 ^ 64 - 1) }
    {
        self.reader.taken()
    }

    /// What is buffered of the stream: the rest of the body comes first.
    pub fn buffered(&self) -> &[u8]
        ensures { result.now ≡ self.now.body.reader.block.bytes }
    {
        self.reader.get_ref().buffer()
    }

    /// The stream. What is read through this is in no message.
    pub fn get_ref(&self) -> &R
        ensures inner { result.now ≡ self.now.body.reader.inner }
        ensures log { R.log result.now ≡ self.now.body.reader.log }
        ensures whole { IsBodyReader (body_rules self.now.body.coding) self.now.body }
    {
        self.reader.get_ref().get_ref()
    }

    /// The stream, for changes, as of a time limit, or to answer where it goes both ways. What is read through this is in no
    /// message. One that is put in its place is read behind what is buffered of it.
    pub fn get_mut(&mut self) -> &mut R
        ensures* writes_back { sem 𝓛 (Lends (the_row R.row R.Tell) R.row self.entry result
            (λ stream. record self.old {
              body = record self.old.body { reader = with_inner R.log self.old.body.reader stream };
            })) }
        ensures inner { result.now ≡ self.old.body.reader.inner }
        ensures log { R.log result.now ≡ self.old.body.reader.log }
    {
        self.reader.get_mut()
    }

    /// The buffered reader where it stands, which may be within the body: that is torn then; and the room for a head, with this
    /// one in it. [`finish`](Body::finish) is the way to the next head.
    pub fn into_inner_torn(self) -> (BufReader<R>, Buffer)
        ensures reader { result.0 ≡ self.body.reader }
        ensures head { result.1.bytes ≡ self.head }
        ensures capacity { result.1.capacity ≡ 16384 }
        ensures kept { IsRoomy result.0.block }
    {
        let Body {
            alloc: _,
            reader,
            limits: _,
            head,
            said: _,
        } = self;
        (reader.into_inner_torn(), head)
    }

    /// Whether the body ended.
    pub fn is_done(&self) -> bool
        ensures sized { (n : ℕ) → self.now.body.place ≡ side.First n → (IsTrue result ↔ n ≡ 0) }
        ensures ended { IsTrue result ↔ IsBody (body_rules self.now.body.coding) self.now.body.taken
            self.now.body.calls.reads.given }
    {
        // Says that the reader is whole, as in other calls.
        let _ = self.reader.get_ref();
        self.reader.is_done()
    }
}

impl<R: TellRead> Body<R> {
    /// Hands out payload, at least a byte unless the body ended or the slice is empty. For an empty slice nothing is done. What
    /// is wrong is so at each further call. After an `Io` or a `Truncated` the call can be made again: it asks the stream, and
    /// goes on where more comes. An Ok is told as a read, and an `Err` isn't.
    ///
    /// The stream is asked only where no payload is buffered and the body goes on behind all that is: for no byte behind it, for
    /// as much as surely is payload and fits the slice, and once only where it fails or gives nothing. Less than the slice takes
    /// comes only where nothing is left of the buffer, or as much as surely is payload, or was known to be. Behind the payload a
    /// slice smaller than the buffer stays as it was.
    pub fn read(&mut self, out: &mut [u8]) -> Result<usize, BodyError>
        ensures bound { IfOk result (λ n. n ≤ length out.new) }
        ensures handed { IfOk result (λ n. self.new.body.calls.reads.given
            ≡ self.old.body.calls.reads.given ++ take n out.new) }
        ensures rest { LeavesRest self.old.body.reader.block.capacity out.old result out.new }
        ensures goes { InsideGoes R.remaining self.old (handed_out out.new result) self.new }
        ensures asks { self.old.body.reader.block.bytes ≡ [] → 0 < length out.new
            → ¬ (IsBody (body_rules self.old.body.coding) self.old.body.taken self.old.body.calls.reads.given)
            → self.old.body.reader.log.reads.asks < self.new.body.reader.log.reads.asks }
        ensures reads { TellsWhy self.new.body.place (λ told. ReadsPayload R.remaining std_read_rules
            (body_rules self.old.body.coding) self.old.body out.new told self.new.body) result }
    {
        let _ = self.reader.get_ref();
        let answer = self.reader.read_payload(out);
        answer_of(self.reader.place(), answer)
    }

    /// Hands out payload that is buffered, and asks the stream for nothing; behind that the slice stays as it was. Less than the
    /// slice takes comes only where the body ended, or nothing is buffered, or what comes next is wrong, which
    /// [`read`](Body::read) tells. It is told as a read where payload is handed out, and else not.
    pub fn read_buffered(&mut self, out: &mut [u8]) -> usize
        ensures bound { result ≤ length out.new }
        ensures rest { drop result out.new ≡ drop result out.old }
        ensures unasked { self.new.body.reader.log ≡ self.old.body.reader.log }
        ensures goes { InsideGoes R.remaining self.old (take result out.new) self.new }
        ensures reads { HandsBuffered R.remaining std_read_rules (body_rules self.old.body.coding) self.old.body out.new result
            self.new.body }
    {
        let _ = self.reader.get_ref();
        self.reader.read_buffered(out)
    }

    /// Goes on to the next head: takes what is left of the body, and drops its payload. The stream is asked for no byte behind
    /// it. An `Err` hands the reader back, in the body still. The buffer is kept: it takes no memory, and no byte is moved in it.
    pub fn finish(self) -> Result<Requests<R>, (Self, BodyError)>
        ensures in_order { IfOk result (λ next. (wire : List ℕ) × (got : List ℕ)
            × (next.reader.log.reads.given ≡ self.body.reader.log.reads.given ++ got)
            × (wire ++ rest next ≡ self.body.reader.block.bytes ++ got)
            × ((due : ℕ) → self.body.place ≡ side.First due → length wire ≡ due)) }
        ensures room { IfOk result (λ next. room_of next.reader.block ≡ room_of self.body.reader.block) }
        ensures moved { IfOk result (λ next. next.reader.block.moved ≡ self.body.reader.block.moved) }
        ensures limits { IfOk result (λ next. next.decoder ≡ record { 0 = self.limits }) }
        ensures ends { MatchResult result (FinishesBody R.remaining self) (λ e. FailsToFinish R.remaining self e.1 e.0) }
    {
        let _ = self.reader.get_ref();
        let Body {
            alloc,
            reader,
            limits,
            head,
            said,
        } = self;
        match reader.finish() {
            Ok(reader) => {
                let (inner, buffer) = reader.into_inner_with_buffer();
                match PieceReader::with_buffer(alloc, buffer, inner, Heads(limits)) {
                    Ok(pieces) => Ok(Requests::before(alloc, pieces, head)),
                    Err(_) => unreachable!(),
                }
            }
            Err((reader, e)) => {
                let why = unread(reader.place(), e);
                Err((
                    Body {
                        alloc,
                        reader,
                        limits,
                        head,
                        said,
                    },
                    why,
                ))
            }
        }
    }
}

// The coding of the body that a head says.
fn coding_of(extent: Extent, limits: Limits) -> BodyCoding
    ensures coding { result ≡ coding_of limits extent }
    ensures ahead { (body_rules result).ahead ≡ 1 }
{
    match extent {
        Extent::Sized(len) => Either::First(Sized(len)),
        Extent::Chunked => Either::Second(Chunked(ChunkLimits {
            line: limits.line,
            trailers: limits.trailers,
        })),
    }
}
