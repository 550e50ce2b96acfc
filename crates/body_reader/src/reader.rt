//! The reader of a body.
ghost use Rattle.std.specs.Prelude.{◌≡◌, ℕ, List, [], ◌+◌, ◌-◌, ◌<◌, ◌≤◌, ◌↔◌, ◌++◌, drop, length, min, take, vec_capacity, vec_items, Err, IfErr, IfOk, IsOkAnd, IsTrue, MatchResult, Ok, OnOk, ⊤};
ghost use Rattle.std.specs.Borrow.{Lends, sem};
ghost use Rattle.body_reader.specs.contracts.reader.BodyReader.{the_row};
ghost use Rattle.buffer_redux.specs.Block.{Reserves, capacity_for};
ghost use Rattle.buffer_redux.specs.Buffered.{over_buffer, with_inner};
ghost use Rattle.buffer_redux.specs.BufReader.{ReadsInOrder};
ghost use Rattle.buffer_redux.specs.GrowError.{FitsWithin};
ghost use Rattle.buffer_redux.specs.MakeError.{growth};
ghost use Rattle.body_reader.specs.Between.{LeavesRest};
ghost use Rattle.body_reader.specs.Coding.{IsBody};
ghost use Rattle.body_reader.specs.BodyReader.{BodyState, Collects, ConsumesPayload, Drains, FillsPayload, HandsBuffered, IsBodyReader, LooksBehind, NotedIfOk, NotedIfSome, ReadsPayload, begun, taken_count};

mod streams;

use crate::allows::{Allows, Anything};
use crate::coding::{Coding, Look};
use crate::error::{BodyError, CollectError};
use crate::progress::Progress;
use crate::steps::{fill_on, hand_buffered, read_on, take_front};
use buffer_redux::policy::{ReaderPolicy, StdPolicy};
use buffer_redux::tell::{Call, CallLog, Tell, TellRead};
use buffer_redux::{BufReader, Buffer, MakeError};
use std::io::ErrorKind;
use std::marker::Model;
use std::{fmt, io, mem};

/// A reader of one body, out of a buffered reader of yours. What follows the body stays in that:
/// [`finish`](BodyReader::finish) hands it back.
///
/// Only `with_buffer`, `collect` and `collect_while` take memory, but for what the policy does. The stream is asked only where
/// what came settles nothing and no payload is left; once the body ended, only in [`is_at_end`](BodyReader::is_at_end).
#[derive(Drop)]
pub struct BodyReader<R: Tell, C: Coding, P = StdPolicy> {
    reader: BufReader<R, P>,
    coding: C,
    progress: Progress<C::Place>,
    // What was handed out, as a stream tells it.
    calls: CallLog,
    // How many of the bytes that are buffered are payload, as far as that was looked for.
    known: usize,
}

impl<R: Tell, C: Coding, P> Model for BodyReader<R, C, P> {
    ghost use Rattle.body_reader.specs.BodyReader.{BodyState, IsBodyReader, seen};

    ghost Value = { BodyState R P C C.Place };

    ghost view = { λ b. seen b.reader b.coding b.progress b.calls.log b.known };

    ghost invariant = { λ b. IsBodyReader (C.grammar b.coding) (seen b.reader b.coding b.progress b.calls.log b.known) };
}

impl<R: Tell, C: Coding> BodyReader<R, C> {
    /// Over a buffer of yours: its bytes are read first, as those that another reader left, and then `inner` is asked.
    ///
    /// The buffer is kept. Where its capacity is below what a look needs it grows; a refusal hands all three back.
    pub fn with_buffer(
        mut buffer: Buffer,
        inner: R,
        coding: C,
    ) -> Result<Self, MakeError<(Buffer, R, C)>>
        ensures over { IfOk result (λ b. (b.reader.inner ≡ inner) × (b.reader.block.bytes ≡ buffer.bytes) × (b.taken ≡ [])) }
        ensures made { IfOk result (λ b. b ≡ begun (C.grammar coding)
            (over_buffer R.log (record {}) b.reader.block inner) coding) }
        ensures whole { IfOk result (IsBodyReader (C.grammar coding)) }
        ensures handed_back { IfErr result (λ e. e.0 ≡ (buffer, inner, coding)) }
        ensures kept { (C.grammar coding).ahead ≤ buffer.capacity
            → IsOkAnd result (λ b. b.reader.block ≡ buffer) }
        ensures within { buffer.capacity < (C.grammar coding).ahead → FitsWithin (growth result)
            (capacity_for buffer ((C.grammar coding).ahead - length buffer.bytes)) buffer.limit }
        ensures grown { IfOk result (λ b. buffer.capacity < (C.grammar coding).ahead
            → Reserves ((C.grammar coding).ahead - length buffer.bytes) buffer b.reader.block) }
    {
        let ahead = coding.ahead();
        if buffer.capacity() < ahead {
            let lacks = ahead - buffer.len();
            if let Err(e) = buffer.reserve(lacks) {
                return Err(MakeError((buffer, inner, coding), e));
            }
        }
        Ok(BodyReader::new(BufReader::with_buffer(buffer, inner), coding))
    }
}

impl<R: Tell, C: Coding, P> BodyReader<R, C, P> {
    /// A reader of the body that comes next of `reader`, whose buffer has the capacity that a look needs.
    pub fn new(reader: BufReader<R, P>, coding: C) -> Self
        requires room { (C.grammar coding).ahead ≤ reader.block.capacity }
        ensures over { (result.reader ≡ reader) × (result.taken ≡ []) }
        ensures begun { result ≡ begun (C.grammar coding) reader coding }
        ensures whole { IsBodyReader (C.grammar coding) result }
    {
        let place = coding.first();
        BodyReader {
            reader,
            coding,
            progress: Progress::new(place),
            calls: CallLog::new(),
            known: 0,
        }
    }

    /// The buffered reader.
    pub fn get_ref(&self) -> &BufReader<R, P>
        ensures reader { result.now ≡ self.now.reader }
        ensures whole { IsBodyReader (C.grammar self.now.coding) self.now }
    {
        &self.reader
    }

    /// The stream inside, for changes. What is read through this is in no body, and another stream in its place is read behind
    /// what is buffered.
    pub fn get_mut(&mut self) -> &mut R
        ensures* writes_back { sem 𝓛 (Lends (the_row R.row C.row P.row C.Place.row C.Wrong.row R.Tell C.Coding) R.row
            self.entry result (λ stream. record self.old { reader = with_inner R.log self.old.reader stream })) }
        ensures inner { result.now ≡ self.old.reader.inner }
        ensures log { R.log result.now ≡ self.old.reader.log }
    {
        self.reader.get_mut()
    }

    /// The buffered reader where it stands, which may be within the body: that is torn then.
    /// [`finish`](BodyReader::finish) is the way to what follows the body.
    pub fn into_inner_torn(self) -> BufReader<R, P>
        ensures { result ≡ self.reader }
    {
        let BodyReader {
            reader,
            coding: _,
            progress: _,
            calls: _,
            known: _,
        } = self;
        reader
    }

    /// Goes on before the next body, which is of this coding, behind one that ended: see [`is_done`](BodyReader::is_done), and
    /// [`drain`](BodyReader::drain), which takes the rest of one. Leaves the old coding in its place.
    pub fn begin_next(&mut self, coding: &mut C)
        requires ended { IsBody (C.grammar self.old.coding) self.old.taken self.old.calls.reads.given }
        requires room { (C.grammar coding.old).ahead ≤ self.old.reader.block.capacity }
        ensures before { coding.new ≡ self.old.coding }
        ensures begun { self.new ≡ begun (C.grammar coding.old) self.old.reader coding.old }
        ensures whole { IsBodyReader (C.grammar coding.old) self.new }
    {
        self.progress = Progress::new(coding.first());
        self.calls = CallLog::new();
        self.known = 0;
        mem::swap(&mut self.coding, coding);
    }

    /// The payload that is buffered, as far as the last call found, and wasn't consumed.
    pub fn piece(&self) -> &[u8]
        ensures { result.now ≡ take self.now.known self.now.reader.block.bytes }
    {
        &self.reader.buffer()[..self.known]
    }

    /// Where in the body it stands.
    pub fn place(&self) -> C::Place
        ensures { result ≡ self.now.place }
    {
        self.progress.place
    }

    /// How many bytes of the body were taken so far, as far as a `u64` counts.
    pub fn taken(&self) -> u64
        ensures { result ≡ taken_count self.now }
    {
        self.progress.count
    }

    /// Whether the body ended.
    pub fn is_done(&self) -> bool
        ensures { IsTrue result ↔ IsBody (C.grammar self.now.coding) self.now.taken self.now.calls.reads.given }
    {
        matches!(self.coding.look(self.progress.place, &[]), Look::Ended)
    }
}

impl<R: TellRead, C: Coding, P: ReaderPolicy> BodyReader<R, C, P> {
    /// Hands out payload, at least a byte unless the body ended or the slice is empty.
    ///
    /// What is wrong stays buffered, and each further call says so. After a `Truncated` a further call asks the stream again, and
    /// goes on where more came, as it does after an `Io`. Behind the payload a slice smaller than the buffer stays as it was.
    pub fn read_payload(&mut self, out: &mut [u8]) -> Result<usize, BodyError<C::Wrong>>
        ensures bound { IfOk result (λ n. n ≤ length out.new) }
        ensures handed { IfOk result (λ n. self.new.calls.reads.given ≡ self.old.calls.reads.given ++ take n out.new) }
        ensures rest { LeavesRest self.old.reader.block.capacity out.old result out.new }
        ensures reads { ReadsPayload R.remaining P.rules (C.grammar self.old.coding) self.old out.new result self.new }
    {
        let answer = read_on(
            &mut self.reader,
            &self.coding,
            &mut self.progress,
            &mut self.known,
            out,
        );
        note_ok(&mut self.calls, out, &answer);
        answer
    }

    /// How many bytes of payload are buffered, which [`piece`](BodyReader::piece) lends; none only where the body ended. Where
    /// some are known nobody is asked.
    pub fn fill_payload(&mut self) -> Result<usize, BodyError<C::Wrong>>
        ensures count { IfOk result (λ n. (n ≡ self.new.known)
            × (n ≡ 0 → IsBody (C.grammar self.old.coding) self.new.taken self.new.calls.reads.given)) }
        ensures fills { FillsPayload R.remaining P.rules (C.grammar self.old.coding) self.old result self.new }
    {
        if self.known > 0 {
            return Ok(self.known);
        }
        match fill_on(&mut self.reader, &self.coding, &mut self.progress) {
            Ok(known) => {
                self.known = known;
                Ok(known)
            }
            Err(e) => Err(e),
        }
    }

    /// Proceeds on behind the first `count` bytes that [`piece`](BodyReader::piece) lends, or behind all.
    pub fn consume_payload(&mut self, count: usize)
        ensures taken { self.new.taken ≡ self.old.taken ++ take (min count self.old.known) self.old.reader.block.bytes }
        ensures left { self.new.known ≡ self.old.known - count }
        ensures consumes { ConsumesPayload R.remaining P.rules (C.grammar self.old.coding) count self.old self.new }
    {
        let count = count.min(self.known);
        if count == 0 {
            return;
        }
        self.calls
            .note(&Call::Read(&self.reader.buffer()[..count], &Ok(count)));
        take_front(
            &mut self.reader,
            &self.coding,
            &mut self.progress,
            &mut self.known,
            count,
        );
    }

    /// Hands out payload that is buffered, as much as the slice takes, and asks the stream for nothing; behind that the slice
    /// stays as it was. Less comes only where no more is buffered: the body ended, what is buffered settles nothing, or is wrong,
    /// which the next [`read_payload`](BodyReader::read_payload) tells. It is told as a read where payload is handed out, and
    /// else not.
    pub fn read_buffered(&mut self, out: &mut [u8]) -> usize
        ensures least { min self.old.known (length out.new) ≤ result }
        ensures taken { (wire : List ℕ) × (wire ++ self.new.reader.block.bytes ≡ self.old.reader.block.bytes)
            × (self.new.taken ≡ self.old.taken ++ wire) }
        ensures rest { drop result out.new ≡ drop result out.old }
        ensures reads { HandsBuffered R.remaining P.rules (C.grammar self.old.coding) self.old out.new result self.new }
    {
        let count = hand_buffered(
            &mut self.reader,
            &self.coding,
            &mut self.progress,
            &mut self.known,
            out,
        );
        note_some(&mut self.calls, out, count);
        count
    }

    /// The buffered reader, with just what follows the body: what is left of that is taken first, and its payload dropped. The
    /// stream is asked for nothing behind the end of the body, and for nothing at all where that was taken.
    ///
    /// An `Err` says why the body didn't end, as one of [`read_payload`](BodyReader::read_payload), and hands the reader back,
    /// which has taken what was right. A body whose rest is read in 2^64 - 1 pieces ends the call too, by `Other`.
    pub fn finish(mut self) -> Result<BufReader<R, P>, (Self, BodyError<C::Wrong>)>
        ensures behind { IfOk result (λ rest. (wire : List ℕ) × (dropped : List ℕ) × ReadsInOrder self.reader wire rest
            × IsBody (C.grammar self.coding) (self.taken ++ wire) (self.calls.reads.given ++ dropped)) }
        ensures drains { MatchResult result
            (λ rest. (body : BodyState R P C C.Place) × Drains R.remaining P.rules (C.grammar self.coding) self (Ok tt) body
            × (rest ≡ body.reader))
            (λ e. Drains R.remaining P.rules (C.grammar self.coding) self (Err e.1) e.0) }
    {
        match self.drain() {
            Ok(()) => Ok(self.into_inner_torn()),
            Err(e) => Err((self, e)),
        }
    }

    /// Takes the rest of the body, and drops its payload, as [`finish`](BodyReader::finish) does.
    pub fn drain(&mut self) -> Result<(), BodyError<C::Wrong>>
        ensures ended { OnOk result (IsBody (C.grammar self.old.coding) self.new.taken self.new.calls.reads.given) }
        ensures in_order { (wire : List ℕ) × ReadsInOrder self.old.reader wire self.new.reader
            × (self.new.taken ≡ self.old.taken ++ wire) }
        ensures drains { Drains R.remaining P.rules (C.grammar self.old.coding) self.old result self.new }
    {
        let _ = self.get_ref();
        for _piece in 0..u64::MAX {
            let count = self.fill_payload()?;
            if count == 0 {
                return Ok(());
            }
            self.consume_payload(count);
        }
        Err(BodyError::Io(io::Error::from(ErrorKind::Other)))
    }

    /// Takes the rest of the body, and appends its payload to `out`, but no piece with which that would have more than `most`
    /// bytes. How much memory `out` takes for them the kit's `Vec` says, which promises no bound.
    pub fn collect(&mut self, most: usize, out: &mut Vec<u8>) -> Result<(), CollectError<C::Wrong>>
        ensures appended { (payload : List ℕ) × (vec_items out.new ≡ vec_items out.old ++ payload)
            × (0 < length payload → length (vec_items out.new) ≤ most)
            × (self.new.calls.reads.given ≡ self.old.calls.reads.given ++ payload) }
        ensures ended { OnOk result (IsBody (C.grammar self.old.coding) self.new.taken self.new.calls.reads.given) }
        ensures full { IfErr result (λ e. e ≡ CollectError.Memory
            → vec_capacity out.old < length (vec_items out.new) + self.new.known) }
        ensures collects { Collects R.remaining P.rules (C.grammar self.old.coding) (λ _. ⊤) most self.old
            (vec_items out.old) result self.new (vec_items out.new) }
    {
        self.collect_while(&Anything, most, out)
    }

    /// The same, while all that is in `out` then is allowed: of a piece with which it isn't no byte is taken.
    pub fn collect_while<A: Allows>(
        &mut self,
        allows: &A,
        most: usize,
        out: &mut Vec<u8>,
    ) -> Result<(), CollectError<C::Wrong>>
        requires { A.allowed allows.now (vec_items out.old) }
        ensures appended { (payload : List ℕ) × (vec_items out.new ≡ vec_items out.old ++ payload)
            × (0 < length payload → length (vec_items out.new) ≤ most)
            × (self.new.calls.reads.given ≡ self.old.calls.reads.given ++ payload) }
        ensures ended { OnOk result (IsBody (C.grammar self.old.coding) self.new.taken self.new.calls.reads.given) }
        ensures full { IfErr result (λ e. e ≡ CollectError.Memory
            → vec_capacity out.old < length (vec_items out.new) + self.new.known) }
        ensures collects { Collects R.remaining P.rules (C.grammar self.old.coding) (A.allowed allows.now) most self.old
            (vec_items out.old) result self.new (vec_items out.new) }
    {
        // Says that the reader is whole, also where nothing comes.
        let _ = self.get_ref();
        loop {
            let came = self.fill_payload()?;
            if came == 0 {
                return Ok(());
            }
            let known = out.len();
            if came > most.saturating_sub(known) {
                return Err(CollectError::TooLong);
            }
            match out.extend_from_slice(self.piece()) {
                Ok(()) => {
                    if !allows.allows(out, known) {
                        out.truncate(known);
                        return Err(CollectError::Refused);
                    }
                    self.consume_payload(came);
                }
                Err(_) => return Err(CollectError::Memory),
            }
        }
    }

    /// Whether nothing follows what was taken: asks the stream once, unless a byte is buffered, and leaves what comes. Behind the
    /// end of the body this tells whether the stream ended too.
    pub fn is_at_end(&mut self) -> io::Result<bool>
        ensures buffered { IfOk result (λ none. IsTrue none ↔ self.new.reader.block.bytes ≡ []) }
        ensures looks { LooksBehind R.remaining P.rules (C.grammar self.old.coding) self.old result self.new }
    {
        Ok(self.reader.peek(1)?.is_empty())
    }
}

// Notes an Ok read.
fn note_ok<W>(calls: &mut CallLog, out: &[u8], answer: &Result<usize, BodyError<W>>)
    ensures { NotedIfOk calls.old.log out.now answer.now calls.new.log }
{
    if let Ok(count) = answer {
        calls.note(&Call::Read(out, &Ok(*count)));
    }
}

// Notes a read that handed out some bytes; one of none doesn't tell an end.
fn note_some(calls: &mut CallLog, out: &[u8], count: usize)
    ensures { NotedIfSome calls.old.log out.now count calls.new.log }
{
    if count > 0 {
        calls.note(&Call::Read(out, &Ok(count)));
    }
}

/// The buffered reader, where in the body it stands, and how many bytes of the body were taken.
impl<R: Tell + fmt::Debug, C: Coding, P: fmt::Debug> fmt::Debug for BodyReader<R, C, P>
where
    C::Place: fmt::Debug,
{
    fn fmt<T: fmt::Write>(&self, f: &mut fmt::Formatter<T>) -> fmt::Result {
        f.debug_struct("body_reader::BodyReader")
            .field("reader", &self.reader)
            .field("place", &self.progress.place)
            .field("taken", &self.progress.count)
            .finish()
    }
}
