//! The reader of parts.
ghost use Rattle.std.specs.Prelude.{[], ◌≡◌, ◌≢◌, ◌<◌, ◌≤◌, ◌+◌, ◌^◌, ◌⊎◌, ◌∷◌, ◌++◌, ◌↔◌, if◌then◌else◌, length, min, true, false, take, vec_items, Ok, IfErr, IfOk, IfSome, IsTrue, MatchBool, OnErr, OnOk};
ghost use Rattle.body_reader.specs.Between.{LeavesRest};
ghost use Rattle.body_reader.specs.BodyReader.{ConsumesPayload, FillsPayload, IsBodyReader, ReadsPayload, TookWholeBody};
ghost use Rattle.multipart.specs.Multipart.{AreCodings, CollectsHead, EndsHead, GoesOnFromHead, IsBegun, IsBoundary, IsForm, NextPart, PassesText, TurnsLast, codes, head_most, hyphens, is_full};

use crate::error::{NewError, PartError};
use crate::head::PartHead;
use body_reader::{BodyError, BodyReader, CollectError, JustOrUntil, Until};
use buffer_redux::BufReader;
use buffer_redux::policy::{ReaderPolicy, StdPolicy};
use buffer_redux::tell::{Tell, TellRead};
use memchr::memmem::Finder;
use std::alloc::Global;
use std::marker::Model;

/// How much of a body heads and parts may be. A preamble, as a text, may have any length, and takes no memory.
#[derive(Clone, Copy, Debug, Drop)]
pub struct Limits {
    /// The most bytes that a head has.
    pub head: usize,
    /// The most parts.
    pub parts: u64,
}

/// Where a reader stands.
#[derive(Clone, Copy, Debug, PartialEq, Eq, Drop)]
pub enum Stand {
    /// Before the first boundary.
    Preamble,
    /// Behind a boundary.
    Head,
    /// In the text of a part.
    Part,
    /// Behind the last boundary, and its two hyphens.
    Ended,
}

/// A reader of the parts of one body.
///
/// [`next_part`](Multipart::next_part) goes on to the next part. [`head`](Multipart::head) lends its head then, and its text is
/// read by [`read`](Multipart::read), or lent by [`fill`](Multipart::fill) and [`piece`](Multipart::piece).
#[derive(Drop)]
pub struct Multipart<R: Tell, P = StdPolicy> {
    body: BodyReader<R, JustOrUntil, P>,
    // The coding of what comes behind: heads and texts come by turns.
    other: JustOrUntil,
    head: Vec<u8>,
    stand: Stand,
    parts: u64,
    limits: Limits,
}

impl<R: Tell, P> Model for Multipart<R, P> {
    ghost use Rattle.std.specs.Prelude.{vec_capacity};
    ghost use Rattle.multipart.specs.Multipart.{FormState, IsForm};

    ghost Value = { FormState R P };

    ghost view = { λ m. record {
      body = m.body;
      other = m.other;
      head = m.head.items;
      room = vec_capacity m.head;
      stand = m.stand;
      parts = m.parts;
      limits = m.limits;
    } };

    ghost invariant = { λ m. IsForm m.stand (record {
      body = m.body;
      other = m.other;
      head = m.head.items;
      room = vec_capacity m.head;
      stand = m.stand;
      parts = m.parts;
      limits = m.limits;
    }) };
}

/// Whether this may be a boundary: it has 1 to 70 bytes, and none of them is a carriage return or a line feed.
pub fn is_boundary(bytes: &[u8]) -> bool
    ensures { IsTrue result ↔ IsBoundary bytes.now }
{
    !bytes.is_empty() && bytes.len() <= 70 && !bytes.contains(&b'\r') && !bytes.contains(&b'\n')
}

impl<R: Tell, P> Multipart<R, P> {
    /// A reader of a body with this boundary, that comes next of `reader`. A boundary has 1 to 70 bytes, and none of them is a
    /// carriage return or a line feed (`Boundary`); the buffer needs four bytes more than it has (`Room`). An `Err` hands the
    /// reader back.
    pub fn new(
        alloc: Global,
        reader: BufReader<R, P>,
        boundary: &[u8],
        limits: Limits,
    ) -> Result<Self, (BufReader<R, P>, NewError)>
        ensures over { IfOk result (λ m. (m.body.reader ≡ reader) × (m.body.taken ≡ []) × (m.head ≡ []) × (m.parts ≡ 0)) }
        ensures begun { IfOk result (IsBegun reader boundary.now limits) }
        ensures whole { IfOk result (λ m. IsForm m.stand m) }
        ensures handed_back { IfErr result (λ e. e.0 ≡ reader) }
        ensures boundary { IfErr result (λ e. e.1 ≡ NewError.Boundary → ¬ IsBoundary boundary.now) }
        ensures room { IfErr result (λ e. e.1 ≡ NewError.Room → IsBoundary boundary.now
            × (reader.block.capacity < length boundary.now + 4)) }
        ensures memory { IfErr result (λ e. e.1 ≡ NewError.Memory → IsBoundary boundary.now
            × (length boundary.now + 4 ≤ reader.block.capacity)) }
    {
        if !is_boundary(boundary) {
            return Err((reader, NewError::Boundary));
        }
        let room = boundary.len() + 4;
        if reader.capacity() < room {
            return Err((reader, NewError::Room));
        }
        match codings(alloc, boundary, room) {
            Some((texts, heads)) => Ok(Multipart {
                body: BodyReader::new(reader, texts),
                other: heads,
                head: Vec::new(alloc),
                stand: Stand::Preamble,
                parts: 0,
                limits,
            }),
            None => Err((reader, NewError::Memory)),
        }
    }

    /// The buffered reader.
    pub fn get_ref(&self) -> &BufReader<R, P>
        ensures reader { result.now ≡ self.now.body.reader }
        ensures body { IsBodyReader (codes self.now.body.coding) self.now.body }
        ensures whole { IsForm self.now.stand self.now }
    {
        self.body.get_ref()
    }

    /// The buffered reader where it stands. Once [`next_part`](Multipart::next_part) answered `false` that is behind the last two
    /// hyphens, and the rest of their line and the epilogue follow; else a part is torn.
    pub fn into_inner_torn(self) -> BufReader<R, P>
        ensures { result ≡ self.body.reader }
    {
        let Multipart {
            body,
            other: _,
            head: _,
            stand: _,
            parts: _,
            limits: _,
        } = self;
        body.into_inner_torn()
    }

    /// Where the reader stands.
    pub fn stand(&self) -> Stand
        ensures { result ≡ self.now.stand }
    {
        self.stand
    }

    /// The head of the part, of no more than `limits.head` bytes: what stands behind its boundary, up to the empty line. It
    /// begins with the end of the boundary's line, and [`field`](crate::field) finds a field in it. Behind an `Err` it may be the
    /// beginning of one.
    pub fn head(&self) -> &[u8]
        ensures { result.now ≡ self.now.head }
    {
        self.head.as_slice()
    }

    /// The text of the part that is buffered, as far as the last call found, and wasn't consumed; none where
    /// the reader stands in no part.
    pub fn piece(&self) -> &[u8]
        ensures text { self.now.stand ≡ Stand.Part → result.now ≡ take self.now.body.known self.now.body.reader.block.bytes }
        ensures none { self.now.stand ≢ Stand.Part → result.now ≡ [] }
    {
        match self.stand {
            Stand::Part => self.body.piece(),
            _ => &[],
        }
    }

    // Whether there may be no further part.
    fn is_full(&self) -> bool
        ensures { result ≡ is_full self.now }
    {
        self.limits.parts <= self.parts
    }

    // How many bytes a head may have.
    fn head_most(&self) -> usize
        ensures { result ≡ head_most self.now }
    {
        if self.is_full() { 0 } else { self.limits.head }
    }
}

// The codings of texts and of heads.
fn codings(alloc: Global, boundary: &[u8], room: usize) -> Option<(JustOrUntil, JustOrUntil)>
    requires some { 0 < length boundary.now }
    requires room { room ≡ length boundary.now + 4 }
    ensures texts { IfSome result (λ both. both.0.just.items ≡ 45 ∷ 45 ∷ boundary.now) }
    ensures codings { IfSome result (λ both. AreCodings false both.0 both.1) }
    ensures room { IfSome result (λ both. both.0.room ≡ room) }
{
    let texts = coding(alloc, b"--", b"\r\n--", boundary, room)?;
    let heads = coding(alloc, b"--", b"\r\n\r\n", b"", room)?;
    Some((texts, heads))
}

// A coding of what is just `just` and then `tail`, or else ends at `end` and then that.
fn coding(alloc: Global, just: &[u8], end: &[u8], tail: &[u8], room: usize) -> Option<JustOrUntil>
    requires some { 0 < length just.now }
    requires shorter { length just.now < length end.now }
    requires fits { length end.now + length tail.now ≤ room }
    ensures { IfSome result (λ c. (c.just.items ≡ just.now ++ tail.now) × (c.until.delimiter ≡ end.now ++ tail.now)
        × (c.room ≡ room)) }
{
    let just = joined(alloc, just, tail)?;
    let delimiter = joined(alloc, end, tail)?;
    Some(JustOrUntil {
        just,
        until: Until::new(delimiter),
        room,
    })
}

// Both, one after the other.
fn joined(alloc: Global, front: &[u8], tail: &[u8]) -> Option<Vec<u8>>
    ensures { IfSome result (λ v. vec_items v ≡ front.now ++ tail.now) }
{
    let mut both = Vec::new(alloc);
    if both.extend_from_slice(front).is_err() || both.extend_from_slice(tail).is_err() {
        return None;
    }
    Some(both)
}

impl<R: TellRead, P: ReaderPolicy> Multipart<R, P> {
    /// Hands out text of the part, at least a byte unless it ended or the slice is empty; and none where the reader stands in no
    /// part. Behind the text a slice smaller than the buffer stays as it was. After a `Truncated` or an `Io` a further call goes
    /// on.
    pub fn read(&mut self, out: &mut [u8]) -> Result<usize, BodyError<()>>
        ensures handed { IfOk result (λ n. (n ≤ length out.new)
            × (self.old.stand ≡ Stand.Part
            → self.new.body.calls.reads.given ≡ self.old.body.calls.reads.given ++ take n out.new)) }
        ensures none { self.old.stand ≢ Stand.Part → (result ≡ Ok 0) × (self.new ≡ self.old) }
        ensures within { self.new ≡ record self.old { body = self.new.body } }
        ensures rest { LeavesRest self.old.body.reader.block.capacity out.old result out.new }
        ensures reads { self.old.stand ≡ Stand.Part → ReadsPayload R.remaining P.rules (codes self.old.body.coding) self.old.body
            out.new result self.new.body }
    {
        if !matches!(self.stand, Stand::Part) {
            return Ok(0);
        }
        self.body.read_payload(out)
    }

    /// How many bytes of the part's text are buffered, which [`piece`](Multipart::piece) lends: none only where it ended, or the
    /// reader stands in no part. Where some are known nobody is asked.
    pub fn fill(&mut self) -> Result<usize, BodyError<()>>
        ensures count { self.old.stand ≡ Stand.Part → IfOk result (λ n. n ≡ self.new.body.known) }
        ensures none { self.old.stand ≢ Stand.Part → (result ≡ Ok 0) × (self.new ≡ self.old) }
        ensures within { self.new ≡ record self.old { body = self.new.body } }
        ensures fills { self.old.stand ≡ Stand.Part → FillsPayload R.remaining P.rules (codes self.old.body.coding) self.old.body
            result self.new.body }
    {
        if !matches!(self.stand, Stand::Part) {
            return Ok(0);
        }
        self.body.fill_payload()
    }

    /// Proceeds on behind the first `count` bytes that [`piece`](Multipart::piece) lends, or behind all.
    pub fn consume(&mut self, count: usize)
        ensures taken { self.old.stand ≡ Stand.Part → self.new.body.taken
            ≡ self.old.body.taken ++ take (min count self.old.body.known) self.old.body.reader.block.bytes }
        ensures none { self.old.stand ≢ Stand.Part → self.new ≡ self.old }
        ensures within { self.new ≡ record self.old { body = self.new.body } }
        ensures consumes { self.old.stand ≡ Stand.Part → ConsumesPayload R.remaining P.rules (codes self.old.body.coding) count
            self.old.body self.new.body }
    {
        if matches!(self.stand, Stand::Part) {
            self.body.consume_payload(count);
        }
    }

    /// Goes on to the next part, behind what is left of this one; `false` where there is none. An `Err` loses no byte, and a
    /// further call goes on where this one stopped. Memory is refused only where there was no room for more of a head.
    ///
    /// The stream is asked only where what is buffered settles nothing: for no byte behind the empty line of a head, nor behind
    /// the two hyphens of the last boundary, nor behind the first byte that can follow no boundary. Where there are
    /// `limits.parts` parts already it is asked only while what stands behind the boundary is nothing, or a hyphen.
    pub fn next_part(&mut self) -> Result<bool, PartError>
        ensures stands { IfOk result (λ more. MatchBool more
            ((self.new.stand ≡ Stand.Part) × (self.new.parts ≡ self.old.parts + 1))
            ((self.new.stand ≡ Stand.Ended) × (self.new.parts ≡ self.old.parts))) }
        ensures kept { OnErr result (self.new.parts ≡ self.old.parts) }
        ensures next { NextPart R.remaining P.rules self.old.stand self.old result self.new }
    {
        match self.stand {
            Stand::Ended => Ok(false),
            Stand::Head => self.go_on(),
            Stand::Preamble => self.pass_text(),
            Stand::Part => self.pass_text(),
        }
    }

    // Goes on behind the boundary that ends this text.
    fn pass_text(&mut self) -> Result<bool, PartError>
        requires text { (self.old.stand ≡ Stand.Preamble) ⊎ (self.old.stand ≡ Stand.Part) }
        ensures { PassesText R.remaining P.rules self.old result self.new }
    {
        let full = self.is_full();
        self.body.drain()?;
        turn_last(&mut self.other, full);
        self.body.begin_next(&mut self.other);
        self.head.clear();
        self.stand = Stand::Head;
        self.go_on()
    }

    // Goes on behind a boundary: into the part behind its head, or to the end.
    fn go_on(&mut self) -> Result<bool, PartError>
        requires head { self.old.stand ≡ Stand.Head }
        ensures { GoesOnFromHead R.remaining P.rules self.old result self.new }
    {
        match self.collect_head() {
            Ok(()) => Ok(self.begin_part()),
            Err(e) => Err(PartError::of_head(e, self.is_full())),
        }
    }

    // Collects the head while it may go on so: none, where there may be no further part.
    fn collect_head(&mut self) -> Result<(), CollectError<()>>
        requires head { self.old.stand ≡ Stand.Head }
        ensures collects { CollectsHead R.remaining P.rules self.old result self.new }
        ensures whole { OnOk result (TookWholeBody (codes self.new.body.coding) self.new.body) }
    {
        let most = self.head_most();
        let may_be = PartHead { texts: &self.other };
        self.body.collect_while(&may_be, most, &mut self.head)
    }

    // Whether a whole head is just two hyphens, as each is where there may be no further part.
    fn is_last(&self) -> bool
        requires head { self.now.stand ≡ Stand.Head }
        requires whole { TookWholeBody (codes self.now.body.coding) self.now.body }
        ensures last { result ≡ true → self.now.body.taken ≡ hyphens }
        ensures other { result ≡ false → (self.now.body.taken ≢ hyphens) × (self.now.parts < self.now.limits.parts)
            × (self.now.limits.parts < 2 ^ 64) }
    {
        self.parts >= self.limits.parts || self.body.taken() == 2
    }

    // Goes on into the part behind a whole head, if there is one.
    fn begin_part(&mut self) -> bool
        requires head { self.old.stand ≡ Stand.Head }
        requires whole { TookWholeBody (codes self.old.body.coding) self.old.body }
        ensures { EndsHead self.old result self.new }
    {
        if self.is_last() {
            self.stand = Stand::Ended;
            return false;
        }
        // Says that it has room for a look.
        let _ = self.body.get_ref();
        self.body.begin_next(&mut self.other);
        self.parts += 1;
        self.stand = Stand::Part;
        true
    }
}

// Makes the coding of heads one in which two hyphens alone are a head, where there may be no further part: no other has the
// first byte of its delimiter.
fn turn_last(heads: &mut JustOrUntil, full: bool)
    requires shorter { length heads.old.just.items < 3 }
    requires fits { 3 ≤ heads.old.room }
    ensures { TurnsLast full heads.old heads.new }
{
    if full {
        heads.until = Until {
            delimiter: Finder::new(b"---"),
        };
    }
}
