//! The reader of pieces.
ghost use Rattle.std.specs.Prelude.{◌≡◌, ℕ, ◌+◌, ◌*◌, ◌<◌, ◌≤◌, ◌^◌, List, [], ◌++◌, drop, length, take, Ok, Err, Some, None, ◌↔◌, IfOk, IfErr, IfSome, IsOk, OnErr, true};
ghost use Rattle.std.specs.Borrow.{Lends, sem};
ghost use Rattle.buffer_redux.specs.Block.{Plain};
ghost use Rattle.buffer_redux.specs.Buffered.{with_inner, with_policy};
ghost use Rattle.buffer_redux.specs.GrowError.{FitsWithin};
ghost use Rattle.buffer_redux.specs.MakeError.{growth};
ghost use Rattle.buffer_redux.specs.Unbuffer.{HandsOutInOrder};
ghost use Rattle.piece_reader.specs.contracts.reader.PieceReader.{the_row};
ghost use Rattle.piece_reader.specs.declared.error.NextError.TheVariants.{Wrong};
ghost use Rattle.piece_reader.specs.Decoding.{IsLent, bytes_at};
ghost use Rattle.piece_reader.specs.Grammar.{IsOpenBelow};
ghost use Rattle.piece_reader.specs.Looking.{LookSays, LooksFromLast, LooksAtRest, LooksForMore};
ghost use Rattle.piece_reader.specs.PieceReader.{IsOver, IsPieceReader, IsFresh, Skips, TakenApart, left_of, rest, room_for};
ghost use Rattle.piece_reader.specs.NextPiece.{NextBuffered, NextPiece, buffered_answer, load_answer};

mod asking;
mod saying;
mod steps;

use crate::buffer::{fit_buffer, piece_buffer};
use crate::decoder::{Decoder, Found, Span};
use crate::error::NextError;
use buffer_redux::policy::MinBuffered;
use buffer_redux::tell::{Tell, TellRead};
use buffer_redux::{BufReader, Buffer, DEFAULT_BUF_SIZE, MakeError};
use std::alloc::Global;
use std::io;
use std::marker::Model;

/// A reader of the pieces that a decoder finds.
///
/// It lends each payload out of a plain buffer, in which three pieces fit. The makers take its memory, and no other call
/// takes any. In a buffer of its own it moves no more bytes than it reads; a call that doesn't ask the stream moves none.
///
/// ```
/// let lines = Delimited { end: b'\n', max: 9 };
/// let mut reader = PieceReader::new(alloc, Told::new(b"hi\n".as_slice()), lines)?;
/// let shown = match reader.step()? {
///     Some(span) => reader.lent(span),
///     None => b"".as_slice(),
/// };
/// assert!(rt; shown == b"hi".as_slice());
/// ```
#[derive(Drop)]
pub struct PieceReader<R: Tell, D: Decoder> {
    reader: BufReader<R, MinBuffered>,
    decoder: D,
    // How many of the first bytes that are buffered were handed out, the piece that was lent last among them.
    handed: usize,
    // How many behind them were looked at, and settle nothing.
    seen: usize,
    // What that look left for the next one: no contract sees it.
    note: D::Note,
    // Whether the stream ended, which no call of `next` has told yet.
    ended: bool,
}

impl<R: Tell, D: Decoder> Model for PieceReader<R, D> {
    ghost use Rattle.std.specs.Prelude.{take, drop};
    ghost use Rattle.piece_reader.specs.PieceReader.{ReaderState, IsPieceReader};

    ghost Value = { ReaderState R D };

    ghost view = { λ f. record {
      reader = f.reader;
      decoder = f.decoder;
      handed = f.handed;
      seen = f.seen;
      ended = f.ended;
    } };

    ghost invariant = { λ f. IsPieceReader (D.grammar f.decoder) (record {
      reader = f.reader;
      decoder = f.decoder;
      handed = f.handed;
      seen = f.seen;
      ended = f.ended;
    }) × D.notes f.decoder (take f.seen (drop f.handed f.reader.block.bytes)) f.note };
}

impl<R: Tell, D: Decoder> PieceReader<R, D> {
    /// A reader of the pieces that `decoder` finds, over a buffer of [`DEFAULT_BUF_SIZE`] bytes, or of what three pieces take
    /// where that is more. A refusal hands `inner` and `decoder` back.
    pub fn new(alloc: Global, inner: R, decoder: D) -> Result<Self, MakeError<(R, D)>>
        ensures over { IfOk result (λ f. (f.reader.inner ≡ inner) × (f.reader.block.bytes ≡ []) × (f.decoder ≡ decoder)) }
        ensures made { IfOk result (IsFresh R.log 8192 (D.grammar decoder).most inner decoder) }
        ensures whole { IfOk result (IsPieceReader (D.grammar decoder)) }
        ensures handed_back { IfErr result (λ e. (e.0.0 ≡ inner) × (e.0.1 ≡ decoder)) }
        ensures within { FitsWithin (growth result) (room_for 8192 (D.grammar decoder).most) (2 ^ 62) }
    {
        PieceReader::with_capacity(alloc, DEFAULT_BUF_SIZE, inner, decoder)
    }

    /// The same over a buffer of `capacity` bytes, or of what three pieces take where that is more. A refusal is `TooLarge`
    /// past [`MAX_CAPACITY`](buffer_redux::MAX_CAPACITY), and else `Memory`.
    pub fn with_capacity(
        alloc: Global,
        capacity: usize,
        inner: R,
        decoder: D,
    ) -> Result<Self, MakeError<(R, D)>>
        ensures over { IfOk result (λ f. (f.reader.inner ≡ inner) × (f.reader.block.bytes ≡ []) × (f.decoder ≡ decoder)) }
        ensures made { IfOk result (IsFresh R.log capacity (D.grammar decoder).most inner decoder) }
        ensures whole { IfOk result (IsPieceReader (D.grammar decoder)) }
        ensures handed_back { IfErr result (λ e. (e.0.0 ≡ inner) × (e.0.1 ≡ decoder)) }
        ensures within { FitsWithin (growth result) (room_for capacity (D.grammar decoder).most) (2 ^ 62) }
    {
        match piece_buffer(alloc, capacity, decoder.most()) {
            Ok(buffer) => Ok(PieceReader {
                reader: BufReader::with_buffer(buffer, inner).set_policy(MinBuffered(0)),
                note: decoder.no_note(),
                decoder,
                handed: 0,
                seen: 0,
                ended: false,
            }),
            Err(e) => Err(MakeError((inner, decoder), e)),
        }
    }

    /// The same over a buffer of yours: its bytes are read first, as those that another reader left, and then `inner` is asked.
    ///
    /// A plain buffer in which three pieces fit is kept, and then this takes no memory. For any other there is a new one, of as
    /// many bytes or of what three pieces take where that is more. A refusal hands all three back.
    pub fn with_buffer(
        alloc: Global,
        buffer: Buffer,
        inner: R,
        decoder: D,
    ) -> Result<Self, MakeError<(Buffer, R, D)>>
        ensures over { IfOk result (λ f. (f.reader.inner ≡ inner) × (rest f ≡ buffer.bytes) × (f.decoder ≡ decoder)) }
        ensures made { IfOk result (IsOver R.log (D.grammar decoder).most buffer inner decoder) }
        ensures whole { IfOk result (IsPieceReader (D.grammar decoder)) }
        ensures handed_back { IfErr result (λ e. (e.0.0 ≡ buffer) × (e.0.1 ≡ inner) × (e.0.2 ≡ decoder)) }
        ensures within { FitsWithin (growth result) (room_for buffer.capacity (D.grammar decoder).most) (2 ^ 62) }
        ensures kept { buffer.kind ≡ Plain → 3 * (D.grammar decoder).most ≤ buffer.capacity → IsOk result }
    {
        match fit_buffer(alloc, buffer, decoder.most()) {
            Ok(buffer) => Ok(PieceReader {
                reader: BufReader::with_buffer(buffer, inner).set_policy(MinBuffered(0)),
                note: decoder.no_note(),
                decoder,
                handed: 0,
                seen: 0,
                ended: false,
            }),
            Err(MakeError(buffer, e)) => Err(MakeError((buffer, inner, decoder), e)),
        }
    }

    /// The same reader with another decoder: it goes on behind what was handed out last, and keeps an end that no call told.
    ///
    /// Where three pieces of `decoder` don't fit into the buffer, both are handed back as they were.
    pub fn set_decoder<E: Decoder>(self, decoder: E) -> Result<PieceReader<R, E>, (Self, E)>
        ensures set { IfOk result (λ f. f ≡ record {
          reader = with_policy self.reader (record { 0 = 0 });
          decoder = decoder;
          handed = self.handed;
          seen = 0;
          ended = self.ended;
        }) }
        ensures whole { IfOk result (IsPieceReader (E.grammar decoder)) }
        ensures handed_back { IfErr result (λ e. (e.0 ≡ self) × (e.1 ≡ decoder)) }
        ensures fits { IsOk result ↔ (3 * (E.grammar decoder).most ≤ self.reader.block.capacity) }
    {
        if decoder.most().saturating_mul(3) > self.reader.capacity() {
            return Err((self, decoder));
        }
        let PieceReader {
            reader,
            decoder: _,
            handed,
            seen: _,
            note: _,
            ended,
        } = self;
        Ok(PieceReader {
            reader: reader.set_policy(MinBuffered(0)),
            note: decoder.no_note(),
            decoder,
            handed,
            seen: 0,
            ended,
        })
    }

    /// The inner reader.
    pub fn get_ref(&self) -> &R
        ensures inner { result.now ≡ self.now.reader.inner }
        ensures log { R.log result.now ≡ self.now.reader.log }
    {
        self.reader.get_ref()
    }

    /// The inner reader, for changes. What is read through this is in no piece. Of a stream that is put in its place, the pieces
    /// come behind what is buffered of the old one, and behind an end of that which no call has told.
    pub fn get_mut(&mut self) -> &mut R
        ensures* writes_back { sem 𝓛 (Lends (the_row R.row D.row D.Wrong.row D.Note.row R.Tell D.Decoder) R.row
            self.entry result (λ stream. record self.old { reader = with_inner R.log self.old.reader stream })) }
        ensures inner { result.now ≡ self.old.reader.inner }
        ensures log { R.log result.now ≡ self.old.reader.log }
    {
        self.reader.get_mut()
    }

    /// The inner reader. What is buffered is gone, and so is an end that no call has told; [`rest`](PieceReader::rest) and
    /// [`has_ended`](PieceReader::has_ended) show them before.
    pub fn into_inner(self) -> R
        ensures inner { result ≡ self.reader.inner }
        ensures log { R.log result ≡ self.reader.log }
    {
        self.into_inner_with_buffer().0
    }

    /// The inner reader, and the buffer with the bytes that weren't handed out. Its limit is its capacity, so it doesn't grow
    /// until [`set_limit`](Buffer::set_limit) raises that. A `with_buffer` makes a reader of them again, of this layer or
    /// another.
    ///
    /// The last part is whether the stream ended, which no call has told yet ([`has_ended`](PieceReader::has_ended)): a reader
    /// that is made of the others doesn't know that, and would ask the stream again.
    pub fn into_inner_with_buffer(self) -> (R, Buffer, bool)
        ensures left { (result.0 ≡ self.reader.inner) × (result.1.bytes ≡ rest self) }
        ensures ended { result.2 ≡ self.ended }
        ensures apart { TakenApart R.log self result.0 result.1 }
    {
        let PieceReader {
            reader,
            decoder: _,
            handed,
            seen: _,
            note: _,
            ended,
        } = self;
        let (inner, mut buffer) = reader.into_inner_with_buffer();
        buffer.consume(handed);
        (inner, buffer, ended)
    }

    /// The decoder.
    pub fn decoder(&self) -> &D
        ensures { result.now ≡ self.now.decoder }
    {
        &self.decoder
    }

    /// The buffered bytes that weren't handed out.
    #[inline(always)]
    pub fn rest(&self) -> &[u8]
        ensures value { result.now ≡ rest self.now }
        ensures whole { IsPieceReader (D.grammar self.now.decoder) self.now }
    {
        &self.reader.buffer()[self.handed..]
    }

    /// The payload that the last [`step`](PieceReader::step), or [`step_buffered`](PieceReader::step_buffered), went on to, which
    /// said where it is. A place that an earlier step said is refused where it shows something else.
    #[inline(always)]
    pub fn lent(&self, span: Span) -> &[u8]
        requires { IsLent (D.grammar self.now.decoder) self.now.handed self.now.reader.block.bytes span }
        ensures { result.now ≡ bytes_at span self.now.reader.block.bytes }
    {
        &self.reader.buffer()[span.from..span.from + span.len]
    }

    /// How many of the bytes that are left were looked at and settle nothing. The next look is told so.
    #[inline(always)]
    pub fn looked(&self) -> usize
        ensures value { result ≡ self.now.seen }
        ensures whole { IsPieceReader (D.grammar self.now.decoder) self.now }
    {
        self.seen
    }

    /// Whether the stream ended behind what was handed out or skipped last, which no call has told yet: the next
    /// [`step`](PieceReader::step) tells it, and reads nothing.
    #[inline(always)]
    pub fn has_ended(&self) -> bool
        ensures value { result ≡ self.now.ended }
        ensures whole { IsPieceReader (D.grammar self.now.decoder) self.now }
    {
        self.ended
    }

    /// Drops the first `count` bytes of what is left, whatever they are: the way on behind what begins no piece.
    #[inline(always)]
    pub fn skip(&mut self, count: usize)
        requires within { count ≤ length (rest self.old) }
        ensures left { rest self.new ≡ drop count (rest self.old) }
        ensures skips { Skips (D.grammar self.old.decoder) self.old count self.new }
    {
        if count > 0 {
            self.handed += count;
            self.seen = 0;
            self.note = self.decoder.no_note();
        }
    }
}

impl<R: TellRead, D: Decoder> PieceReader<R, D> {
    /// Goes on to the next piece, and returns where its payload is: [`lent`](PieceReader::lent) shows it until the next call.
    /// `None` where the stream ended behind the last piece.
    ///
    /// The stream is read only where what is buffered settles nothing, and each end of it is told once: by the call after the
    /// one that handed out a last piece, which reads nothing then. A call after a `None` asks the stream again.
    ///
    /// An `Err` says why there is no piece, and leaves what came of it: the next call goes on from there. So it is called again
    /// after an interrupted read, which is an `Io` too.
    #[inline(always)]
    pub fn step(&mut self) -> Result<Option<Span>, NextError<D::Wrong>>
        ensures lends { IfOk result (λ found. IfSome found
            (IsLent (D.grammar self.new.decoder) self.new.handed self.new.reader.block.bytes)) }
        ensures ready { (piece payload more : List ℕ) → (D.grammar self.old.decoder).piece piece payload
            → rest self.old ≡ piece ++ more → load_answer result self.new ≡ Ok (Some payload) }
        ensures wrong { (e : D.Wrong) → (D.grammar self.old.decoder).wrong (rest self.old) e
            → load_answer result self.new ≡ Err (NextError.Wrong e) }
        ensures ended { self.old.ended ≡ true → load_answer result self.new ≡ Ok None }
        ensures kept { OnErr result (HandsOutInOrder (left_of self.old) [] (left_of self.new)) }
        ensures looked { LooksFromLast (LookSays D.grammar D.looks) self.old self.new }
        ensures next { NextPiece R.remaining (D.grammar self.old.decoder) self.old (load_answer result self.new) self.new }
    {
        let at = self.handed;
        match self.take() {
            Found::Piece(span, _) => Ok(Some(Span {
                from: at + span.from,
                len: span.len,
            })),
            Found::More(need) => self.load_apart(need),
            Found::Wrong(e) => Err(NextError::Wrong(e)),
        }
    }

    /// Goes on to the next piece as [`step`](PieceReader::step) does where it stands whole in the buffer, and asks the stream for
    /// nothing. `None` where it doesn't: `step` says then why, or asks for more. The look begins where
    /// the last one ended.
    #[inline(always)]
    pub fn step_buffered(&mut self) -> Option<Span>
        ensures lends { IfSome result (IsLent (D.grammar self.new.decoder) self.new.handed self.new.reader.block.bytes) }
        ensures looked { LooksAtRest (LookSays D.grammar D.looks) self.old }
        ensures next { NextBuffered R.remaining (D.grammar self.old.decoder) self.old
            (buffered_answer result self.new) self.new }
    {
        let at = self.handed;
        match self.take() {
            Found::Piece(span, _) => Some(Span {
                from: at + span.from,
                len: span.len,
            }),
            Found::More(_) => None,
            Found::Wrong(_) => None,
        }
    }

    /// Goes on to the next piece as [`step`](PieceReader::step) does where it is known that what is left settles nothing before
    /// there are `need` bytes: it isn't looked at again before more came. Who called
    /// [`step_buffered`](PieceReader::step_buffered), and knows the pieces, goes on by this.
    #[inline(always)]
    pub fn step_on(&mut self, need: usize) -> Result<Option<Span>, NextError<D::Wrong>>
        requires few { length (rest self.old) < need }
        requires most { need ≤ (D.grammar self.old.decoder).most }
        requires lacks { IsOpenBelow (D.grammar self.old.decoder) need (rest self.old) }
        requires looked { self.old.seen ≡ length (rest self.old) }
        ensures lends { IfOk result (λ found. IfSome found
            (IsLent (D.grammar self.new.decoder) self.new.handed self.new.reader.block.bytes)) }
        ensures front { IfOk result (λ found. IfSome found (λ _.
            HandsOutInOrder (left_of self.old) (take self.new.handed self.new.reader.block.bytes) (left_of self.new))) }
        ensures looked { LooksForMore (LookSays D.grammar D.looks) self.old need self.new }
        ensures next { NextPiece R.remaining (D.grammar self.old.decoder) self.old (load_answer result self.new) self.new }
    {
        self.drop_handed();
        let mut need = need;
        'turns: loop {
            match self.read_to(need) {
                Ok(true) => {}
                Ok(false) => return self.take_end(),
                Err(e) => return Err(NextError::Io(e)),
            }
            match self.take() {
                Found::Piece(span, _) => return Ok(Some(span)),
                Found::More(more) => {
                    need = more;
                }
                Found::Wrong(e) => return Err(NextError::Wrong(e)),
            }
        }
    }
}
