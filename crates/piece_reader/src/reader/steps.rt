//! The steps of which the calls of a reader of pieces are made.
ghost use Rattle.std.specs.Prelude.{◌≡◌, ◌<◌, ◌≤◌, [], length, take, IfOk, IfSome};
ghost use Rattle.buffer_redux.specs.Unbuffer.{HandsOutInOrder};
ghost use Rattle.piece_reader.specs.Decoding.{IsLent};
ghost use Rattle.piece_reader.specs.Grammar.{IsOpen, IsOpenBelow};
ghost use Rattle.piece_reader.specs.Looking.{LookSays, LooksForMore};
ghost use Rattle.piece_reader.specs.NextPiece.{NextPiece, PiecesWent, load_answer};
ghost use Rattle.piece_reader.specs.PieceReader.{IsPieceReader, left_of, rest};
ghost use Rattle.piece_reader.specs.Steps.{AsksFor, Takes, TakesEnd};

use crate::decoder::{Decoder, End, Found, Span};
use crate::error::NextError;
use crate::reader::PieceReader;
use buffer_redux::tell::{Tell, TellRead};
use std::io;
use std::io::BufRead;

impl<R: Tell, D: Decoder> PieceReader<R, D> {
    // Hands the next piece out where it is buffered whole. The look begins where the last one ended.
    #[inline(always)]
    pub(super) fn take(&mut self) -> Found<D::Wrong>
        ensures takes { Takes (D.grammar self.old.decoder) self.old result self.new }
        ensures looks { LookSays D.grammar D.looks self.old.decoder (rest self.old) self.old.seen result }
        ensures before { IsPieceReader (D.grammar self.old.decoder) self.old }
        ensures whole { IsPieceReader (D.grammar self.old.decoder) self.new }
    {
        let mut note = self.note;
        let left = self.rest();
        let have = left.len();
        let found = self.decoder.decode(left, self.seen, &mut note);
        match &found {
            Found::Piece(_, used) => {
                self.handed += *used;
                self.seen = 0;
                self.note = self.decoder.no_note();
            }
            Found::More(_) => {
                self.seen = have;
                self.note = note;
            }
            Found::Wrong(_) => {}
        }
        found
    }

    // Hands out what is left as the last piece, or says why it is none, where it is something.
    pub(super) fn take_end(&mut self) -> Result<Option<Span>, NextError<D::Wrong>>
        requires handed { self.old.handed ≡ 0 }
        requires open { IsOpen (D.grammar self.old.decoder) (rest self.old) }
        ensures takes { TakesEnd (D.grammar self.old.decoder) self.old result self.new }
        ensures whole { IsPieceReader (D.grammar self.old.decoder) self.new }
    {
        let len = self.reader.buf_len();
        if len == 0 {
            self.ended = false;
            return Ok(None);
        }
        match self.decoder.at_end(self.reader.buffer()) {
            End::Last(span) => {
                self.handed = len;
                self.seen = 0;
                self.note = self.decoder.no_note();
                self.ended = true;
                Ok(Some(span))
            }
            End::Wrong(e) => Err(NextError::Wrong(e)),
        }
    }
}

impl<R: TellRead, D: Decoder> PieceReader<R, D> {
    // Goes on in `load`. The kit's compiler clears the answer of a call where the function that makes the call begins; of a
    // call made in here, which is inlined, that is behind the look at what is buffered.
    #[inline(always)]
    pub(super) fn load_apart(&mut self, need: usize) -> Result<Option<Span>, NextError<D::Wrong>>
        requires few { length (rest self.old) < need }
        requires most { need ≤ (D.grammar self.old.decoder).most }
        requires lacks { IsOpenBelow (D.grammar self.old.decoder) need (rest self.old) }
        requires looked { self.old.seen ≡ length (rest self.old) }
        ensures looked { LooksForMore (LookSays D.grammar D.looks) self.old need self.new }
        ensures next { NextPiece R.remaining (D.grammar self.old.decoder) self.old
            (load_answer result self.new) self.new }
        ensures lends { IfOk result (λ found. IfSome found
            (IsLent (D.grammar self.new.decoder) self.new.handed self.new.reader.block.bytes)) }
        ensures front { IfOk result (λ found. IfSome found (λ _.
            HandsOutInOrder (left_of self.old) (take self.new.handed self.new.reader.block.bytes) (left_of self.new))) }
    {
        self.load(need)
    }

    // Goes on in `step_on`, as a function of its own, and answers by the parts: a whole answer is copied whole.
    #[inline(never)]
    pub(super) fn load(&mut self, need: usize) -> Result<Option<Span>, NextError<D::Wrong>>
        requires few { length (rest self.old) < need }
        requires most { need ≤ (D.grammar self.old.decoder).most }
        requires lacks { IsOpenBelow (D.grammar self.old.decoder) need (rest self.old) }
        requires looked { self.old.seen ≡ length (rest self.old) }
        ensures looked { LooksForMore (LookSays D.grammar D.looks) self.old need self.new }
        ensures next { NextPiece R.remaining (D.grammar self.old.decoder) self.old
            (load_answer result self.new) self.new }
        ensures lends { IfOk result (λ found. IfSome found
            (IsLent (D.grammar self.new.decoder) self.new.handed self.new.reader.block.bytes)) }
        ensures front { IfOk result (λ found. IfSome found (λ _.
            HandsOutInOrder (left_of self.old) (take self.new.handed self.new.reader.block.bytes) (left_of self.new))) }
    {
        match self.step_on(need) {
            Ok(found) => Ok(found),
            Err(e) => Err(e),
        }
    }

    // Reads until so many bytes are buffered, and returns whether they are: they aren't where the stream ended.
    pub(super) fn read_to(&mut self, need: usize) -> io::Result<bool>
        requires handed { self.old.handed ≡ 0 }
        requires few { length (rest self.old) < need }
        requires most { need ≤ (D.grammar self.old.decoder).most }
        ensures { AsksFor R.remaining (D.grammar self.old.decoder) need self.old result self.new }
    {
        if self.ended {
            return Ok(false);
        }
        self.reader.policy_mut().set_min(need);
        Ok(self.reader.fill_buf()?.len() >= need)
    }

    // Drops what was handed out.
    pub(super) fn drop_handed(&mut self)
        ensures went { PiecesWent R.remaining (D.grammar self.old.decoder).most self.old [] self.new }
        ensures rest { rest self.new ≡ rest self.old }
        ensures handed { self.new.handed ≡ 0 }
        ensures seen { self.new.seen ≡ self.old.seen }
        ensures ended { self.new.ended ≡ self.old.ended }
        ensures told { self.new.reader.log ≡ self.old.reader.log }
        ensures whole { IsPieceReader (D.grammar self.old.decoder) self.new }
    {
        self.reader.consume(self.handed);
        self.handed = 0;
    }
}
