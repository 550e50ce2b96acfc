//! The next piece, and what it says.
ghost use Rattle.std.specs.Prelude.{◌≡◌, ◌-◌, ◌≤◌, [], drop, take, Some, Ok, IfNone, IfOk, IfSome, OnErr};
ghost use Rattle.buffer_redux.specs.Unbuffer.{HandsOutInOrder};
ghost use Rattle.piece_reader.specs.Decoding.{IsLent};
ghost use Rattle.piece_reader.specs.Grammar.{Begins};
ghost use Rattle.piece_reader.specs.Items.{IsWhole, NextItem};
ghost use Rattle.piece_reader.specs.Looking.{LookSays, LooksFromLast, LooksAtRest};
ghost use Rattle.piece_reader.specs.NextPiece.{StaysLeft};
ghost use Rattle.piece_reader.specs.PieceReader.{left_of, rest};

use crate::decoder::{Found, Span};
use crate::error::NextError;
use crate::items::Items;
use crate::reader::PieceReader;
use buffer_redux::tell::TellRead;

impl<R: TellRead, D: Items> PieceReader<R, D> {
    /// Goes on to the next piece as [`step`](PieceReader::step) does, and returns what the piece says, and where its payload is.
    #[inline(always)]
    pub fn step_item(&mut self) -> Result<Option<(D::Item, Span)>, NextError<D::Wrong>>
        ensures lends { IfOk result (λ found. IfSome found (λ said.
            IsLent (D.grammar self.new.decoder) self.new.handed self.new.reader.block.bytes said.1)) }
        ensures kept { OnErr result (HandsOutInOrder (left_of self.old) [] (left_of self.new)) }
        ensures looked { LooksFromLast (LookSays D.grammar D.looks) self.old self.new }
        ensures next { NextItem R.remaining (D.grammar self.old.decoder) (D.item_of self.old.decoder) self.old
            result self.new }
    {
        let at = self.handed;
        match self.take() {
            Found::Piece(span, _) => {
                let item = self.said(at);
                Ok(Some((
                    item,
                    Span {
                        from: at + span.from,
                        len: span.len,
                    },
                )))
            }
            Found::More(need) => match self.load_apart(need) {
                Ok(Some(span)) => {
                    let item = self.said(0);
                    Ok(Some((item, span)))
                }
                Ok(None) => Ok(None),
                Err(e) => Err(e),
            },
            Found::Wrong(e) => Err(NextError::Wrong(e)),
        }
    }

    /// Goes on to the next piece as [`step_item`](PieceReader::step_item) does where it stands whole in the buffer, and asks the
    /// stream for nothing. `None` where it doesn't, as [`step_buffered`](PieceReader::step_buffered) says.
    #[inline(always)]
    pub fn step_item_buffered(&mut self) -> Option<(D::Item, Span)>
        ensures lends { IfSome result (λ said.
            IsLent (D.grammar self.new.decoder) self.new.handed self.new.reader.block.bytes said.1) }
        ensures looked { LooksAtRest (LookSays D.grammar D.looks) self.old }
        ensures inside { self.new.reader ≡ self.old.reader }
        ensures stays { IfNone result (StaysLeft (D.grammar self.old.decoder) self.old self.new) }
        ensures none { IfNone result (¬ (Begins (D.grammar self.old.decoder) (rest self.old))) }
        ensures next { IfSome result (λ said. NextItem R.remaining (D.grammar self.old.decoder)
            (D.item_of self.old.decoder) self.old (Ok (Some said)) self.new) }
    {
        let at = self.handed;
        match self.take() {
            Found::Piece(span, _) => {
                let item = self.said(at);
                Some((
                    item,
                    Span {
                        from: at + span.from,
                        len: span.len,
                    },
                ))
            }
            Found::More(_) => None,
            Found::Wrong(_) => None,
        }
    }

    // What the bytes from there on say, of those that were handed out.
    #[inline(always)]
    fn said(&self, from: usize) -> D::Item
        requires within { from ≤ self.now.handed }
        requires whole { IsWhole (D.grammar self.now.decoder)
            (take (self.now.handed - from) (drop from self.now.reader.block.bytes)) }
        ensures { result ≡ D.item_of self.now.decoder (take (self.now.handed - from) (drop from self.now.reader.block.bytes)) }
    {
        self.decoder.item(&self.reader.buffer()[from..self.handed])
    }
}
