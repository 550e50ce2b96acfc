//! Iterators over the pieces of a stream that end in a byte, and over its lines.
ghost use Rattle.std.specs.Prelude.{◌≡◌, ◌<◌, [], string_bytes, vec_capacity, vec_items, IsUtf8, MatchResult, OnSome};
ghost use Rattle.std.specs.Iterator.{at_most};
ghost use Rattle.std.specs.Io.BufRead.{ends_with_byte, strip_last};
ghost use Rattle.std.specs.IoError.{error_kind};
ghost use Rattle.std.specs.declared.io.ErrorKind.TheVariants.{InvalidData};
ghost use Rattle.buffer_redux.specs.Pieces.{goes_on, without_end, Gives, GivesLine};

use crate::buf_reader::BufReader;
use crate::policy::{ReaderPolicy, StdPolicy};
use redux_buffer::tell::TellRead;
use std::alloc::Global;
use std::io::ErrorKind;
use std::marker::Model;
use std::{io, mem};

/// The pieces of a reader's bytes that end in a byte, without it; [`split`](BufReader::split) makes it.
///
/// Where a fault comes into a piece, what came of it stays here, and the next call goes on with it. It ends after 2^64 - 1
/// calls, the last of which answers `TimedOut`.
#[derive(Drop)]
pub struct Split<R: TellRead, P = StdPolicy> {
    reader: BufReader<R, P>,
    alloc: Global,
    byte: u8,
    begun: Vec<u8>,
    left: u64,
}

impl<R: TellRead, P> Model for Split<R, P> {
    ghost use Rattle.std.specs.Prelude.{vec_capacity};
    ghost use Rattle.buffer_redux.specs.Pieces.{Splitting};

    ghost Value = { Splitting R P };

    ghost view = { λ s. record {
      reader = s.reader;
      byte = s.byte;
      begun = s.begun.items;
      room = vec_capacity s.begun;
      left = s.left;
    } };
}

/// The lines of a reader as text, without the line feed at their ends, nor a carriage return before it;
/// [`lines`](BufReader::lines) makes it.
///
/// A fault is as in a [`Split`]. A line that is no UTF-8 is gone, and `InvalidData` comes in its place.
#[derive(Drop)]
pub struct Lines<R: TellRead, P = StdPolicy> {
    lines: Split<R, P>,
}

impl<R: TellRead, P> Model for Lines<R, P> {
    ghost use Rattle.buffer_redux.specs.Pieces.{Splitting};

    ghost Value = { Splitting R P };

    ghost view = { λ l. l.lines };
}

impl<R: TellRead, P: ReaderPolicy> BufReader<R, P> {
    /// The pieces of what is left that end in `byte`, each in a vector without it, by [`read_until`](BufReader::read_until).
    pub fn split(self, alloc: Global, byte: u8) -> Split<R, P>
        ensures { result ≡ goes_on byte self [] 0 }
    {
        Split::from_parts(alloc, self, byte, Vec::new(alloc))
    }

    /// The lines of what is left, each in a string without its end.
    pub fn lines(self, alloc: Global) -> Lines<R, P>
        ensures { result ≡ goes_on 10 self [] 0 }
    {
        Lines {
            lines: self.split(alloc, b'\n'),
        }
    }
}

impl<R: TellRead, P> Split<R, P> {
    /// The pieces of what is left, of which the first begins with `begun`: the inverse of [`into_parts`](Split::into_parts).
    pub fn from_parts(alloc: Global, reader: BufReader<R, P>, byte: u8, begun: Vec<u8>) -> Self
        ensures { result ≡ goes_on byte reader (vec_items begun) (vec_capacity begun) }
    {
        Split {
            reader,
            alloc,
            byte,
            begun,
            left: u64::MAX,
        }
    }
}

impl<R: TellRead, P: ReaderPolicy> Split<R, P> {
    /// The reader, and what came of the next piece before a fault. Those bytes were handed out by the reader, and are nowhere
    /// else: [`from_parts`](Split::from_parts) goes on with the piece, and so does
    /// [`read_until`](BufReader::read_until), which appends the rest to them.
    pub fn into_parts(self) -> (BufReader<R, P>, Vec<u8>)
        ensures reader { result.0 ≡ self.reader }
        ensures begun { (vec_items result.1 ≡ self.begun) × (vec_capacity result.1 ≡ self.room) }
    {
        let Split {
            reader,
            alloc: _,
            byte: _,
            begun,
            left: _,
        } = self;
        (reader, begun)
    }

    // The next piece, with its byte.
    #[inline(always)]
    fn next_whole(&mut self) -> Option<io::Result<Vec<u8>>>
        ensures gives { Gives R.remaining P.rules (λ v piece. vec_items v ≡ piece) self.old result self.new }
        ensures fewer { OnSome result (self.new.left < self.old.left) }
    {
        if self.left == 0 {
            return None;
        }
        self.left -= 1;
        if self.left == 0 {
            return Some(Err(io::Error::from(ErrorKind::TimedOut)));
        }
        if let Err(e) = self.reader.read_until(self.byte, &mut self.begun) {
            return Some(Err(e));
        }
        if self.begun.is_empty() {
            return None;
        }
        let next = Vec::new(self.alloc);
        Some(Ok(mem::replace(&mut self.begun, next)))
    }
}

impl<R: TellRead + Drop, P: ReaderPolicy + Drop> Iterator for Split<R, P> {
    type Item = io::Result<Vec<u8>>;

    ghost next_gives = { λ s. Gives R.remaining P.rules (λ v piece. vec_items v ≡ strip_last s.byte piece) s };

    ghost remaining = { λ s. at_most s.left };

    #[inline(always)]
    fn next(&mut self) -> Option<io::Result<Vec<u8>>> {
        match self.next_whole()? {
            Ok(mut piece) => {
                let _ended = drop_last(self.byte, &mut piece);
                Some(Ok(piece))
            }
            Err(e) => Some(Err(e)),
        }
    }
}

impl<R: TellRead, P> Lines<R, P> {
    /// The lines of what is left, of which the first begins with `begun`: the inverse of [`into_parts`](Lines::into_parts).
    pub fn from_parts(alloc: Global, reader: BufReader<R, P>, begun: Vec<u8>) -> Self
        ensures { result ≡ goes_on 10 reader (vec_items begun) (vec_capacity begun) }
    {
        Lines {
            lines: Split::from_parts(alloc, reader, b'\n', begun),
        }
    }
}

impl<R: TellRead, P: ReaderPolicy> Lines<R, P> {
    /// The reader, and what came of the next line before a fault. Those bytes were handed out by the reader, and are nowhere
    /// else: [`from_parts`](Lines::from_parts) goes on with the line. They may end within a character, so what the reader has
    /// next may be no text of its own, and [`read_line`](BufReader::read_line) would answer `InvalidData` each time.
    pub fn into_parts(self) -> (BufReader<R, P>, Vec<u8>)
        ensures reader { result.0 ≡ self.reader }
        ensures begun { (vec_items result.1 ≡ self.begun) × (vec_capacity result.1 ≡ self.room) }
    {
        self.lines.into_parts()
    }
}

impl<R: TellRead + Drop, P: ReaderPolicy + Drop> Iterator for Lines<R, P> {
    type Item = io::Result<String>;

    ghost next_gives = { GivesLine R.remaining P.rules };

    ghost remaining = { λ s. at_most s.left };

    #[inline(always)]
    fn next(&mut self) -> Option<io::Result<String>> {
        match self.lines.next_whole()? {
            Ok(line) => Some(text_of(line)),
            Err(e) => Some(Err(e)),
        }
    }
}

// A line as text, without its end.
#[inline(always)]
fn text_of(mut line: Vec<u8>) -> io::Result<String>
    ensures { MatchResult result (λ text. string_bytes text ≡ without_end line.items)
        (λ e. (¬ IsUtf8 (without_end line.items)) × (error_kind e ≡ InvalidData)) }
{
    if drop_last(b'\n', &mut line) {
        let _ended = drop_last(b'\r', &mut line);
    }
    match String::from_utf8(line) {
        Ok(text) => Ok(text),
        Err(_) => Err(io::Error::from(ErrorKind::InvalidData)),
    }
}

// Drops the last byte where it is this one, and says whether it was.
#[inline(always)]
fn drop_last(byte: u8, piece: &mut Vec<u8>) -> bool
    ensures dropped { result ≡ ends_with_byte byte piece.old.items }
    ensures items { piece.new.items ≡ strip_last byte piece.old.items }
{
    let n = piece.len();
    if n == 0 {
        return false;
    }
    if piece[n - 1] != byte {
        return false;
    }
    piece.truncate(n - 1);
    true
}
