//! Two protocols in one stream: the first byte of a piece says of which it is.
ghost use Rattle.std.specs.Prelude.{◌≡◌, ◌<◌, ◌==◌, length, slice_index};
ghost use Rattle.codec.specs.FirstByte.{end_as, found_as};
ghost use Rattle.codec.specs.declared.by_first.EitherWrong.TheVariants.{One, Other};

use piece_reader::{Decoder, End, Found, Items};
use std::error::Error;
use std::fmt;

/// Why bytes are no piece of either protocol.
#[derive(Clone, Copy, Debug, PartialEq, Eq, Drop)]
pub enum EitherWrong<V, W> {
    /// The bytes begin with the byte, and are no piece of the one.
    One(V),
    /// The bytes begin with another byte, and are no piece of the other.
    Other(W),
}

impl<V: fmt::Display, W: fmt::Display> fmt::Display for EitherWrong<V, W> {
    fn fmt<T: fmt::Write>(&self, f: &mut fmt::Formatter<T>) -> fmt::Result {
        match self {
            EitherWrong::One(why) => fmt::Display::fmt(why, f),
            EitherWrong::Other(why) => fmt::Display::fmt(why, f),
        }
    }
}

impl<V: fmt::Debug + fmt::Display + Drop, W: fmt::Debug + fmt::Display + Drop> Error
    for EitherWrong<V, W> {}

/// The pieces of `one` that begin with `byte`, and those of `other` that don't. Either may be such a choice again.
///
/// ```
/// let mixed = ByFirst {
///     byte: b'$',
///     one: ByHeader(ByScan(ByTextHeader(BulkStrings { max: 9 }))),
///     other: Delimited { end: b'\n', max: 9 },
/// };
/// let stream = Told::new(b"one\n$2\r\nhi\r\n".as_slice());
/// let mut reader = PieceReader::new(alloc, stream, mixed)?;
/// assert!(rt; matches!(reader.step_item(), Ok(Some((false, _)))));
/// assert!(rt; matches!(reader.step_item(), Ok(Some((true, _)))));
/// ```
#[derive(Clone, Copy, Debug, Drop)]
pub struct ByFirst<A: Decoder, B: Decoder> {
    pub byte: u8,
    pub one: A,
    pub other: B,
}

impl<A: Decoder, B: Decoder> Decoder for ByFirst<A, B> {
    ghost use Rattle.codec.specs.FirstByte.{either, either_looks, either_notes};
    ghost use Rattle.codec.specs.FirstByteLaws.{either_lawful};

    type Wrong = EitherWrong<A::Wrong, B::Wrong>;

    type Note = (A::Note, B::Note);

    ghost grammar = { λ d. either d.byte (A.grammar d.one) (B.grammar d.other) };

    ghost notes = { λ d. either_notes d.byte (A.notes d.one) (B.notes d.other) };

    ghost looks = { λ d. either_looks d.byte (A.looks d.one) (B.looks d.other) };

    fn most(&self) -> usize {
        self.one.most().max(self.other.most())
    }

    #[inline(always)]
    fn no_note(&self) -> (A::Note, B::Note) {
        (self.one.no_note(), self.other.no_note())
    }

    #[inline(always)]
    fn decode(
        &self,
        bytes: &[u8],
        seen: usize,
        note: &mut (A::Note, B::Note),
    ) -> Found<EitherWrong<A::Wrong, B::Wrong>> {
        if bytes.is_empty() {
            return Found::More(1);
        }
        if begins_with(bytes, self.byte) {
            as_one(self.one.decode(bytes, seen, &mut note.0))
        } else {
            as_other(self.other.decode(bytes, seen, &mut note.1))
        }
    }

    fn at_end(&self, bytes: &[u8]) -> End<EitherWrong<A::Wrong, B::Wrong>> {
        if begins_with(bytes, self.byte) {
            ends_one(self.one.at_end(bytes))
        } else {
            ends_other(self.other.at_end(bytes))
        }
    }

    ghost lawful = { λ d. either_lawful d.byte (A.grammar d.one) (B.grammar d.other) (A.lawful d.one) (B.lawful d.other) };
}

// Whether this is the first byte.
#[inline(always)]
fn begins_with(bytes: &[u8], byte: u8) -> bool
    requires { 0 < length bytes.now }
    ensures { result ≡ (slice_index bytes.now 0 == byte) }
{
    bytes[0] == byte
}

// The answers of the one decoder.
#[inline(always)]
fn as_one<V, W>(found: Found<V>) -> Found<EitherWrong<V, W>>
    ensures { result ≡ found_as (λ e. One e) found }
{
    match found {
        Found::Piece(span, used) => Found::Piece(span, used),
        Found::More(need) => Found::More(need),
        Found::Wrong(e) => Found::Wrong(EitherWrong::One(e)),
    }
}

fn ends_one<V, W>(end: End<V>) -> End<EitherWrong<V, W>>
    ensures { result ≡ end_as (λ e. One e) end }
{
    match end {
        End::Last(span) => End::Last(span),
        End::Wrong(e) => End::Wrong(EitherWrong::One(e)),
    }
}

// The answers of the other.
#[inline(always)]
fn as_other<V, W>(found: Found<W>) -> Found<EitherWrong<V, W>>
    ensures { result ≡ found_as (λ e. Other e) found }
{
    match found {
        Found::Piece(span, used) => Found::Piece(span, used),
        Found::More(need) => Found::More(need),
        Found::Wrong(e) => Found::Wrong(EitherWrong::Other(e)),
    }
}

fn ends_other<V, W>(end: End<W>) -> End<EitherWrong<V, W>>
    ensures { result ≡ end_as (λ e. Other e) end }
{
    match end {
        End::Last(span) => End::Last(span),
        End::Wrong(e) => End::Wrong(EitherWrong::Other(e)),
    }
}

/// A piece says whether it is one of `one`.
impl<A: Decoder, B: Decoder> Items for ByFirst<A, B> {
    ghost use Rattle.std.specs.Prelude.{◌==◌, slice_index};

    type Item = bool;

    ghost item_of = { λ d bytes. slice_index bytes 0 == d.byte };

    #[inline(always)]
    fn item(&self, piece: &[u8]) -> bool {
        begins_with(piece, self.byte)
    }
}
