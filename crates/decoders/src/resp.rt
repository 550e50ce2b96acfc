//! RESP, the protocol of Redis.
ghost use Rattle.std.specs.Prelude.{◌≡◌, ◌∷◌, ◌+◌, ◌^◌, ◌<◌, ◌≤◌, length};
ghost use Rattle.codec.specs.Decoding.{bytes_at};
ghost use Rattle.codec.specs.declared.number.Number.TheVariants as Number;
ghost use Rattle.decoders.specs.Resp.{behind_kind, count_in, counted, ends_here, is_minus_one, resp_item};

use crate::nullable::{NullableStrings, StringState};
use codec::{
    ByFirst, ByHeader, ByScan, Decoder, Delimited, EitherWrong, End, Ended, Found, HeaderError,
    Items, Number, ScanNote, Span, TooLong, Trimmed, Unended,
};

/// The pieces of RESP 2, of requests as of replies: bulk strings of at most `max` bytes, and lines of as many, which a line feed
/// ends, or CR and LF; the first byte and the CR count. A payload is what stands behind the first byte, or in a bulk string; of a
/// command in one line it is all.
///
/// A line that the stream ends in is no piece, so a command that was cut off is none. An array is its header alone: as many
/// pieces as it says come behind it.
///
/// ```
/// let stream = Told::new(b"*2\r\n$4\r\nECHO\r\n$-1\r\n".as_slice());
/// let mut reader = PieceReader::new(alloc, stream, Resp { max: 100 })?;
/// assert!(rt; matches!(reader.step_item(), Ok(Some((RespItem::Array(Some(2)), _)))));
/// let is_echo = match reader.step_item()? {
///     Some((item, span)) => item == RespItem::Bulk && reader.lent(span) == b"ECHO".as_slice(),
///     None => false,
/// };
/// assert!(rt; is_echo);
/// assert!(rt; matches!(reader.step_item(), Ok(Some((RespItem::Null, _)))));
/// assert!(rt; matches!(reader.step_item(), Ok(None)));
/// ```
#[derive(Clone, Copy, Debug, Drop)]
pub struct Resp {
    pub max: usize,
    pub ghost fits: { max < 2 ^ 62 },
}

/// What a piece of RESP is.
#[derive(Clone, Copy, Debug, PartialEq, Eq, Drop)]
pub enum RespItem {
    /// A bulk string: `$`.
    Bulk,
    /// The null string: `$-1`.
    Null,
    /// The header of an array: `*`, and of how many pieces, where that is a number in decimal, of 18 digits at most and with
    /// none behind a zero in front.
    Array(Option<usize>),
    /// The null array: `*-1`.
    NullArray,
    /// A simple string: `+`.
    Simple,
    /// An error: `-`.
    Error,
    /// A number: `:`.
    Number,
    /// Another line: of a stream of requests a command in one line.
    Inline,
}

impl Decoder for Resp {
    ghost use Rattle.decoders.specs.Resp.{resp, resp_looks, resp_notes};
    ghost use Rattle.decoders.specs.RespLaws.{resp_lawful};

    type Wrong = EitherWrong<HeaderError, Unended<TooLong>>;

    type Note = (ScanNote<StringState>, ());

    ghost grammar = { λ d. resp d.max };

    ghost notes = { λ d. resp_notes d.max };

    ghost looks = { λ d. resp_looks d.max };

    fn most(&self) -> usize {
        let max = self.max;
        ByFirst {
            byte: b'$',
            one: ByHeader(ByScan(NullableStrings { max })),
            other: Ended(Lines { max }),
        }
        .most()
    }

    #[inline(always)]
    fn no_note(&self) -> (ScanNote<StringState>, ()) {
        let max = self.max;
        (ByHeader(ByScan(NullableStrings { max })).no_note(), ())
    }

    #[inline(always)]
    fn decode(
        &self,
        bytes: &[u8],
        seen: usize,
        note: &mut (ScanNote<StringState>, ()),
    ) -> Found<EitherWrong<HeaderError, Unended<TooLong>>> {
        let max = self.max;
        ByFirst {
            byte: b'$',
            one: ByHeader(ByScan(NullableStrings { max })),
            other: Ended(Lines { max }),
        }
        .decode(bytes, seen, note)
    }

    fn at_end(&self, bytes: &[u8]) -> End<EitherWrong<HeaderError, Unended<TooLong>>> {
        let max = self.max;
        ByFirst {
            byte: b'$',
            one: ByHeader(ByScan(NullableStrings { max })),
            other: Ended(Lines { max }),
        }
        .at_end(bytes)
    }

    ghost lawful = { λ d. resp_lawful d.max d.fits };
}

impl Items for Resp {
    type Item = RespItem;

    ghost item_of = { λ _ bytes. resp_item bytes };

    #[inline(always)]
    fn item(&self, piece: &[u8]) -> RespItem {
        match piece {
            [kind, line @ ..] => kind_of(*kind, line),
            [] => RespItem::Inline,
        }
    }
}

// What a piece is that begins with this byte.
#[inline(always)]
fn kind_of(kind: u8, line: &[u8]) -> RespItem
    ensures { result ≡ resp_item (kind ∷ line.now) }
{
    match kind {
        b'$' => match line {
            [b'-', ..] => RespItem::Null,
            _ => RespItem::Bulk,
        },
        b'*' => {
            if is_minus_one(line) {
                RespItem::NullArray
            } else {
                RespItem::Array(count(line))
            }
        }
        b'+' => RespItem::Simple,
        b'-' => RespItem::Error,
        b':' => RespItem::Number,
        _ => RespItem::Inline,
    }
}

// Whether a line is -1, with its end.
fn is_minus_one(line: &[u8]) -> bool
    ensures { result ≡ is_minus_one line.now }
{
    match line {
        [b'-', b'1', end, rest @ ..] => ends_line(*end, rest),
        _ => false,
    }
}

// The number in decimal that a line is, with its end.
fn count(line: &[u8]) -> Option<usize>
    ensures { result ≡ count_in Number.Empty line.now }
{
    let mut number = Number::Empty;
    for (at, byte) in line.iter().enumerate() {
        match number.with(*byte) {
            Some(more) => {
                number = more;
            }
            None => return counted(number, *byte, &line[at + 1..]),
        }
    }
    None
}

// The same behind these digits, and one more byte, which is none of them.
#[inline(always)]
fn counted(number: Number, byte: u8, line: &[u8]) -> Option<usize>
    ensures { result ≡ counted number byte line.now }
{
    match number {
        Number::Is(value) => {
            if ends_line(byte, line) {
                Some(value)
            } else {
                None
            }
        }
        Number::Empty => None,
    }
}

// Whether a line ends here.
#[inline(always)]
fn ends_line(byte: u8, line: &[u8]) -> bool
    ensures { result ≡ ends_here byte line.now }
{
    match line {
        [b'\n', ..] => byte == b'\n' || byte == b'\r',
        _ => byte == b'\n',
    }
}

// Lines, without the byte that says what they are.
#[derive(Clone, Copy, Debug, Drop)]
struct Lines {
    max: usize,
    ghost fits: { max < 2 ^ 62 },
}

impl Decoder for Lines {
    ghost use Rattle.decoders.specs.Resp.{resp_lines};
    ghost use Rattle.decoders.specs.RespLaws.{lines_lawful};

    type Wrong = TooLong;

    type Note = ();

    ghost grammar = { λ d. resp_lines d.max };

    fn most(&self) -> usize {
        1 + self.max
    }

    fn no_note(&self) {}

    #[inline(always)]
    fn decode(&self, bytes: &[u8], seen: usize, note: &mut ()) -> Found<TooLong> {
        let max = self.max;
        match Trimmed(Delimited { end: b'\n', max }).decode(bytes, seen, note) {
            Found::Piece(span, used) => Found::Piece(shown(bytes, span), used),
            Found::More(need) => Found::More(need),
            Found::Wrong(e) => Found::Wrong(e),
        }
    }

    fn at_end(&self, bytes: &[u8]) -> End<TooLong> {
        let max = self.max;
        match Trimmed(Delimited { end: b'\n', max }).at_end(bytes) {
            End::Last(span) => End::Last(shown(bytes, span)),
            End::Wrong(e) => End::Wrong(e),
        }
    }

    ghost lawful = { λ d. lines_lawful d.max };
}

// Where the line is, without the byte that says what it is.
#[inline(always)]
fn shown(bytes: &[u8], span: Span) -> Span
    requires { span.from + span.len ≤ length bytes.now }
    ensures within { result.from + result.len ≤ span.from + span.len }
    ensures shown { bytes_at result bytes.now ≡ behind_kind (bytes_at span bytes.now) }
{
    match &bytes[span.from..span.from + span.len] {
        [b'*' | b'+' | b'-' | b':', line @ ..] => Span {
            from: 1 + span.from,
            len: line.len(),
        },
        _ => span,
    }
}
