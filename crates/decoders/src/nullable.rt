//! Bulk strings of RESP, and the null string.
ghost use Rattle.std.specs.Prelude.{◌≡◌, ◌<◌, ◌^◌};
ghost use Rattle.decoders.specs.Nullable.{begins_length, in_text};

use crate::bulk_strings::BulkStrings;
use codec::{ByTextHeader, Number, Scan, ScanStep, TextHeaderState};

/// Bulk strings of RESP of at most `max` bytes, as [`BulkStrings`] has them, and the null string of RESP 2: `$-1`, CR and LF. The
/// payload of that is empty.
///
/// ```
/// let strings = ByHeader(ByScan(NullableStrings { max: 100 }));
/// let stream = Told::new(b"$2\r\nhi\r\n$-1\r\n".as_slice());
/// let mut reader = PieceReader::new(alloc, stream, strings)?;
/// assert!(rt; matches!(reader.next(), Ok(Some(b"hi"))));
/// assert!(rt; matches!(reader.next(), Ok(Some(b""))));
/// assert!(rt; matches!(reader.next(), Ok(None)));
/// ```
#[derive(Clone, Copy, Debug, Drop)]
pub struct NullableStrings {
    pub max: usize,
    pub ghost fits: { max < 2 ^ 62 },
}

/// Where such a header stands.
#[derive(Clone, Copy, Debug, PartialEq, Eq, Drop)]
pub enum StringState {
    /// In the header of a bulk string.
    Text(TextHeaderState),
    /// Behind the minus of the null string.
    Minus,
}

impl Scan for NullableStrings {
    ghost use Rattle.decoders.specs.Nullable.{nullable};
    ghost use Rattle.decoders.specs.NullableLaws.{nullable_small};

    type State = StringState;

    ghost scanning = { λ d. nullable d.max };

    fn start(&self) -> StringState {
        StringState::Text(TextHeaderState::Before(0))
    }

    #[inline(always)]
    fn turn(&self, state: StringState, byte: u8) -> ScanStep<StringState> {
        match state {
            StringState::Text(place) => {
                if byte == b'-' && is_length(place) {
                    ScanStep::More(StringState::Minus)
                } else {
                    text_turn(ByTextHeader(BulkStrings { max: self.max }).turn(place, byte))
                }
            }
            StringState::Minus => {
                if byte == b'1' {
                    ScanStep::Sized(0)
                } else {
                    ScanStep::Bad
                }
            }
        }
    }

    #[inline(always)]
    fn most_header(&self) -> usize {
        21
    }

    #[inline(always)]
    fn max(&self) -> usize {
        self.max
    }

    #[inline(always)]
    fn tail(&self) -> &[u8] {
        b"\r\n"
    }

    ghost small = { λ d. nullable_small d.max d.fits };
}

// Whether a length begins here.
#[inline(always)]
fn is_length(place: TextHeaderState) -> bool
    ensures { result ≡ begins_length place }
{
    match place {
        TextHeaderState::Length(Number::Empty) => true,
        TextHeaderState::Length(Number::Is(_)) => false,
        TextHeaderState::Before(_) => false,
        TextHeaderState::After(_, _) => false,
    }
}

// The same turn, in the header of a bulk string.
#[inline(always)]
fn text_turn(turn: ScanStep<TextHeaderState>) -> ScanStep<StringState>
    ensures { result ≡ in_text turn }
{
    match turn {
        ScanStep::More(place) => ScanStep::More(StringState::Text(place)),
        ScanStep::Sized(len) => ScanStep::Sized(len),
        ScanStep::Bad => ScanStep::Bad,
    }
}
