//! Numbers in headers that are text.
ghost use Rattle.std.specs.Prelude.{◌≡◌};
ghost use Rattle.codec.specs.Number.{with_byte};

// A number of so many or more takes no further digit.
const MOST: usize = 100_000_000_000_000_000;

/// A number in decimal, as far as it was read: it has at most 18 digits, and none behind a zero in front.
#[derive(Clone, Copy, Debug, PartialEq, Eq, Drop)]
pub enum Number {
    /// No digit yet.
    Empty,
    /// This one.
    Is(usize),
}

impl Number {
    /// The number with this byte behind it, where that is a digit that may stand there.
    #[inline(always)]
    pub fn with(self, byte: u8) -> Option<Number>
        ensures { result ≡ with_byte self byte }
    {
        if byte < b'0' || byte > b'9' {
            return None;
        }
        let digit = usize::from(byte - b'0');
        match self {
            Number::Empty => Some(Number::Is(digit)),
            Number::Is(value) => {
                if value == 0 || value >= MOST {
                    None
                } else {
                    Some(Number::Is(10 * value + digit))
                }
            }
        }
    }
}
