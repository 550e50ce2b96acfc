//! Where in an extension of the line of a size a reader stands, and where a byte leads from there.
ghost use Rattle.std.specs.Prelude.{◌≡◌, ◌↔◌, [], MatchOption, IsTrue};
ghost use Rattle.chunked.specs.Within.{CompletesExtension, LeadsWithin, least_left};

use httparse::{is_header_name_token, is_header_value_token};

/// Where in an extension a reader stands.
#[derive(Clone, Copy, Debug)]
pub enum Within {
    /// Behind a size or a value.
    Behind,
    /// Behind blanks there.
    Blank,
    /// Behind a `;`, and perhaps blanks.
    BeforeName,
    /// In a name.
    InName,
    /// Behind a name and blanks.
    BehindName,
    /// Behind a `=`, and perhaps blanks.
    BeforeValue,
    /// In a value that is a token.
    InValue,
    /// In a quoted string.
    Quoted,
    /// Behind a backslash in one.
    Escaped,
}

impl Within {
    /// Where a byte leads, if it leads on.
    pub(crate) fn next(self, byte: u8) -> Option<Within>
        ensures { MatchOption result ((next : Within) → ¬ LeadsWithin self byte next) (LeadsWithin self byte) }
    {
        match self {
            Within::BeforeName | Within::InName if is_header_name_token(byte) => Some(
                Within::InName,
            ),
            Within::BeforeValue | Within::InValue if is_header_name_token(byte) => Some(
                Within::InValue,
            ),
            Within::BeforeName | Within::BeforeValue if byte == b' ' || byte == b'\t' => Some(self),
            Within::BeforeValue if byte == b'"' => Some(Within::Quoted),
            Within::InName | Within::BehindName => match byte {
                b' ' | b'\t' => Some(Within::BehindName),
                b'=' => Some(Within::BeforeValue),
                b';' => Some(Within::BeforeName),
                _ => None,
            },
            Within::Blank | Within::Behind | Within::InValue => match byte {
                b' ' | b'\t' => Some(Within::Blank),
                b';' => Some(Within::BeforeName),
                _ => None,
            },
            Within::Quoted => match byte {
                b'"' => Some(Within::Behind),
                b'\\' => Some(Within::Escaped),
                _ if is_header_value_token(byte) => Some(Within::Quoted),
                _ => None,
            },
            Within::Escaped if is_header_value_token(byte) => Some(Within::Quoted),
            _ => None,
        }
    }

    /// Whether an extension may end there.
    pub(crate) fn may_end(self) -> bool
        ensures { IsTrue result ↔ CompletesExtension self [] }
    {
        match self {
            Within::Behind | Within::InName | Within::InValue => true,
            _ => false,
        }
    }

    /// How many bytes complete an extension from there, at least.
    pub(crate) fn least(self) -> usize
        ensures { result ≡ least_left self }
    {
        match self {
            Within::InName | Within::InValue | Within::Behind => 0,
            Within::BeforeName | Within::BeforeValue | Within::Quoted => 1,
            Within::Blank | Within::BehindName | Within::Escaped => 2,
        }
    }
}
