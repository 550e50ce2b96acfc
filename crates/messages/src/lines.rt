//! Where a head ends: behind the first empty line, where CR LF ends each line, and the first is one of a request.
ghost use Rattle.std.specs.Prelude.{◌≡◌, ◌<◌, IsTrue};
ghost use Rattle.messages.specs.Lines.{fault_on, has_version_byte, is_return, line_fault, names_other, too_long, turn_fault};

use crate::bad_head::BadHead;
use crate::head::MAX_HEAD;
use codec::{Scan, ScanStep};
use httparse::{is_method_token, is_uri_token};

/// What stands before the next byte of a head.
#[derive(Clone, Copy, Debug, Drop)]
pub enum Before {
    /// The beginning, or the end of an empty line in front.
    Start,
    /// A CR behind that.
    StartReturn,
    /// A byte of the method.
    Method,
    /// The space behind that.
    Space,
    /// A byte of the target.
    Target,
    /// The space behind that, and so many bytes of a version, whose first digit is 1.
    Version(u8),
    /// The same of one with another first digit.
    OtherVersion(u8),
    /// A CR behind that.
    FirstReturn,
    /// The end of a line.
    Feed,
    /// A byte of a further line.
    Text,
    /// A CR behind such.
    Return,
    /// A CR behind the end of a line.
    EmptyReturn,
}

/// Lines up to an empty one, as a head that has no payload.
#[derive(Clone, Copy, Debug, Drop)]
pub struct Lines;

impl Scan for Lines {
    ghost use Rattle.messages.specs.Lines.{lines};
    ghost use Rattle.messages.specs.LinesLaws.{lines_small};

    type State = Before;

    ghost scanning = { λ _. lines };

    fn start(&self) -> Before {
        Before::Start
    }

    #[inline(always)]
    fn turn(&self, before: Before, byte: u8) -> ScanStep<Before> {
        match before {
            Before::Start => match byte {
                _ if is_method_token(byte) => ScanStep::More(Before::Method),
                b'\r' => ScanStep::More(Before::StartReturn),
                _ => ScanStep::Bad,
            },
            Before::StartReturn => match byte {
                b'\n' => ScanStep::More(Before::Start),
                _ => ScanStep::Bad,
            },
            Before::Method => match byte {
                _ if is_method_token(byte) => ScanStep::More(Before::Method),
                b' ' => ScanStep::More(Before::Space),
                _ => ScanStep::Bad,
            },
            Before::Space => match byte {
                _ if is_uri_token(byte) => ScanStep::More(Before::Target),
                _ => ScanStep::Bad,
            },
            Before::Target => match byte {
                _ if is_uri_token(byte) => ScanStep::More(Before::Target),
                b' ' => ScanStep::More(Before::Version(0)),
                _ => ScanStep::Bad,
            },
            Before::Version(at) => match byte {
                _ if has_version_byte(at, byte) => {
                    if at == 5 && byte != b'1' {
                        ScanStep::More(Before::OtherVersion(at + 1))
                    } else {
                        ScanStep::More(Before::Version(at + 1))
                    }
                }
                b'\r' if at == 8 => ScanStep::More(Before::FirstReturn),
                _ => ScanStep::Bad,
            },
            Before::OtherVersion(at) => match byte {
                _ if has_version_byte(at, byte) => ScanStep::More(Before::OtherVersion(at + 1)),
                _ => ScanStep::Bad,
            },
            Before::FirstReturn => match byte {
                b'\n' => ScanStep::More(Before::Feed),
                _ => ScanStep::Bad,
            },
            Before::Text => match byte {
                b'\r' => ScanStep::More(Before::Return),
                b'\n' => ScanStep::Bad,
                _ => ScanStep::More(Before::Text),
            },
            Before::Return => match byte {
                b'\n' => ScanStep::More(Before::Feed),
                _ => ScanStep::Bad,
            },
            Before::Feed => match byte {
                b'\r' => ScanStep::More(Before::EmptyReturn),
                b'\n' => ScanStep::Bad,
                _ => ScanStep::More(Before::Text),
            },
            Before::EmptyReturn => match byte {
                b'\n' => ScanStep::Sized(0),
                _ => ScanStep::Bad,
            },
        }
    }

    fn most_header(&self) -> usize {
        MAX_HEAD
    }

    fn max(&self) -> usize {
        0
    }

    fn tail(&self) -> &[u8] {
        b""
    }

    ghost small = { λ _. lines_small };
}

// Whether a version goes on with this byte, behind so many: `HTTP/`, a digit, a dot, a digit.
fn has_version_byte(at: u8, byte: u8) -> bool
    ensures value { result ≡ has_version_byte at byte }
    ensures few { IsTrue result → at < 8 }
{
    match at {
        5 | 7 => byte.is_ascii_digit(),
        _ => at < 7 && b"HTTP/0."[at as usize] == byte,
    }
}

/// What is wrong with these lines, where they can't become those of a head.
pub(crate) fn line_fault(bytes: &[u8]) -> BadHead
    ensures { result ≡ line_fault bytes.now }
{
    text_fault(&bytes[..MAX_HEAD.min(bytes.len())])
}

// The same of as many bytes as a head may have.
fn text_fault(text: &[u8]) -> BadHead
    ensures { result ≡ fault_on Before.Start text.now }
{
    let mut place = Before::Start;
    for byte in text {
        match Lines.turn(place, *byte) {
            ScanStep::More(next) => {
                place = next;
            }
            ScanStep::Sized(_) | ScanStep::Bad => return turn_fault(place, *byte),
        }
    }
    too_long(place)
}

// What is wrong where this byte goes no further.
fn turn_fault(place: Before, byte: u8) -> BadHead
    ensures { result ≡ turn_fault place byte }
{
    if byte == b'\n' || is_return(place) {
        BadHead::BareEnd
    } else if names_other(place) && byte == b'\r' {
        BadHead::Version
    } else {
        BadHead::Refused
    }
}

fn is_return(place: Before) -> bool
    ensures { result ≡ is_return place }
{
    matches!(
        place,
        Before::StartReturn | Before::FirstReturn | Before::Return | Before::EmptyReturn
    )
}

fn names_other(place: Before) -> bool
    ensures { result ≡ names_other place }
{
    match place {
        Before::OtherVersion(at) => at == 8,
        _ => false,
    }
}

fn too_long(place: Before) -> BadHead
    ensures { result ≡ too_long place }
{
    match place {
        Before::Feed | Before::Text | Before::Return | Before::EmptyReturn => BadHead::LongHead,
        _ => BadHead::LongLine,
    }
}
