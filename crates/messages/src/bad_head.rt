//! Why what comes next is no head.
use std::error::Error;
use std::fmt;

/// Why what comes next is no head, so that a server can say what RFC 9110 and 9112 have for that.
#[derive(Clone, Copy, Debug, PartialEq, Eq, Drop)]
pub enum BadHead {
    /// An LF, or what follows a CR, is none of a CR LF that ends a line. 400.
    BareEnd,
    /// The first line doesn't end within as many bytes as a head may have, with the empty ones in front. 414.
    LongLine,
    /// That does, but the head doesn't; or the bytes that [`read_head`](crate::read_head) is given are more, whatever their first
    /// line is. 431.
    LongHead,
    /// It has more lines than a head may have fields. 431.
    ManyFields,
    /// The stream ended within it, behind so many bytes. These may be empty lines alone, which say nothing.
    CutShort(usize),
    /// The first line ends in a version of HTTP other than 1. 505.
    Version,
    /// It is a `CONNECT`, behind which a tunnel would begin. 501.
    Tunnel,
    /// Its body comes in chunks, and in another coding within these. 501.
    Coding,
    /// It is no request of HTTP/1.1, or it isn't plain for whom it is, or where its body ends. 400.
    Refused,
}

impl fmt::Display for BadHead {
    fn fmt<W: fmt::Write>(&self, f: &mut fmt::Formatter<W>) -> fmt::Result {
        f.write_str(match self {
            BadHead::BareEnd => "a CR or LF that ends no line",
            BadHead::LongLine => "a request line that is too long",
            BadHead::LongHead => "a head that is too long",
            BadHead::ManyFields => "too many fields",
            BadHead::CutShort(_) => "the stream ended within a head",
            BadHead::Version => "another version of HTTP",
            BadHead::Tunnel => "CONNECT",
            BadHead::Coding => "a transfer coding beside chunked",
            BadHead::Refused => "no request whose body plainly ends",
        })
    }
}

impl Error for BadHead {}
