//! What may be wrong with the input.
use chunked::Malformed;
use programs::Fault;
use std::fmt;

/// What may be wrong with the input. Each has the number of bytes of the body that were taken, as far as a `u64` counts.
#[derive(Clone, Copy, Debug)]
pub enum InputFault {
    /// What comes next in the body is wrong.
    NotChunked(Malformed, u64),
    /// The input ended within the body.
    Truncated(u64),
    /// The input goes on behind the body.
    Behind(u64),
}

impl Fault for InputFault {
    ghost use Rattle.bodies.specs.InputFault.{status_of, status_own};

    ghost ends_with = { status_of };

    fn status(&self) -> u8 {
        match self {
            InputFault::NotChunked(_, _) => 4,
            InputFault::Truncated(_) => 5,
            InputFault::Behind(_) => 6,
        }
    }

    ghost own = { status_own };
}

impl fmt::Display for InputFault {
    ghost use Rattle.std.specs.Prelude.{Some};
    ghost use Rattle.bodies.specs.InputFault.{text_of};

    ghost output = { λ fault. Some (text_of fault) };

    fn fmt<W: fmt::Write>(&self, f: &mut fmt::Formatter<W>) -> fmt::Result {
        match self {
            InputFault::NotChunked(why, right) => write!(
                f,
                "{why}, behind {right} bytes of a body"
            ),
            InputFault::Truncated(right) => write!(
                f,
                "the input ends after {right} bytes of a body"
            ),
            InputFault::Behind(right) => write!(
                f,
                "the input goes on behind a body of {right} bytes"
            ),
        }
    }
}
