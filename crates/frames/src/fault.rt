//! What may be wrong with the input.
use programs::Fault;
use std::fmt;

/// What may be wrong with the input.
#[derive(Clone, Copy, Debug)]
pub enum InputFault {
    /// A line, or the payload of a frame, is longer than it may be.
    TooLong,
    /// The input ended within a frame.
    Truncated,
}

impl Fault for InputFault {
    ghost use Rattle.frames.specs.InputFault.{status_of, status_own};

    ghost ends_with = { status_of };

    fn status(&self) -> u8 {
        match self {
            InputFault::TooLong => 4,
            InputFault::Truncated => 5,
        }
    }

    ghost own = { status_own };
}

impl fmt::Display for InputFault {
    ghost use Rattle.std.specs.Prelude.{Some};
    ghost use Rattle.frames.specs.InputFault.{text_of};

    ghost output = { λ fault. Some (text_of fault) };

    fn fmt<W: fmt::Write>(&self, f: &mut fmt::Formatter<W>) -> fmt::Result {
        f.write_str(match self {
            InputFault::TooLong => "a line or a frame has more than 65535 bytes",
            InputFault::Truncated => "the input ends within a frame",
        })
    }
}
