//! A run as words ask for it, over any two streams that tell.
ghost use Rattle.std.specs.Prelude.{◌≡◌, codes, map, string_bytes};
ghost use Rattle.programs.specs.Outcome.{RunsOneOf};
ghost use Rattle.bodies.specs.Decode.{DecodesBody};
ghost use Rattle.bodies.specs.Encode.{Encodes};

use crate::decode::decode;
use crate::encode::encode;
use crate::fault::InputFault;
use buffer_redux::tell::{TellRead, TellWrite};
use chunked::Limits;
use programs::{Ending, Outcome, Report, only_word};
use std::alloc::Global;

// How much of a body may be no payload.
const LIMITS: Limits = Limits {
    line: 8192,
    trailers: 65536,
};

/// Does what these words ask for, which stand behind the program's name. Where they ask for nothing that it knows, neither
/// stream is called.
pub fn run_asked<R: TellRead, W: TellWrite>(
    alloc: Global,
    words: &[String],
    reader: R,
    writer: W,
) -> (Outcome<InputFault>, R, W)
    ensures { RunsOneOf (codes "decode") (codes "encode") (DecodesBody (record { line = 8192; trailers = 65536 })) Encodes
        (map string_bytes words.now) result.0 (R.log reader) (R.log result.1) (W.log writer) (W.log result.2) }
{
    match only_word(words) {
        Some("decode") => {
            let (answer, reader, writer) = decode(alloc, LIMITS, reader, writer);
            (Outcome::of(&answer), reader, writer)
        }
        Some("encode") => {
            let (answer, reader, writer) = encode(alloc, reader, writer);
            (Outcome::of(&answer), reader, writer)
        }
        _ => (Outcome::Usual(Ending::Usage), reader, writer),
    }
}

/// What the program says of an outcome.
pub fn said(outcome: Outcome<InputFault>) -> Report<'static, InputFault>
    ensures program { result.program.now ≡ codes "bodies" }
    ensures usage { result.usage.now ≡ codes "decode|encode" }
    ensures outcome { result.outcome ≡ outcome }
{
    Report {
        program: "bodies",
        usage: "decode|encode",
        outcome,
    }
}
