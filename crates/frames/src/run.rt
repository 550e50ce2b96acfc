//! A run as words ask for it, over any two streams that tell.
ghost use Rattle.std.specs.Prelude.{◌≡◌, codes, map, string_bytes};
ghost use Rattle.programs.specs.Outcome.{RunsOneOf};
ghost use Rattle.frames.specs.Pack.{Packs};
ghost use Rattle.frames.specs.Unpack.{Unpacks};

use crate::fault::InputFault;
use crate::pack::pack;
use crate::unpack::unpack;
use buffer_redux::tell::{TellRead, TellWrite};
use programs::{Ending, Outcome, Report, only_word};
use std::alloc::Global;

// The greatest length of a line or a payload.
const GREATEST: u16 = u16::MAX;

/// Does what these words ask for, which stand behind the program's name. Where they ask for nothing that it knows, neither
/// stream is called.
pub fn run_asked<R: TellRead, W: TellWrite>(
    alloc: Global,
    words: &[String],
    reader: R,
    writer: W,
) -> (Outcome<InputFault>, R, W)
    ensures { RunsOneOf (codes "pack") (codes "unpack") (Packs 65535) (Unpacks 65535) (map string_bytes words.now) result.0
        (R.log reader) (R.log result.1) (W.log writer) (W.log result.2) }
{
    match only_word(words) {
        Some("pack") => {
            let (answer, reader, writer) = pack(alloc, GREATEST, reader, writer);
            (Outcome::of(&answer), reader, writer)
        }
        Some("unpack") => {
            let (answer, reader, writer) = unpack(alloc, GREATEST, reader, writer);
            (Outcome::of(&answer), reader, writer)
        }
        _ => (Outcome::Usual(Ending::Usage), reader, writer),
    }
}

/// What the program says of an outcome.
pub fn said(outcome: Outcome<InputFault>) -> Report<'static, InputFault>
    ensures program { result.program.now ≡ codes "frames" }
    ensures usage { result.usage.now ≡ codes "pack|unpack" }
    ensures outcome { result.outcome ≡ outcome }
{
    Report {
        program: "frames",
        usage: "pack|unpack",
        outcome,
    }
}
