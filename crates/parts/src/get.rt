//! The text of one part, over any two streams that tell.
ghost use Rattle.std.specs.Prelude.{◌≡◌, ◌↔◌, [], IsTrue};
ghost use Rattle.std.specs.Option.{option_copied};
ghost use Rattle.parts.specs.Sections.{GetAnswers, SaysName, said_of};

use crate::error::RunError;
use crate::text::take_text;
use buffer_redux::BufWriter;
use buffer_redux::tell::{TellRead, TellWrite};
use multipart::{Multipart, Stand, field, parameter};

/// Writes the text of the first part of this name.
pub(crate) fn get<R: TellRead, W: TellWrite>(
    parts: &mut Multipart<R>,
    name: &[u8],
    target: &mut BufWriter<W>,
) -> Result<(), RunError>
    requires stands { parts.old.stand ≡ Stand.Preamble }
    requires none { parts.old.parts ≡ 0 }
    requires begins { parts.old.body.taken ≡ [] }
    ensures { GetAnswers W.log W.trace name.now parts.old target.old result parts.new target.new }
{
    for _part in 0..u64::MAX {
        if !parts.next_part()? {
            return Err(RunError::Missing);
        }
        if is_named(parts.head(), name) {
            take_text(parts, true, target)?;
            return Ok(());
        }
    }
    Err(RunError::Many)
}

// Whether a head says this name.
fn is_named(head: &[u8], name: &[u8]) -> bool
    ensures { IsTrue result ↔ SaysName name.now head.now }
{
    match said(head, b"name") {
        Some(said) => said == name,
        None => false,
    }
}

/// What a parameter of a head's `Content-Disposition` says.
pub(crate) fn said<'a>(head: &'a [u8], name: &[u8]) -> Option<&'a [u8]>
    ensures { option_copied result ≡ said_of name.now head.now }
{
    parameter(field(head, b"Content-Disposition")?, name)
}
