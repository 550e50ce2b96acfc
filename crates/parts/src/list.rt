//! What the parts are, over any two streams that tell.
ghost use Rattle.std.specs.Prelude.{◌≡◌, [], codes, map, unwrap_or};
ghost use Rattle.std.specs.Option.{option_copied};
ghost use Rattle.parts.specs.Sections.{ListAnswers, PutsBytes, column, list_line, printed};

use crate::error::RunError;
use crate::get::said;
use crate::text::take_text;
use buffer_redux::BufWriter;
use buffer_redux::tell::{TellRead, TellWrite};
use multipart::{Multipart, Stand, field};
use std::io;
use std::io::Write;

/// Prints a line for each part.
pub(crate) fn list<R: TellRead, W: TellWrite>(
    parts: &mut Multipart<R>,
    target: &mut BufWriter<W>,
) -> Result<(), RunError>
    requires stands { parts.old.stand ≡ Stand.Preamble }
    requires none { parts.old.parts ≡ 0 }
    requires begins { parts.old.body.taken ≡ [] }
    ensures { ListAnswers W.log W.trace parts.old target.old result parts.new target.new }
{
    for _part in 0..u64::MAX {
        if !parts.next_part()? {
            return Ok(());
        }
        let len = take_text(parts, false, target)?;
        put_line(parts.head(), len, target)?;
    }
    Err(RunError::Many)
}

// Writes the line of a part: what its head says, a tab behind each, and how long its text is.
fn put_line<W: TellWrite>(head: &[u8], len: u64, target: &mut BufWriter<W>) -> io::Result<()>
    ensures { PutsBytes W.log W.trace target.old (list_line head.now len) result target.new }
{
    put_or(said(head, b"name"), target)?;
    put_or(said(head, b"filename"), target)?;
    put_or(field(head, b"Content-Type"), target)?;
    let mut digits = itoa::Buffer::new();
    target.write_all(digits.format(len).as_bytes())?;
    target.write_all(b"\n")
}

fn put_or<W: TellWrite>(said: Option<&[u8]>, target: &mut BufWriter<W>) -> io::Result<()>
    ensures { PutsBytes W.log W.trace target.old (column (option_copied said.entry)) result target.new }
{
    put_printed(or_hyphen(said), target)?;
    target.write_all(b"\t")
}

// Writes a text as it is printed, so that it ends neither a column nor a line.
fn put_printed<W: TellWrite>(text: &[u8], target: &mut BufWriter<W>) -> io::Result<()>
    ensures { PutsBytes W.log W.trace target.old (map printed text.now) result target.new }
{
    for byte in text {
        target.write_all(&[printed(*byte)])?;
    }
    Ok(())
}

// A byte as it is printed: a control byte, as a tab or a line feed, is a `?`.
fn printed(byte: u8) -> u8
    ensures { result ≡ printed byte }
{
    if byte.is_ascii_control() { b'?' } else { byte }
}

fn or_hyphen<'a>(said: Option<&'a [u8]>) -> &'a [u8]
    ensures { result.now ≡ unwrap_or (option_copied said.entry) (codes "-") }
{
    match said {
        Some(said) => said,
        None => b"-",
    }
}
