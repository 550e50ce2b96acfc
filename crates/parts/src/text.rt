//! The text of a part, piece by piece.
ghost use Rattle.std.specs.Prelude.{◌≡◌};
ghost use Rattle.parts.specs.Sections.{PutsWanted, TakesText};

use crate::error::RunError;
use buffer_redux::BufWriter;
use buffer_redux::tell::{TellRead, TellWrite};
use multipart::{Multipart, Stand};
use std::io;
use std::io::Write;

/// Takes the text of the part, which is written if it is wanted, and says how many bytes it has. A piece that the writer took no
/// more than a beginning of is consumed.
pub(crate) fn take_text<R: TellRead, W: TellWrite>(
    parts: &mut Multipart<R>,
    wanted: bool,
    target: &mut BufWriter<W>,
) -> Result<u64, RunError>
    requires { parts.old.stand ≡ Stand.Part }
    ensures { TakesText R.remaining W.log W.trace wanted parts.old target.old result parts.new target.new }
{
    // Says that the reader of the text is whole.
    let _ = parts.get_ref();
    let mut len = 0u64;
    for _piece in 0..u64::MAX {
        let count = parts.fill()?;
        if count == 0 {
            return Ok(len);
        }
        let answer = put_wanted(parts.piece(), wanted, target);
        parts.consume(count);
        answer?;
        len = len.saturating_add(count as u64);
    }
    Err(RunError::Many)
}

// Writes a piece if it is wanted.
fn put_wanted<W: TellWrite>(piece: &[u8], wanted: bool, target: &mut BufWriter<W>) -> io::Result<()>
    ensures { PutsWanted W.log W.trace wanted target.old piece.now result target.new }
{
    if wanted {
        target.write_all(piece)
    } else {
        Ok(())
    }
}
