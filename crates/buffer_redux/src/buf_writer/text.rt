//! Formatted text, which is written piece by piece.
ghost use Rattle.std.specs.Prelude.{◌≡◌, ℕ, Option, None, Some, IfSome, IsOk, OnOk};
ghost use Rattle.std.specs.Io.KnownBytes.{Appends};
ghost use Rattle.buffer_redux.specs.Buffered.{Buffered};
ghost use Rattle.buffer_redux.specs.BufWriter.{writer_contents};
ghost use Rattle.buffer_redux.specs.WriteFmt.{TakesOnePiece, TakesPieces, TextWent, WritesText};

use crate::buf_writer::BufWriter;
use crate::policy::WriterPolicy;
use redux_buffer::tell::TellWrite;
use std::fmt::{Display, Formatter};
use std::io::Write;
use std::marker::{Brand, PhantomData};
use std::{fmt, io};

// Which writer a text goes to, and how that stood as it began.
trait Began<W, P> {
    ghost name: { ℕ };

    ghost writer: { Option (Buffered W P) };
}

impl<W, P> Began<W, P> for Brand {
    ghost name = { 0 };

    ghost writer = { None };
}

// Takes the pieces of a text, and none behind the first error. It answers each with an Ok, so that an error of the
// formatting is that of a value's own `fmt`.
struct Pieces<'a, W: TellWrite, P: WriterPolicy, B: Began<W, P>> {
    writer: &'a mut BufWriter<W, P>,
    ended: Option<io::Error>,
    of: PhantomData<B>,
    ghost same_writer: { writer.ghost_name ≡ B.name },
    ghost went: { ∥ IfSome B.writer (λ s. TextWent W.log W.trace P.rules s ended writer.now) ∥₁ },
}

impl<W: TellWrite, P: WriterPolicy, B: Began<W, P>> fmt::Write for Pieces<'_, W, P, B> {
    ghost write_str_gives = { λ s bytes t. TakesPieces W.log W.trace P.rules s.writer.now s.ended bytes t.writer.now t.ended };

    fn write_str(&mut self, piece: &str) -> fmt::Result
        ensures ok { IsOk result }
        ensures takes { TakesOnePiece W.log W.trace P.rules self.old.writer.now self.old.ended piece.now
            self.new.writer.now self.new.ended }
    {
        if self.ended.is_none() {
            if let Err(e) = self.writer.write_whole(piece.as_bytes(), true) {
                self.ended = kept(e);
            }
        }
        Ok(())
    }
}

// Apart, so that a piece that is taken is short in its caller.
#[cold]
#[inline(never)]
fn kept(e: io::Error) -> Option<io::Error>
    ensures { result ≡ Some e }
{
    Some(e)
}

impl<W: TellWrite, P: WriterPolicy> BufWriter<W, P> {
    /// Writes a formatted text, as `write!` and `writeln!` ask for it: each of its pieces by `write_all`.
    ///
    /// An `Err` is that of such a `write_all`, and just a beginning of the text was accepted. Or it is `Uncategorized`, where the
    /// `fmt` of a value failed by itself, also behind a write that failed: then some bytes were accepted.
    #[inline(always)]
    pub fn write_fmt<D: Display + Drop>(&mut self, text: D) -> io::Result<()>
        ensures bytes { OnOk result (IfSome (D.output text) (Appends (writer_contents self.old) (writer_contents self.new))) }
        ensures text { WritesText W.log W.trace P.rules self.old (D.output text) result self.new }
    {
        let (writer, answer) = write_text::<Brand, W, P, D>(self, text);
        // No effect at run time. The proof reads what was written from this use of `writer`.
        let _ = &*writer;
        answer
    }
}

// The same, and the writer is handed back.
#[inline(always)]
fn write_text<'a, B: Began<W, P>, W: TellWrite, P: WriterPolicy, D: Display + Drop>(
    writer: &'a mut BufWriter<W, P>,
    text: D,
) -> (&'a mut BufWriter<W, P>, io::Result<()>)
    requires name { B.name ≡ writer.ghost_name }
    requires began { B.writer ≡ Some writer.old }
    ensures same_writer { result.0.ghost_name ≡ writer.entry.ghost_name }
    ensures text { WritesText W.log W.trace P.rules writer.old (D.output text) result.1 result.0.now }
{
    let pieces: Pieces<'a, W, P, B> = Pieces {
        writer,
        ended: None,
        of: PhantomData,
    };
    let mut f = Formatter::new(pieces);
    let formatted = f.write(text);
    let Pieces {
        writer,
        ended,
        of: _,
    } = f.into_inner();
    match (formatted, ended) {
        (Err(e), _) => (writer, Err(io::Error::from(e))),
        (Ok(()), Some(e)) => (writer, Err(e)),
        (Ok(()), None) => (writer, Ok(())),
    }
}
