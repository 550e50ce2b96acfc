//! The next piece, before which replies are flushed where the stream is waited for.
ghost use Rattle.std.specs.Prelude.{◌≡◌, ◌+◌, ◌≤◌, length, Ok, Err, IfNone, IfOk, IfSome, OnOk};
ghost use Rattle.std.specs.declared.io.Error.{Error};
ghost use Rattle.buffer_redux.specs.Faults.{IsInterrupt, interrupt_limit};
ghost use Rattle.codec.specs.AskedAgain.{FetchesItem, InARow};
ghost use Rattle.codec.specs.Fetching.{FlushedFirst, FlushesToAsk, LooksToFetch};
ghost use Rattle.piece_reader.specs.declared.error.NextError.TheVariants.{Io};
ghost use Rattle.piece_reader.specs.Decoding.{IsLent};
ghost use Rattle.piece_reader.specs.Grammar.{IsOpen};
ghost use Rattle.piece_reader.specs.Items.{NextItem};
ghost use Rattle.piece_reader.specs.Looking.{LookSays};
ghost use Rattle.piece_reader.specs.NextPiece.{NextPiece, load_answer};
ghost use Rattle.piece_reader.specs.PieceReader.{rest};

use buffer_redux::BufWriter;
use buffer_redux::policy::WriterPolicy;
use buffer_redux::tell::{TellRead, TellWrite};
use piece_reader::{Decoder, Items, NextError, PieceReader, Span};
use std::io;
use std::io::{ErrorKind, Write};

/// Does as [`step`](PieceReader::step), and flushes the writer first where that would ask the stream, and only there. So who
/// answers requests on a stream holds no reply back while it waits for the next one. An `Err` is the writer's: then nothing was
/// asked.
///
/// ```
/// let lines = Delimited { end: b'\n', max: 9 };
/// let mut reader = PieceReader::new(alloc, Told::new(b"one\n".as_slice()), lines)?;
/// let mut writer = BufWriter::new(alloc, Told::new(Vec::new(alloc)))?;
/// if let Ok(Some(span)) = fetch(&mut reader, &mut writer)? {
///     writer.write_all(reader.lent(span))?;
/// }
/// assert!(rt; matches!(fetch(&mut reader, &mut writer)?, Ok(None)));
/// assert!(rt; writer.get_ref().get_ref().as_slice() == b"one".as_slice());
/// ```
pub fn fetch<R: TellRead, D: Decoder, W: TellWrite, P: WriterPolicy>(
    reader: &mut PieceReader<R, D>,
    writer: &mut BufWriter<W, P>,
) -> io::Result<Result<Option<Span>, NextError<D::Wrong>>>
    ensures lends { IfOk result (λ answer. IfOk answer (λ found. IfSome found
        (IsLent (D.grammar reader.new.decoder) reader.new.handed reader.new.reader.block.bytes))) }
    ensures looked { OnOk result (LooksToFetch (LookSays D.grammar D.looks) (D.grammar reader.old.decoder) reader.old
        reader.new) }
    ensures next { IfOk result (λ answer. NextPiece R.remaining (D.grammar reader.old.decoder) reader.old
        (load_answer answer reader.new) reader.new) }
    ensures first { FlushedFirst W.log W.trace (D.grammar reader.old.decoder) reader.old writer.old result
        reader.new writer.new }
{
    if let Some(span) = reader.step_buffered() {
        return Ok(Ok(Some(span)));
    }
    match flush_to_ask(reader, writer) {
        Ok(()) => Ok(reader.step()),
        Err(e) => Err(e),
    }
}

/// Does as [`step_item`](PieceReader::step_item), and flushes the writer first as [`fetch`] does.
pub fn fetch_item<R: TellRead, D: Items, W: TellWrite, P: WriterPolicy>(
    reader: &mut PieceReader<R, D>,
    writer: &mut BufWriter<W, P>,
) -> io::Result<Result<Option<(D::Item, Span)>, NextError<D::Wrong>>>
    ensures lends { IfOk result (λ answer. IfOk answer (λ found. IfSome found (λ said.
        IsLent (D.grammar reader.new.decoder) reader.new.handed reader.new.reader.block.bytes said.1))) }
    ensures looked { OnOk result (LooksToFetch (LookSays D.grammar D.looks) (D.grammar reader.old.decoder) reader.old
        reader.new) }
    ensures next { IfOk result (λ answer. NextItem R.remaining (D.grammar reader.old.decoder)
        (D.item_of reader.old.decoder) reader.old answer reader.new) }
    ensures first { FlushedFirst W.log W.trace (D.grammar reader.old.decoder) reader.old writer.old result
        reader.new writer.new }
{
    if let Some(said) = reader.step_item_buffered() {
        return Ok(Ok(Some(said)));
    }
    match flush_to_ask(reader, writer) {
        Ok(()) => Ok(reader.step_item()),
        Err(e) => Err(e),
    }
}

// Does as `fetch_item`, and asks again where that was interrupted, without a further flush: so often in a row at most, and a row
// begins anew where bytes came.
pub(crate) fn fetch_on<R: TellRead, D: Items, W: TellWrite, P: WriterPolicy>(
    limit: u32,
    reader: &mut PieceReader<R, D>,
    writer: &mut BufWriter<W, P>,
) -> io::Result<Result<Option<(D::Item, Span)>, NextError<D::Wrong>>>
    requires { limit ≤ interrupt_limit }
    ensures lends { IfOk result (λ answer. IfOk answer (λ found. IfSome found (λ said.
        IsLent (D.grammar reader.new.decoder) reader.new.handed reader.new.reader.block.bytes said.1))) }
    ensures next { IfOk result (λ answer. FetchesItem limit R.remaining (D.grammar reader.old.decoder)
        (D.item_of reader.old.decoder) reader.old answer reader.new) }
    ensures first { FlushedFirst W.log W.trace (D.grammar reader.old.decoder) reader.old writer.old result
        reader.new writer.new }
{
    let mut had = reader.rest().len();
    let mut answer = fetch_item(reader, writer)?;
    let mut row = 0;
    'tries: loop {
        let has = reader.rest().len();
        match interruptions_with(&answer, row, had, has, limit) {
            Some(with) => {
                row = with;
                had = has;
                answer = reader.step_item();
            }
            None => return Ok(answer),
        }
    }
}

// How many steps in a row were interrupted with this one, where so many were before, and it found so many bytes, and left so
// many; `None` where it isn't made again.
fn interruptions_with<A, W>(
    answer: &Result<A, NextError<W>>,
    row: u32,
    had: usize,
    has: usize,
    limit: u32,
) -> Option<u32>
    requires { row ≤ limit }
    ensures again { IfSome result (λ with. ((e : Error) × (answer.now ≡ Err (Io e)) × IsInterrupt e)
        × InARow row had has with × (with ≤ limit)) }
    ensures last { IfNone result ((e : Error) → answer.now ≡ Err (Io e) → IsInterrupt e → InARow row had has (limit + 1)) }
{
    match answer {
        Err(NextError::Io(e)) if e.kind() == ErrorKind::Interrupted => {
            let before = if had < has { 0 } else { row };
            if before < limit {
                Some(before + 1)
            } else {
                None
            }
        }
        _ => None,
    }
}

// Flushes where the next step has to ask the stream, behind a look at what is left.
fn flush_to_ask<R: TellRead, D: Decoder, W: TellWrite, P: WriterPolicy>(
    reader: &PieceReader<R, D>,
    writer: &mut BufWriter<W, P>,
) -> io::Result<()>
    requires looked { IsOpen (D.grammar reader.now.decoder) (rest reader.now) → reader.now.seen ≡ length (rest reader.now) }
    ensures { FlushesToAsk W.log W.trace (D.grammar reader.now.decoder) reader.now writer.old result writer.new }
{
    if reader.has_ended() || reader.looked() < reader.rest().len() {
        return Ok(());
    }
    writer.flush()
}
