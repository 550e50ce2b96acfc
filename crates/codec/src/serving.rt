//! Pieces are answered, one after another.
ghost use Rattle.std.specs.Prelude.{◌≡◌, ℕ, ◌+◌, ◌≤◌, List, [], length, Bool, Err, IfOk, IfErr, OnOk};
ghost use Rattle.std.specs.declared.io.Error.{Error};
ghost use Rattle.buffer_redux.specs.Faults.{IsInterrupt, failure_count, interrupt_limit};
ghost use Rattle.codec.specs.declared.serving.ServeError.TheVariants.{Read};
ghost use Rattle.codec.specs.Answering.{IsPieceRead, WasAnswered};
ghost use Rattle.codec.specs.AskedAgain.{ReadsFailFew};
ghost use Rattle.codec.specs.Serving.{Serves, ServesTurn, ServingEnds, ServingFails, is_flushed, server};

use crate::answering::AnswerError;
use crate::fetching::fetch_on;
use buffer_redux::tell::{TellRead, TellWrite};
use buffer_redux::{BufWriter, INTERRUPT_LIMIT};
use piece_reader::{Items, NextError, PieceReader};
use std::io;
use std::io::Write;

/// What answers the pieces of a protocol: a server, but for its streams.
pub trait Service<D: Items> {
    /// What fails in the service itself, as where it is refused memory. One that can't fail takes `Infallible`.
    type Failure: Drop;

    // What a piece makes of it: what it says, its payload, what is written for it, and whether a further piece is taken.
    ghost answers: { Self → D.Item → List ℕ → List ℕ → Bool → Self → Type 0 };

    // Which failures may come of a piece, by what it says and its payload, and what each leaves.
    ghost fails: { Self → D.Item → List ℕ → Self.Failure → Self → Type 0 };

    /// Answers a piece, and says whether a further one is taken. What it is given is a piece that some decoder of this type
    /// reads: so a limit that an answer rests on stands in the type, as that of `KindVarints` of `decoders`. It writes once, by
    /// one `write_parts` as [`write_answer`](crate::write_answer) makes, or nothing, as to a part of a request, and sends and
    /// flushes nothing else. At an `Err` nothing of an answer was taken in.
    fn answer<W: TellWrite>(
        &mut self,
        item: D::Item,
        payload: &[u8],
        writer: &mut BufWriter<W>,
    ) -> Result<bool, AnswerError<Self::Failure>>
        requires { IsPieceRead D.grammar D.item_of item payload.now }
        ensures { WasAnswered W.log W.trace (answers self.old item payload.now)
            (fails self.old item payload.now) writer.old result
            self.new writer.new };
}

/// Why serving ended.
#[derive(Clone, Copy, PartialEq, Eq, Debug, Drop)]
pub enum Served {
    /// The service takes no further piece.
    Closed,
    /// The stream of pieces ended.
    End,
    /// At 2^64 - 1 pieces.
    Many,
}

/// Why serving failed.
#[derive(Debug, Drop)]
pub enum ServeError<W, F> {
    /// The stream of pieces failed. All answers were received and flushed, and [`serve`] may be called again.
    Read(io::Error),
    /// The stream of answers failed, or room for an answer was refused. The piece that was taken last, if any was, is done, and
    /// its answer may be missing.
    Write(io::Error),
    /// The last flush failed, behind this end: no further piece is to be taken where it is [`Served::Closed`].
    Flush(Served, io::Error),
    /// What is left is no piece. It stays, and answers to what stood before it may be buffered still.
    Wrong(W),
    /// The service failed at a piece. That was taken, nothing was written for it, and answers to what stood before it may be
    /// buffered still.
    Failed(F),
}

// What one turn was.
#[derive(Clone, Copy, Drop)]
pub enum Step {
    Went,
    Closed,
    End,
}

/// Answers the pieces of a stream, one after another, up to its end or where `service` takes no further piece. Answers are
/// flushed where the stream is asked for more, and behind an end for which it wasn't asked, and only there.
///
/// A piece is answered once, and the next one begins just behind it. After a [`ServeError::Read`] this may be called again, and
/// goes on where it was, also in the middle of a piece.
pub fn serve<R: TellRead, D: Items, W: TellWrite, S: Service<D>>(
    service: &mut S,
    reader: &mut PieceReader<R, D>,
    writer: &mut BufWriter<W>,
) -> Result<Served, ServeError<D::Wrong, S::Failure>>
    ensures flushed { OnOk result (writer.new.block.bytes ≡ []) }
    ensures served { IfOk result (λ ended. Serves 0 R.remaining W.log W.trace (D.grammar reader.old.decoder)
        (D.item_of reader.old.decoder) S.answers (server reader.old service.old writer.old) ended
        (server reader.new service.new writer.new)) }
    ensures failed { IfErr result (λ e. ServingFails 0 R.remaining W.log W.trace (D.grammar reader.old.decoder)
        (D.item_of reader.old.decoder) S.answers S.fails (server reader.old service.old writer.old) e
        (server reader.new service.new writer.new)) }
{
    serve_on(0, service, reader, writer)
}

/// Does as [`serve`], and asks again where a read was interrupted, without a further flush: up to
/// [`INTERRUPT_LIMIT`](buffer_redux::INTERRUPT_LIMIT) times in a row, which begins anew where bytes came. Then it answers that.
pub fn serve_all<R: TellRead, D: Items, W: TellWrite, S: Service<D>>(
    service: &mut S,
    reader: &mut PieceReader<R, D>,
    writer: &mut BufWriter<W>,
) -> Result<Served, ServeError<D::Wrong, S::Failure>>
    ensures flushed { OnOk result (writer.new.block.bytes ≡ []) }
    ensures few { ReadsFailFew (failure_count result) reader.old.reader.log.reads reader.new.reader.log.reads }
    ensures often { (e : Error) → result ≡ Err (Read e) → IsInterrupt e
        → length reader.old.reader.log.reads.faults + interrupt_limit + 1 ≤ length reader.new.reader.log.reads.faults }
    ensures served { IfOk result (λ ended. Serves interrupt_limit R.remaining W.log W.trace (D.grammar reader.old.decoder)
        (D.item_of reader.old.decoder) S.answers (server reader.old service.old writer.old) ended
        (server reader.new service.new writer.new)) }
    ensures failed { IfErr result (λ e. ServingFails interrupt_limit R.remaining W.log W.trace (D.grammar reader.old.decoder)
        (D.item_of reader.old.decoder) S.answers S.fails (server reader.old service.old writer.old) e
        (server reader.new service.new writer.new)) }
{
    serve_on(INTERRUPT_LIMIT, service, reader, writer)
}

// Serves, and asks again so often in a row.
fn serve_on<R: TellRead, D: Items, W: TellWrite, S: Service<D>>(
    limit: u32,
    service: &mut S,
    reader: &mut PieceReader<R, D>,
    writer: &mut BufWriter<W>,
) -> Result<Served, ServeError<D::Wrong, S::Failure>>
    requires { limit ≤ interrupt_limit }
    ensures flushed { OnOk result (writer.new.block.bytes ≡ []) }
    ensures served { IfOk result (λ ended. Serves limit R.remaining W.log W.trace (D.grammar reader.old.decoder)
        (D.item_of reader.old.decoder) S.answers (server reader.old service.old writer.old) ended
        (server reader.new service.new writer.new)) }
    ensures failed { IfErr result (λ e. ServingFails limit R.remaining W.log W.trace (D.grammar reader.old.decoder)
        (D.item_of reader.old.decoder) S.answers S.fails (server reader.old service.old writer.old) e
        (server reader.new service.new writer.new)) }
{
    let ends = answer_pieces(limit, service, reader, writer)?;
    if ends.1 {
        return Ok(ends.0);
    }
    match writer.flush() {
        Ok(()) => Ok(ends.0),
        Err(e) => Err(ServeError::Flush(ends.0, e)),
    }
}

// Serves, but for the last flush; and says whether all was flushed, as it is where the stream was asked for its end.
fn answer_pieces<R: TellRead, D: Items, W: TellWrite, S: Service<D>>(
    limit: u32,
    service: &mut S,
    reader: &mut PieceReader<R, D>,
    writer: &mut BufWriter<W>,
) -> Result<(Served, bool), ServeError<D::Wrong, S::Failure>>
    requires { limit ≤ interrupt_limit }
    ensures ended { IfOk result (λ by. (ends : ServingEnds limit R.remaining W.log W.trace (D.grammar reader.old.decoder)
        (D.item_of reader.old.decoder) S.answers (server reader.old service.old writer.old) by.0
        (server reader.new service.new writer.new)) × (by.1 ≡ is_flushed by.0 ends.last.pieces.ended)) }
    ensures failed { IfErr result (λ e. ServingFails limit R.remaining W.log W.trace (D.grammar reader.old.decoder)
        (D.item_of reader.old.decoder) S.answers S.fails (server reader.old service.old writer.old) e
        (server reader.new service.new writer.new)) }
{
    for _turn in 0..u64::MAX {
        let told = reader.has_ended();
        match turn(limit, service, reader, writer)? {
            Step::Went => {}
            Step::Closed => return Ok((Served::Closed, false)),
            Step::End => return Ok((Served::End, !told)),
        }
    }
    Ok((Served::Many, false))
}

// Takes one piece, and answers it.
fn turn<R: TellRead, D: Items, W: TellWrite, S: Service<D>>(
    limit: u32,
    service: &mut S,
    reader: &mut PieceReader<R, D>,
    writer: &mut BufWriter<W>,
) -> Result<Step, ServeError<D::Wrong, S::Failure>>
    requires { limit ≤ interrupt_limit }
    ensures { ServesTurn limit R.remaining W.log W.trace (D.grammar reader.old.decoder) (D.item_of reader.old.decoder) S.answers
        S.fails (server reader.old service.old writer.old) result (server reader.new service.new writer.new) }
{
    match fetch_on(limit, reader, writer) {
        Ok(Ok(Some(said))) => match service.answer(said.0, reader.lent(said.1), writer) {
            Ok(true) => Ok(Step::Went),
            Ok(false) => Ok(Step::Closed),
            Err(AnswerError::Write(e)) => Err(ServeError::Write(e)),
            Err(AnswerError::Failed(why)) => Err(ServeError::Failed(why)),
        },
        Ok(Ok(None)) => Ok(Step::End),
        Ok(Err(NextError::Io(e))) => Err(ServeError::Read(e)),
        Ok(Err(NextError::Wrong(e))) => Err(ServeError::Wrong(e)),
        Err(e) => Err(ServeError::Write(e)),
    }
}
