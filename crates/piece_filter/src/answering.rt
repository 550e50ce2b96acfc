//! A filter that answers payloads.
ghost use Rattle.std.specs.Prelude.{◌≡◌, [], ℕ, List, None, Some};
ghost use Rattle.forward.specs.Filter.{FilterPasses};
ghost use Rattle.piece_reader.specs.PieceReader.{IsPieceReader, rest};
ghost use Rattle.piece_filter.specs.Answering.{AnswersOne, answering};
ghost use Rattle.piece_filter.specs.AnsweringLaws.{answering_lawful};
ghost use Rattle.piece_filter.specs.Pieces.{IsReady, piece_rules};

use buffer_redux::BufWriter;
use buffer_redux::tell::{TellRead, TellWrite};
use forward::{AskError, Filter};
use piece_reader::{Decoder, NextError, PieceReader, Span};
use std::io;
use std::io::Write;

/// What answers payloads.
pub trait Answer: Drop {
    // What it is before a payload, the payload, what is written for it, and what it is then.
    ghost answers: { Self → List ℕ → List ℕ → Self → Type 0 };

    /// Answers a payload by one [`put_both`](crate::put_both) of a byte or more, and returns `true`; or drops it, and leaves the
    /// writer as it was. An `Err` is the writer's, which refused the answer of this payload: nothing of that was taken in then,
    /// and what answers is as it was.
    fn answer<W: TellWrite>(
        &mut self,
        payload: &[u8],
        writer: &mut BufWriter<W>,
    ) -> io::Result<bool>
        ensures { AnswersOne answers self.old payload.now writer.old result self.new writer.new };
}

/// A reader of pieces, what answers their payloads, and the writer of what it says: a filter for
/// [`forward`](forward::forward).
#[derive(Drop)]
pub struct Answering<R: TellRead, D: Decoder, W: TellWrite, S: Answer> {
    pub source: PieceReader<R, D>,
    pub target: BufWriter<W>,
    pub service: S,
    /// A payload that was found, until it is answered.
    pub held: Option<Span>,
    /// Whether nothing was written since all was flushed.
    pub sent: bool,
}

impl<R: TellRead, D: Decoder, W: TellWrite, S: Answer> Answering<R, D, W, S> {
    /// A filter before the first piece. What `source` has buffered goes over first.
    pub fn new(source: PieceReader<R, D>, target: BufWriter<W>, service: S) -> Answering<R, D, W, S>
        requires whole { IsPieceReader (D.grammar source.decoder) source }
        requires unwritten { target.block.bytes ≡ [] }
        ensures over { (result.source ≡ source) × (result.target ≡ target) × (result.service ≡ service)
            × (result.held ≡ None) }
        ensures ready { IsReady (answering D.grammar S.answers) result }
        ensures fresh { (piece_rules R.remaining (answering D.grammar S.answers)).fresh result }
    {
        Answering {
            source,
            target,
            service,
            held: None,
            sent: false,
        }
    }
}

impl<R: TellRead, D: Decoder, W: TellWrite, S: Answer> Filter for Answering<R, D, W, S> {
    type Wrong = D::Wrong;

    ghost rules = { piece_rules R.remaining (answering D.grammar S.answers) };

    #[inline(always)]
    fn pass(&mut self) -> io::Result<bool> {
        if let Some(span) = self.held {
            return pass_held(self, span);
        }
        match self.source.step_buffered() {
            Some(span) => {
                self.held = Some(span);
                pass_held(self, span)
            }
            None => Ok(false),
        }
    }

    fn flush(&mut self) -> io::Result<()> {
        if self.sent {
            return Ok(());
        }
        match self.target.flush() {
            Ok(()) => {
                self.sent = true;
                Ok(())
            }
            Err(e) => Err(e),
        }
    }

    fn ask(&mut self) -> Result<bool, AskError<D::Wrong>> {
        if self.source.has_ended() {
            return Ok(false);
        }
        let have = self.source.rest().len();
        match self.source.step() {
            Ok(Some(span)) => {
                self.held = Some(span);
                Ok(true)
            }
            Ok(None) => Ok(false),
            Err(NextError::Wrong(why)) => Err(AskError::Wrong(why)),
            Err(NextError::Io(e)) => Err(AskError::of_fault(e, self.source.rest().len() > have)),
        }
    }

    ghost lawful = { answering_lawful D.grammar S.answers R.remaining };
}

// Answers the payload that is held.
#[inline(always)]
fn pass_held<R: TellRead, D: Decoder, W: TellWrite, S: Answer>(
    filter: &mut Answering<R, D, W, S>,
    span: Span,
) -> io::Result<bool>
    requires ready { IsReady (answering D.grammar S.answers) filter.old }
    requires held { filter.old.held ≡ Some span }
    ensures { FilterPasses (piece_rules R.remaining (answering D.grammar S.answers)) filter.old result filter.new }
{
    let payload = filter.source.lent(span);
    match filter.service.answer(payload, &mut filter.target) {
        Ok(true) => {
            filter.sent = false;
            filter.held = None;
            Ok(true)
        }
        Ok(false) => {
            filter.held = None;
            Ok(true)
        }
        Err(e) => {
            filter.sent = false;
            Err(e)
        }
    }
}
