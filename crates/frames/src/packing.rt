//! Lines as they go over, one by one, as frames.
ghost use Rattle.std.specs.Prelude.{◌≡◌, ◌≤◌, [], ◌∷◌, length, Some, OnErr, OnOk};
ghost use Rattle.codec.specs.WritePiece.{PiecesTaken};
ghost use Rattle.forward.specs.Filter.{FilterPasses};
ghost use Rattle.frame_reader.specs.Framed.{framed_out};
ghost use Rattle.frames.specs.Packing.{packing};
ghost use Rattle.frames.specs.PackingLaws.{packing_lawful};
ghost use Rattle.frames.specs.Words.{frame};
ghost use Rattle.piece_filter.specs.Pieces.{IsReady, piece_rules};
ghost use Rattle.programs.specs.TakenIn.{TakesAll};

use crate::fault::InputFault;
use buffer_redux::tell::{TellRead, TellWrite};
use codec::Span;
use forward::{AskError, Filter};
use frame_reader::{FrameWriter, WriteFrameError};
use line_reader::{LineError, LineReader};
use std::io;

// A reader of lines, and the writer that takes their frames. A line that was asked for is held until it is passed.
#[derive(Drop)]
pub struct Packing<R: TellRead, W: TellWrite> {
    pub source: LineReader<R>,
    pub target: FrameWriter<W>,
    pub held: Option<Span>,
}

impl<R: TellRead, W: TellWrite> Filter for Packing<R, W> {
    type Wrong = InputFault;

    ghost rules = { piece_rules R.remaining packing };

    #[inline(always)]
    fn pass(&mut self) -> io::Result<bool> {
        if let Some(span) = self.held {
            return pass_held(self, span);
        }
        match self.source.next_buffered() {
            Some(line) => {
                write_line(&mut self.target, line)?;
                Ok(true)
            }
            None => Ok(false),
        }
    }

    fn flush(&mut self) -> io::Result<()> {
        self.target.flush()
    }

    fn ask(&mut self) -> Result<bool, AskError<InputFault>> {
        // The stream ended behind a last line without an end.
        if self.source.has_ended() {
            return Ok(false);
        }
        let have = self.source.rest().len();
        match self.source.step() {
            Ok(Some(span)) => {
                self.held = Some(span);
                Ok(true)
            }
            Ok(None) => Ok(false),
            Err(LineError::TooLong(_)) => Err(AskError::Wrong(InputFault::TooLong)),
            Err(LineError::Io(e)) => Err(AskError::of_fault(e, self.source.rest().len() > have)),
        }
    }

    ghost lawful = { packing_lawful R.remaining };
}

// Passes the line that is held. It stands apart, so that a line that is buffered clears none of its answers.
#[inline(never)]
fn pass_held<R: TellRead, W: TellWrite>(filter: &mut Packing<R, W>, span: Span) -> io::Result<bool>
    requires ready { IsReady packing filter.old }
    requires held { filter.old.held ≡ Some span }
    ensures { FilterPasses (piece_rules R.remaining packing) filter.old result filter.new }
{
    write_line(&mut filter.target, filter.source.lent(span))?;
    filter.held = None;
    Ok(true)
}

// Takes the frame of the line in, or nothing of it where room can't be had.
#[inline(always)]
fn write_line<W: TellWrite>(target: &mut FrameWriter<W>, line: &[u8]) -> io::Result<()>
    requires { length line.now ≤ target.old.encoder.max }
    ensures taken { OnOk result
        (PiecesTaken W.trace (framed_out target.old.encoder.max) target.old (line.now ∷ []) target.new) }
    ensures none { OnErr result (PiecesTaken W.trace (framed_out target.old.encoder.max) target.old [] target.new) }
    ensures takes { TakesAll (length (frame line.now)) (λ _. ⊥) target.old.writer (frame line.now) result target.new.writer }
{
    match target.write_frame(line) {
        Ok(()) => Ok(()),
        Err(WriteFrameError::Io(e)) => Err(e),
        Err(WriteFrameError::TooLong(_)) => unreachable!(),
    }
}
