//! Payloads of frames as they go over, one by one, as lines.
ghost use Rattle.frames.specs.Unpacking.{unpacking};
ghost use Rattle.piece_filter.specs.Pieces.{piece_rules};
ghost use Rattle.frames.specs.UnpackingLaws.{unpacking_lawful};

use crate::fault::InputFault;
use buffer_redux::BufWriter;
use buffer_redux::tell::{TellRead, TellWrite};
use codec::Span;
use forward::{AskError, Filter};
use frame_reader::{FrameError, FrameReader};
use programs::put_all;
use std::io;
use std::io::Write;

// A reader of frames, and the writer that takes their payloads as lines. A payload that was asked for is held until it is passed.
#[derive(Drop)]
pub struct Unpacking<R: TellRead, W: TellWrite> {
    pub source: FrameReader<R>,
    pub target: BufWriter<W>,
    pub held: Option<Span>,
}

impl<R: TellRead, W: TellWrite> Filter for Unpacking<R, W> {
    type Wrong = InputFault;

    ghost rules = { piece_rules R.remaining unpacking };

    #[inline(always)]
    fn pass(&mut self) -> io::Result<bool> {
        if let Some(span) = self.held {
            put_all(&mut self.target, self.source.lent(span), b"\n")?;
            self.held = None;
            return Ok(true);
        }
        match self.source.next_buffered() {
            Some(payload) => {
                put_all(&mut self.target, payload, b"\n")?;
                Ok(true)
            }
            None => Ok(false),
        }
    }

    fn flush(&mut self) -> io::Result<()> {
        self.target.flush()
    }

    fn ask(&mut self) -> Result<bool, AskError<InputFault>> {
        let have = self.source.rest().len();
        match self.source.step() {
            Ok(Some(span)) => {
                self.held = Some(span);
                Ok(true)
            }
            Ok(None) => Ok(false),
            Err(FrameError::TooLong(_)) => Err(AskError::Wrong(InputFault::TooLong)),
            Err(FrameError::Truncated(_)) => Err(AskError::Wrong(InputFault::Truncated)),
            Err(FrameError::Io(e)) => Err(AskError::of_fault(e, self.source.rest().len() > have)),
        }
    }

    ghost lawful = { unpacking_lawful R.remaining };
}
