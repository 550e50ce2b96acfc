//! What is given as it goes over, chunk by chunk.
ghost use Rattle.bodies.specs.Encoding.{encoding_rules};
ghost use Rattle.bodies.specs.EncodingLaws.{encoding_lawful};

use crate::fault::InputFault;
use buffer_redux::BufReader;
use buffer_redux::tell::{TellRead, TellWrite};
use chunked::ChunkedWriter;
use forward::{AskError, Filter};
use std::io;
use std::io::{BufRead, Write};

// A reader, and the writer of the body that takes in what it gives.
#[derive(Drop)]
pub struct Encoding<R: TellRead, W: TellWrite> {
    pub source: BufReader<R>,
    pub target: ChunkedWriter<W>,
}

impl<R: TellRead, W: TellWrite> Filter for Encoding<R, W> {
    type Wrong = InputFault;

    ghost rules = { encoding_rules W.trace };

    #[inline(always)]
    fn pass(&mut self) -> io::Result<bool> {
        if self.source.buffer().is_empty() {
            return Ok(false);
        }
        let count = self.target.write(self.source.buffer())?;
        self.source.consume(count);
        Ok(true)
    }

    fn flush(&mut self) -> io::Result<()> {
        self.target.flush()
    }

    #[inline(always)]
    fn ask(&mut self) -> Result<bool, AskError<InputFault>> {
        // Says that the reader is whole.
        let _ = self.source.buffer();
        match self.source.read_into_buf() {
            Ok(0) => Ok(false),
            Ok(_) => Ok(true),
            Err(e) => Err(AskError::Io(e)),
        }
    }

    ghost lawful = { encoding_lawful W.trace W.trace_none W.trace_joins };
}
