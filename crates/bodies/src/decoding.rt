//! The payload of a body as it goes over, piece by piece.
ghost use Rattle.std.specs.Prelude.{◌≡◌, ◌≤◌, ◌⊎◌, length, take};
ghost use Rattle.buffer_redux.specs.Policy.{std_read_rules};
ghost use Rattle.body_reader.specs.BodyReader.{BodyWent, IsBodyReader};
ghost use Rattle.chunked.specs.Coding.{chunked};
ghost use Rattle.bodies.specs.Decoding.{HoldsPiece, LooksOn, MayDecode, NoneBuffered, ask_error, decoding_rules};
ghost use Rattle.bodies.specs.DecodingLaws.{decoding_lawful};

use crate::fault::InputFault;
use buffer_redux::BufWriter;
use buffer_redux::tell::{TellRead, TellWrite};
use chunked::{ChunkedError, ChunkedReader};
use forward::{AskError, Filter};
use programs::put_all;
use std::io;
use std::io::Write;

// How many bytes of payload go over at a time at most, and of a body in one read.
pub const PIECE: usize = 16384;

// How many bytes that are buffered go over at a time at most. The C library copies fewer than 8192 by a loop, and more by one
// instruction, which takes longer here.
const HELD: usize = 8191;

// A body, and the writer that takes its payload. The first bytes of `piece` were read, and not passed on.
#[derive(Drop)]
pub struct Decoding<R: TellRead, W: TellWrite> {
    pub source: ChunkedReader<R>,
    pub target: BufWriter<W>,
    pub piece: Vec<u8>,
    pub held: usize,
}

impl<R: TellRead, W: TellWrite> Filter for Decoding<R, W> {
    type Wrong = InputFault;

    ghost rules = { decoding_rules R.remaining };

    #[inline(always)]
    fn pass(&mut self) -> io::Result<bool> {
        hold(self);
        if self.held == 0 {
            return Ok(false);
        }
        put_all(&mut self.target, &self.piece.as_slice()[..self.held], b"")?;
        self.held = 0;
        Ok(true)
    }

    fn flush(&mut self) -> io::Result<()> {
        self.target.flush()
    }

    #[inline(always)]
    fn ask(&mut self) -> Result<bool, AskError<InputFault>> {
        let taken = self.source.taken();
        match self.source.read_payload(self.piece.as_mut_slice()) {
            Ok(0) => {
                let came = self.source.taken() > taken;
                ask_behind(&mut self.source, came)
            }
            Ok(count) => {
                self.held = count;
                Ok(true)
            }
            Err(e) => Err(ask_error(e, self.source.taken() > taken)),
        }
    }

    ghost lawful = { decoding_lawful R.remaining };
}

// Holds a piece of what is buffered, where none is held.
#[inline(always)]
fn hold<R: TellRead, W: TellWrite>(filter: &mut Decoding<R, W>)
    requires { MayDecode filter.old }
    ensures { HoldsPiece R.remaining filter.old filter.new }
{
    if filter.held == 0 {
        filter.held = read_held(&mut filter.source, filter.piece.as_mut_slice());
    }
}

// Hands out payload that is buffered, as the first bytes of the piece.
#[inline(always)]
fn read_held<R: TellRead>(source: &mut ChunkedReader<R>, piece: &mut [u8]) -> usize
    requires { length piece.old ≡ PIECE }
    ensures went { BodyWent R.remaining std_read_rules (chunked source.old.coding.0) source.old (take result piece.new)
        source.new }
    ensures told { source.new.reader.log ≡ source.old.reader.log }
    ensures bound { result ≤ length piece.new }
    ensures all { (result ≡ HELD) ⊎ NoneBuffered source.new }
    ensures whole { IsBodyReader (chunked source.new.coding.0) source.new }
{
    source.read_buffered(&mut piece[..HELD])
}

// Asks whether the stream ends with the body, of which bytes came in this ask or none: nothing may follow.
#[inline(always)]
fn ask_behind<R: TellRead>(
    source: &mut ChunkedReader<R>,
    came: bool,
) -> Result<bool, AskError<InputFault>>
    ensures { LooksOn R.remaining source.old came result source.new }
{
    let at_end = source.is_at_end();
    // Says that the buffer is whole.
    let _ = source.get_ref().buffer();
    match at_end {
        Ok(true) => Ok(false),
        Ok(false) => Err(AskError::Wrong(InputFault::Behind(source.taken()))),
        Err(e) => Err(AskError::of_fault(e, came)),
    }
}

// Why no payload came, as a filter says it.
#[inline(always)]
fn ask_error(e: ChunkedError, came: bool) -> AskError<InputFault>
    ensures { result ≡ ask_error came e }
{
    match e {
        ChunkedError::Wrong(why, right) => AskError::Wrong(InputFault::NotChunked(why, right)),
        ChunkedError::Truncated(right) => AskError::Wrong(InputFault::Truncated(right)),
        ChunkedError::Io(e) => AskError::of_fault(e, came),
    }
}
