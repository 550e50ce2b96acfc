//! What the writers of pieces and of frames are asked by.
use crate::asks::Asks;
use buffer_redux::tell::TellWrite;
use codec::{Encoder, PieceWriter, WritePieceError};
use frame_reader::{FrameWriter, WriteFrameError};
use redux_script::ScriptWriter;
use std::fmt::Debug;
use tests_common::{Log, Target};

// None of the calls below promises anything.
fn write<W: TellWrite, E: Encoder>(
    writer: &mut PieceWriter<W, E>,
    payload: &[u8],
    log: &mut Log,
) -> bool
where
    E::Refusal: Debug,
{
    match writer.write_piece(payload) {
        Ok(()) => {}
        Err(WritePieceError::Refused(why)) => log.show_debug(&why),
        Err(WritePieceError::Io(_)) => return true,
    }
    false
}

fn write_buffered<W: TellWrite, E: Encoder>(
    writer: &mut PieceWriter<W, E>,
    payload: &[u8],
    log: &mut Log,
)
where
    E::Refusal: Debug,
{
    match writer.write_buffered(payload) {
        Ok(taken) => log.show(&taken),
        Err(why) => log.show_debug(&why),
    }
}

fn write_frame<W: TellWrite>(frames: &mut FrameWriter<W>, payload: &[u8], log: &mut Log) -> bool {
    match frames.write_frame(payload) {
        Ok(()) => {}
        Err(WriteFrameError::Io(_)) => return true,
        Err(why) => log.show_debug(&why),
    }
    false
}

// What the stream took, and how often it was flushed.
fn note_taken(target: &ScriptWriter, log: &mut Log) {
    log.note(target.taken());
    log.note(b" ");
    log.show(&target.flushes());
}

fn past<W: TellWrite>(stream: &mut W, bytes: &[u8]) -> bool {
    stream.write_told(bytes).is_err()
}

// By letters: a `w`rite, the same where nobody is asked, `b`uffered, a `s`end, a `f`lush, a write `p`ast the writer, and what was
// `t`aken.
impl<E: Encoder> Asks for PieceWriter<Target, E>
where
    E::Refusal: Debug,
{
    fn ask(&mut self, call: &[u8], log: &mut Log) -> bool {
        match call {
            [b'w', payload @ ..] => return write(self, payload, log),
            [b'b', payload @ ..] => write_buffered(self, payload, log),
            [b's'] => return self.send().is_err(),
            [b'f'] => return self.flush().is_err(),
            [b'p', bytes @ ..] => return past(self.get_mut(), bytes),
            _ => note_taken(self.get_ref().get_ref(), log),
        }
        false
    }

    fn asked(&self) -> usize {
        self.get_ref().get_ref().offers().len()
    }
}

impl Asks for FrameWriter<Target> {
    fn ask(&mut self, call: &[u8], log: &mut Log) -> bool {
        match call {
            [b'w', payload @ ..] => return write_frame(self, payload, log),
            [b's'] => return self.send().is_err(),
            [b'f'] => return self.flush().is_err(),
            _ => note_taken(self.get_ref().get_ref(), log),
        }
        false
    }

    fn asked(&self) -> usize {
        self.get_ref().get_ref().offers().len()
    }
}
