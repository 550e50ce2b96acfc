//! What the readers of pieces, of frames and of lines are asked by.
use crate::asks::Asks;
use buffer_redux::tell::TellRead;
use codec::{Decoder, NextError, PieceReader};
use frame_reader::{FrameError, FrameReader};
use line_reader::{LineError, LineReader};
use std::fmt::Debug;
use tests_common::{Log, Source, first};

// None of the calls below promises anything.
fn step<R: TellRead, D: Decoder>(reader: &mut PieceReader<R, D>, log: &mut Log) -> bool
where
    D::Wrong: Debug,
{
    match reader.step() {
        Ok(Some(span)) => log.note(reader.lent(span)),
        Ok(None) => log.note(b"end"),
        Err(NextError::Wrong(why)) => log.show_debug(&why),
        Err(NextError::Io(_)) => return true,
    }
    false
}

fn step_buffered<R: TellRead, D: Decoder>(reader: &mut PieceReader<R, D>, log: &mut Log) {
    match reader.step_buffered() {
        Some(span) => log.note(reader.lent(span)),
        None => log.note(b"none"),
    }
}

fn refill<R: TellRead, D: Decoder>(reader: &mut PieceReader<R, D>, log: &mut Log) -> bool {
    if !reader.rest().is_empty() {
        return true;
    }
    match reader.refill() {
        Ok(came) => log.show(&came),
        Err(_) => return true,
    }
    false
}

// Drops seven bytes.
fn skip<R: TellRead, D: Decoder>(reader: &mut PieceReader<R, D>) {
    if reader.rest().len() >= 7 {
        reader.skip(7);
    }
}

// Reads a byte of the stream itself.
fn past<R: TellRead>(stream: &mut R, log: &mut Log) -> bool {
    let mut out = [0; 1];
    match stream.read_told(&mut out) {
        Ok(count) => log.note(first(&out, count)),
        Err(_) => return true,
    }
    false
}

fn look<R: TellRead, D: Decoder>(reader: &PieceReader<R, D>, call: &[u8], log: &mut Log) {
    match call {
        b"r" => log.note(reader.rest()),
        b"s" => log.show(&reader.is_settled()),
        b"e" => log.show(&reader.has_ended()),
        _ => log.show(&reader.looked()),
    }
}

// By letters: `n`ext piece, the same if it is `b`uffered, a re`f`ill, the byte `p`ast the reader, a `d`rop of seven bytes, the
// `r`est, whether the next step is `s`ettled and the stream `e`nded, and how many bytes were `l`ooked at.
impl<D: Decoder> Asks for PieceReader<Source, D>
where
    D::Wrong: Debug,
{
    fn ask(&mut self, call: &[u8], log: &mut Log) -> bool {
        match call {
            b"n" => return step(self, log),
            b"b" => step_buffered(self, log),
            b"f" => return refill(self, log),
            b"p" => return past(self.get_mut(), log),
            b"d" => skip(self),
            _ => look(self, call, log),
        }
        false
    }

    fn asked(&self) -> usize {
        self.get_ref().get_ref().offers().len()
    }
}

fn next_frame<R: TellRead>(frames: &mut FrameReader<R>, log: &mut Log) -> bool {
    match frames.next() {
        Ok(Some(payload)) => log.note(payload),
        Ok(None) => log.note(b"end"),
        Err(FrameError::Io(_)) => return true,
        Err(why) => log.show_debug(&why),
    }
    false
}

fn look_at_frames<R: TellRead>(frames: &FrameReader<R>, call: &[u8], log: &mut Log) {
    match call {
        b"r" => log.note(frames.rest()),
        _ => log.show(&frames.has_frame()),
    }
}

// By letters: `n`ext frame, the `r`est, and whether the next frame is `s`ettled.
impl Asks for FrameReader<Source> {
    fn ask(&mut self, call: &[u8], log: &mut Log) -> bool {
        if call == b"n".as_slice() {
            return next_frame(self, log);
        }
        look_at_frames(self, call, log);
        false
    }

    fn asked(&self) -> usize {
        self.get_ref().get_ref().offers().len()
    }
}

fn note_line(answer: Result<Option<&[u8]>, LineError>, log: &mut Log) -> bool {
    match answer {
        Ok(Some(line)) => log.note(line),
        Ok(None) => log.note(b"end"),
        Err(LineError::Io(_)) => return true,
        Err(why) => log.show_debug(&why),
    }
    false
}

fn skip_line<R: TellRead>(lines: &mut LineReader<R>, log: &mut Log) -> bool {
    match lines.skip_line() {
        Ok(count) => log.show(&count),
        Err(_) => return true,
    }
    false
}

fn look_at_lines<R: TellRead>(lines: &LineReader<R>, call: &[u8], log: &mut Log) {
    match call {
        b"r" => log.note(lines.rest()),
        b"s" => log.show(&lines.has_line()),
        b"m" => log.show(&lines.max()),
        _ => log.show(&lines.is_skipping()),
    }
}

// By letters: `n`ext line, the same `t`rimmed, a line that is `d`ropped, the byte `p`ast the reader, the `r`est, whether the next
// line is `s`ettled, whether it is being s`k`ipped, and how many bytes it has at `m`ost.
impl Asks for LineReader<Source> {
    fn ask(&mut self, call: &[u8], log: &mut Log) -> bool {
        match call {
            b"n" => return note_line(self.next(), log),
            b"t" => return note_line(self.next_trimmed(), log),
            b"d" => return skip_line(self, log),
            b"p" => return past(self.get_mut(), log),
            _ => look_at_lines(self, call, log),
        }
        false
    }

    fn asked(&self) -> usize {
        self.get_ref().get_ref().offers().len()
    }
}
