//! Payloads that are written and read again.
ghost use Rattle.std.specs.Prelude.{◌≡◌, map, IfOk, IfErr, OnOk};
ghost use Rattle.std.specs.List.{All};
ghost use Rattle.buffer_redux.specs.Faults.{IsMemory};
ghost use Rattle.codec.specs.WriteRuns.{IfFault, IfRefused, IsFault, RefusesOne};
ghost use Rattle.frame_reader.specs.Framed.{framed_out};
ghost use Rattle.frame_reader.specs.Frames.{Fits, frames};
ghost use Rattle.frame_reader.specs.WriteFrame.{piece_refused};

use crate::error::WriteFrameError;
use crate::frame::Frames;
use codec::WritePieceError;
use std::alloc::Global;

/// Payloads that are written and flushed are read again, each of them whole, in order, and no other: the frames that were
/// written, and the payloads that were read of them. A `TooLong` has the length of one that doesn't fit, and an `Io` is want
/// of memory.
pub fn round_trip(
    alloc: Global,
    payloads: &[Vec<u8>],
    max: u16,
) -> Result<(Vec<u8>, Vec<Vec<u8>>), WriteFrameError>
    ensures written { IfOk result (λ both. both.0.items ≡ frames (map (λ v. v.items) payloads.now)) }
    ensures same { IfOk result (λ both. map (λ v. v.items) both.1.items ≡ map (λ v. v.items) payloads.now) }
    ensures fit { OnOk result (All (Fits max) (map (λ v. v.items) payloads.now)) }
    ensures fault { IfErr result (λ e. All (Fits max) (map (λ v. v.items) payloads.now) → IsFault (piece_refused e)) }
    ensures reason { IfErr result (λ e.
        IfRefused (RefusesOne (framed_out max) (map (λ v. v.items) payloads.now)) (piece_refused e)) }
    ensures memory { IfErr result (λ e. IfFault IsMemory (piece_refused e)) }
{
    match codec::laws::round_trip(alloc, Frames { max }, payloads) {
        Ok(both) => Ok(both),
        Err(e) => Err(unwritten(e)),
    }
}

// Why a frame was not taken in.
fn unwritten(e: WritePieceError<usize>) -> WriteFrameError
    ensures { piece_refused result ≡ e }
{
    match e {
        WritePieceError::Refused(len) => WriteFrameError::TooLong(len),
        WritePieceError::Io(e) => WriteFrameError::Io(e),
    }
}
