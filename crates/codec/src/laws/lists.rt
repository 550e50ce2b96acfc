//! Lists of payloads, written and read again.
ghost use Rattle.std.specs.Prelude.{◌≡◌, ◌⊎◌, map, Ok, IfOk, IfErr, OnOk};
ghost use Rattle.std.specs.List.{All};
ghost use Rattle.codec.specs.Encoding.{all_coded};
ghost use Rattle.piece_reader.specs.KnownPieces.{BufferRefused};
ghost use Rattle.piece_reader.specs.Texts.{HasPieces};
ghost use Rattle.codec.specs.ReadsBack.{ReadsBack};
ghost use Rattle.codec.specs.WriteRuns.{IfFault, IfRefused, IsFault, RefusesOne};

use crate::both::{Codec, written_text};
use crate::encoder::Encoder;
use crate::error::WritePieceError;
use crate::laws::known::read_each;
use crate::laws::runs::write_each;
use crate::writer::PieceWriter;
use buffer_redux::tell::{MemoryReader, MemoryWriter};
use piece_reader::{Decoder, PieceReader};
use std::alloc::Global;
use std::io;

/// Payloads that are written and flushed are read again, each of them whole, in order, and no other: what was written, and the
/// payloads that were read of it. A `Refused` is why one of them isn't taken, and an `Io` is want of memory, or of a buffer for
/// the pieces, which no memory holds.
pub fn round_trip<C: Codec + Copy>(
    alloc: Global,
    codec: C,
    payloads: &[Vec<u8>],
) -> Result<(Vec<u8>, Vec<Vec<u8>>), WritePieceError<C::Refusal>>
    ensures written { IfOk result (λ both. both.0.items ≡ all_coded (C.encoding codec) (map (λ v. v.items) payloads.now)) }
    ensures same { IfOk result (λ both. map (λ v. v.items) both.1.items ≡ map (λ v. v.items) payloads.now) }
    ensures read { IfOk result (λ both. ReadsBack (C.grammar codec) codec both.0.items (map (λ v. v.items) payloads.now)) }
    ensures fit { OnOk result (All (C.encoding codec).takes (map (λ v. v.items) payloads.now)) }
    ensures fault { IfErr result (λ e. All (C.encoding codec).takes (map (λ v. v.items) payloads.now) → IsFault e) }
    ensures reason { IfErr result (IfRefused (RefusesOne (C.encoding codec) (map (λ v. v.items) payloads.now))) }
    ensures refused { IfErr result (IfFault (λ e.
        BufferRefused (C.encoding codec).most e ⊎ BufferRefused (C.grammar codec).most e)) }
{
    let bytes = written(alloc, codec, payloads)?;
    written_text(&codec);
    let read = read_back(alloc, codec, bytes.as_slice(), payloads)?;
    Ok((bytes, read))
}

// The pieces of the payloads.
fn written<E: Encoder>(
    alloc: Global,
    encoder: E,
    payloads: &[Vec<u8>],
) -> Result<Vec<u8>, WritePieceError<E::Refusal>>
    ensures fit { OnOk result (All (E.encoding encoder).takes (map (λ v. v.items) payloads.now)) }
    ensures fault { IfErr result (λ e. All (E.encoding encoder).takes (map (λ v. v.items) payloads.now) → IsFault e) }
    ensures reason { IfErr result (IfRefused (RefusesOne (E.encoding encoder) (map (λ v. v.items) payloads.now))) }
    ensures refused { IfErr result (IfFault (BufferRefused (E.encoding encoder).most)) }
    ensures pieces { IfOk result (λ bytes.
        bytes.items ≡ all_coded (E.encoding encoder) (map (λ v. v.items) payloads.now)) }
{
    let inner = MemoryWriter::new(alloc);
    let mut writer = PieceWriter::new(alloc, inner, encoder).map_err(io::Error::from)?;
    let wrote = write_each(&mut writer, payloads);
    // What it tells is what the stream inside tells, which says why that failed.
    let _ = writer.get_ref();
    match wrote {
        Ok(()) => {}
        Err(e) => return Err(e.error),
    }
    match writer.into_inner() {
        Ok(inner) => Ok(inner.into_vec()),
        Err(e) => Err(WritePieceError::Io(e.into_error())),
    }
}

// The payloads of the pieces, which are known to be these.
fn read_back<D: Decoder>(
    alloc: Global,
    decoder: D,
    bytes: &[u8],
    payloads: &[Vec<u8>],
) -> io::Result<Vec<Vec<u8>>>
    requires pieces { HasPieces (D.grammar decoder) bytes.now (map (λ v. v.items) payloads.now) }
    ensures same { IfOk result (λ kept. map (λ v. v.items) kept.items ≡ map (λ v. v.items) payloads.now) }
    ensures read { OnOk result (ReadsBack (D.grammar decoder) decoder bytes.now (map (λ v. v.items) payloads.now)) }
    ensures refused { IfErr result (BufferRefused (D.grammar decoder).most) }
{
    let mut reader = PieceReader::new(alloc, MemoryReader::new(bytes), decoder)?;
    let read = read_each(alloc, &mut reader, payloads);
    let _ = reader.get_ref();
    read
}
