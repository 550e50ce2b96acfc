//! Records of up to 65535 bytes, each behind two bytes that are its length, written and read again.
ghost use Rattle.std.specs.Prelude.{◌≡◌, [], ◌∷◌, IfOk, OnOk, IfSome, MatchOption, length, map, vec_items};
ghost use Rattle.std.specs.Io.KnownBytes.{Appends, Consumes, IsAtEnd};
ghost use Rattle.std.specs.Int.{w16, to_be_bytes};
ghost use Rattle.uses.specs.Records.{with_length, with_lengths, IsShort, AreShort};

use buffer_redux::BufReader;
use buffer_redux::tell::Told;
use std::alloc::Global;
use std::io;
use std::io::{BufRead, ErrorKind, Read, Write};

// Writes one record behind what the writer holds. After an `Err` that may be a part of it.
fn write_record<W: Write>(writer: &mut W, bytes: &[u8]) -> io::Result<()>
    requires short { IsShort bytes.now }
    ensures { OnOk result (Appends (W.contents writer.old) (W.contents writer.new) (with_length bytes.now)) }
{
    writer.write_all(&(bytes.len() as u16).to_be_bytes())?;
    writer.write_all(bytes)
}

/// Writes all records, one behind the other, and hands the writer back.
///
/// An `Err` may come within a record, and what is written behind a part of one would be taken for its payload: so the writer
/// is dropped. `FrameWriter` of the crate `frame_reader` tears no frame, and can go on.
pub fn write_records<W: Write + Drop>(writer: W, records: &[Vec<u8>]) -> io::Result<W>
    requires short { AreShort records.now }
    ensures { IfOk result (λ w. Appends (W.contents writer) (W.contents w) (with_lengths records.now)) }
{
    let mut writer = writer;
    for bytes in records {
        write_record(&mut writer, bytes.as_slice())?;
    }
    Ok(writer)
}

// The next record, or none at the end. An `Err` may have taken the length and a part of the payload, so no other record is
// read behind it.
fn read_record<R: BufRead>(alloc: Global, reader: &mut R) -> io::Result<Option<Vec<u8>>>
    ensures { IfOk result (λ next. MatchOption next (IsAtEnd (R.remaining reader.old)) (λ v.
        IsShort (vec_items v) × Consumes (R.remaining reader.old) (R.remaining reader.new) (with_length (vec_items v)))) }
{
    if reader.fill_buf()?.is_empty() {
        return Ok(None);
    }
    let len = read_len(reader)?;
    Ok(Some(read_bytes(alloc, reader, usize::from(len))?))
}

/// All records up to the end.
///
/// An `Err` may come within a record, where the next call would take payload for a length: so the reader is given away.
/// `FrameReader` of the crate `frame_reader` can be asked again.
pub fn read_records<R: BufRead + Drop>(alloc: Global, reader: R) -> io::Result<Vec<Vec<u8>>>
    ensures short { IfOk result (λ v. AreShort (vec_items v)) }
    ensures all { IfOk result (λ v. IfSome (R.remaining reader) (λ xs. xs ≡ with_lengths (vec_items v))) }
{
    let mut reader = reader;
    let mut records = Vec::new(alloc);
    for _turn in 0..u64::MAX {
        match read_record(alloc, &mut reader)? {
            None => return Ok(records),
            Some(bytes) => records.push(bytes)?,
        }
    }
    Err(io::Error::from(ErrorKind::Other))
}

/// Records that were written come back as they were.
#[tactic(auto, using(crate::proofs::FrameState::frames_same))]
pub fn there_and_back(alloc: Global, records: &[Vec<u8>]) -> io::Result<Vec<Vec<u8>>>
    requires short { AreShort records.now }
    ensures { IfOk result (λ v. map vec_items (vec_items v) ≡ map vec_items records.now) }
{
    let held = write_records(Vec::new(alloc), records)?;
    read_records(alloc, BufReader::new(alloc, Told::new(held.as_slice()))?)
}

// The length of the next record.
fn read_len<R: Read>(reader: &mut R) -> io::Result<u16>
    ensures { IfOk result (λ n. Consumes (R.remaining reader.old) (R.remaining reader.new) (to_be_bytes w16 n)) }
{
    let mut head = [0u8; 2];
    reader.read_exact(&mut head)?;
    Ok(number_of(head[0], head[1]))
}

// The number that two bytes tell.
fn number_of(high: u8, low: u8) -> u16
    ensures { to_be_bytes w16 result ≡ high ∷ low ∷ [] }
{
    u16::from_be_bytes([high, low])
}

// The next `len` bytes.
fn read_bytes<R: Read>(alloc: Global, reader: &mut R, len: usize) -> io::Result<Vec<u8>>
    ensures len { IfOk result (λ v. length (vec_items v) ≡ len) }
    ensures bytes { IfOk result (λ v. Consumes (R.remaining reader.old) (R.remaining reader.new) (vec_items v)) }
{
    let mut bytes = Vec::from_elem(alloc, 0u8, len)?;
    reader.read_exact(bytes.as_mut_slice())?;
    Ok(bytes)
}
