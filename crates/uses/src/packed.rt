//! Packs records through a buffered writer into a vector, which holds just their frames in the end.
ghost use Rattle.std.specs.Prelude.{◌≡◌, true, OnOk, IfOk, IfErr, vec_items};
ghost use Rattle.buffer_redux.specs.Buffered.{InnerWent};
ghost use Rattle.buffer_redux.specs.Faults.{IsMemory};
ghost use Rattle.buffer_redux.specs.BufWriter.{FrontAlong, LeavesCapacity, WritesInOrder, WriterStopped};
ghost use Rattle.uses.specs.Records.{with_length, with_lengths, AreShort, IsShort, WritesRecord};

use buffer_redux::BufWriter;
use buffer_redux::policy::WriterPolicy;
use buffer_redux::tell::{MemoryWriter, TellWrite};
use std::alloc::Global;
use std::io;
use std::io::Write;

/// The frames of all records. It fails for want of memory alone.
pub fn packed(alloc: Global, records: &[Vec<u8>]) -> io::Result<Vec<u8>>
    requires short { AreShort records.now }
    ensures with_lengths { IfOk result (λ v. vec_items v ≡ with_lengths records.now) }
    ensures memory { IfErr result IsMemory }
{
    let mut writer = BufWriter::new(alloc, MemoryWriter::new(alloc))?;
    for bytes in records {
        pack_record(&mut writer, bytes.as_slice())?;
    }
    Ok(writer.into_inner()?.into_vec())
}

/// Writes one record. Its frame then stands behind what the writer received before, there or in its buffer, and isn't flushed.
/// An `Err` may leave a beginning of it there, as of `write_record`: write nothing more behind it.
pub fn pack_record<W: TellWrite, P: WriterPolicy>(
    writer: &mut BufWriter<W, P>,
    bytes: &[u8],
) -> io::Result<()>
    requires short { IsShort bytes.now }
    ensures packed { OnOk result (WritesInOrder writer.old (with_length bytes.now) writer.new) }
    ensures caused { (P.rules.claims writer.old.policy).steady ≡ true
        → IfErr result (WriterStopped writer.old.log.writes writer.new.log.writes) }
    ensures flushes { writer.new.log.writes.flushes ≡ writer.old.log.writes.flushes }
    ensures capacity { LeavesCapacity P.rules → writer.new.block.capacity ≡ writer.old.block.capacity }
    ensures front { FrontAlong W.log W.trace P.rules writer.old (with_length bytes.now) result writer.new }
    ensures went { InnerWent W.log W.trace writer.old writer.new }
    ensures writes { WritesRecord W.log W.trace P.rules writer.old bytes.now result writer.new }
{
    writer.write_all(&(bytes.len() as u16).to_be_bytes())?;
    writer.write_all(bytes)
}
