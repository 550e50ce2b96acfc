//! What a write does under each policy.
ghost use Rattle.std.specs.Prelude.{◌≡◌, ◌<◌, length, max, IfOk, OnOk};
ghost use Rattle.buffer_redux.specs.BufWriter.{WriterKeeps, Writes};
ghost use Rattle.buffer_redux.specs.LineWriter.{line_rules};
ghost use Rattle.redux_play.specs.WroteExactly.{EachTook, WroteExactly};
ghost use Rattle.buffer_redux.specs.WriterPolicies.{at_least_rules, exact_rules, flush_on_rules};
ghost use Rattle.redux_play.specs.WriterPolicyLaws.{SendsExactly};
ghost use Rattle.buffer_redux.specs.ReadUntil.{Lacks};

use buffer_redux::policy::{FlushAtLeast, FlushExact, FlushOn, FlushOnNewline, WriterPolicy};
use buffer_redux::{BufWriter, LineWriter};
use redux_buffer::tell::TellWrite;
use std::io;
use std::io::Write;

/// An Ok write returns what the inner writer took of all the bytes, where nothing is buffered after the first flush and
/// they fill the capacity, and else the smaller of their number and the space at the copy. What was buffered then stays,
/// without what the last flush sent: all that the policy ordered, where that didn't fail, and else what the inner writer
/// took of it.
pub fn write_law<W: TellWrite, P: WriterPolicy>(
    writer: &mut BufWriter<W, P>,
    bytes: &[u8],
) -> io::Result<usize>
    ensures exactly { IfOk result (λ n. WroteExactly P.rules writer.old bytes.now n writer.new) }
    ensures steps { Writes P.rules writer.old bytes.now result writer.new }
    ensures keeps { WriterKeeps W.log W.trace P.rules writer.old writer.new }
{
    writer.write(bytes)
}

/// An Ok write under [`FlushOn`] leaves no such byte, where each write of the inner writer took something.
pub fn flush_on_law<W: TellWrite>(
    writer: &mut BufWriter<W, FlushOn>,
    bytes: &[u8],
) -> io::Result<usize>
    ensures none_left { OnOk result (EachTook writer.old.log.writes writer.new.log.writes
        → Lacks writer.old.policy.0 writer.new.block.bytes) }
    ensures policy { writer.new.policy ≡ writer.old.policy }
    ensures steps { Writes (flush_on_rules (λ p. p.0)) writer.old bytes.now result writer.new }
    ensures keeps { WriterKeeps W.log W.trace (flush_on_rules (λ p. p.0)) writer.old writer.new }
{
    writer.write(bytes)
}

/// An Ok write under [`FlushOnNewline`] leaves no byte 10, where each write of the inner writer took something.
pub fn flush_on_newline_law<W: TellWrite>(
    writer: &mut BufWriter<W, FlushOnNewline>,
    bytes: &[u8],
) -> io::Result<usize>
    ensures none_left { OnOk result (EachTook writer.old.log.writes writer.new.log.writes
        → Lacks 10 writer.new.block.bytes) }
    ensures policy { writer.new.policy ≡ writer.old.policy }
    ensures steps { Writes (flush_on_rules (λ p. 10)) writer.old bytes.now result writer.new }
    ensures keeps { WriterKeeps W.log W.trace (flush_on_rules (λ p. 10)) writer.old writer.new }
{
    writer.write(bytes)
}

/// An Ok write of a [`LineWriter`] leaves no newline, the byte 10, where each write of the inner writer took something.
pub fn line_law<W: TellWrite>(writer: &mut LineWriter<W>, bytes: &[u8]) -> io::Result<usize>
    ensures none_left { OnOk result (EachTook writer.old.log.writes writer.new.log.writes
        → Lacks 10 writer.new.block.bytes) }
    ensures steps { Writes line_rules writer.old bytes.now result writer.new }
    ensures keeps { WriterKeeps W.log W.trace line_rules writer.old writer.new }
{
    writer.write(bytes)
}

/// An Ok write under [`FlushAtLeast`] leaves fewer bytes than its number, and none where that is 0, where each write of
/// the inner writer took something.
pub fn flush_at_least_law<W: TellWrite>(
    writer: &mut BufWriter<W, FlushAtLeast>,
    bytes: &[u8],
) -> io::Result<usize>
    ensures few_left { OnOk result (EachTook writer.old.log.writes writer.new.log.writes
        → length writer.new.block.bytes < max writer.old.policy.0 1) }
    ensures policy { writer.new.policy ≡ writer.old.policy }
    ensures steps { Writes (at_least_rules (λ p. p.0)) writer.old bytes.now result writer.new }
    ensures keeps { WriterKeeps W.log W.trace (at_least_rules (λ p. p.0)) writer.old writer.new }
{
    writer.write(bytes)
}

/// An Ok write under [`FlushExact`] sends its number of bytes or none before it takes bytes in, and so after it, where that
/// flush doesn't fail: it doesn't where each write of the inner writer took something.
pub fn flush_exact_law<W: TellWrite>(
    writer: &mut BufWriter<W, FlushExact>,
    bytes: &[u8],
) -> io::Result<usize>
    ensures sent { IfOk result (λ k.
        SendsExactly (exact_rules (λ p. p.0)) writer.old.policy.0 writer.old bytes.now k writer.new) }
    ensures policy { writer.new.policy ≡ writer.old.policy }
    ensures steps { Writes (exact_rules (λ p. p.0)) writer.old bytes.now result writer.new }
    ensures keeps { WriterKeeps W.log W.trace (exact_rules (λ p. p.0)) writer.old writer.new }
{
    writer.write(bytes)
}
