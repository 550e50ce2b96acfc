//! Printing answers.
ghost use Rattle.std.specs.Prelude.{◌≡◌, IfOk, string_bytes, codes};
ghost use Rattle.std.specs.Io.{StartsWith};
ghost use Rattle.replay.specs.Answers.{PrintsReaderAnswer, PrintsWriterAnswer, refusal_text};

use crate::watched::Noted;
use crate::words::kind_name;
use buffer_redux::{Buffer, GrowError};
use redux_play::play::{ReaderAnswer, WriterAnswer};
use std::alloc::{AllocError, Global};
use std::io::ErrorKind;

// How many bytes are printed in hex at most.
const MOST_IN_HEX: usize = 64;

/// What a call of a reader returned, as a word.
pub fn reader_word(alloc: Global, answer: ReaderAnswer) -> Result<String, AllocError>
    ensures { IfOk result (λ text. PrintsReaderAnswer answer (string_bytes text)) }
{
    match answer {
        ReaderAnswer::Count(n) => format!(in alloc; "C{n}"),
        ReaderAnswer::Shown(n) => format!(in alloc; "S{n}"),
        ReaderAnswer::Done => String::from_str(alloc, "D"),
        ReaderAnswer::Fault(kind) => fault_word(alloc, kind),
        ReaderAnswer::Refused(e) => String::from_str(alloc, refusal_word(e)),
    }
}

/// What a call of a writer returned, as a word.
pub fn writer_word(alloc: Global, answer: WriterAnswer) -> Result<String, AllocError>
    ensures { IfOk result (λ text. PrintsWriterAnswer answer (string_bytes text)) }
{
    match answer {
        WriterAnswer::Count(n) => format!(in alloc; "C{n}"),
        WriterAnswer::Done => String::from_str(alloc, "D"),
        WriterAnswer::Fault(kind) => fault_word(alloc, kind),
        WriterAnswer::Refused(e) => String::from_str(alloc, refusal_word(e)),
    }
}

fn fault_word(alloc: Global, kind: ErrorKind) -> Result<String, AllocError>
    ensures { IfOk result (λ text. StartsWith (string_bytes text) (codes "E:")) }
{
    let mut text = String::from_str(alloc, "E:")?;
    text.push_str(kind_name(kind))?;
    Ok(text)
}

/// Why a buffer could not be made or could not grow, as a word.
pub fn refusal_word(e: GrowError) -> &'static str
    ensures { result.now ≡ refusal_text e }
{
    match e {
        GrowError::TooLarge => "X:TooLarge",
        GrowError::Memory => "X:Memory",
    }
}

/// Adds bytes: in hex, of many their number and their hash, and `-` for none.
pub fn push_bytes(text: &mut String, bytes: &[u8]) -> Result<(), AllocError> {
    if bytes.is_empty() {
        return text.push_str("-");
    }
    let count = bytes.len();
    if count > MOST_IN_HEX {
        let hash = hash(bytes);
        return write!(text, "#{count}:{hash:016x}");
    }
    for byte in bytes {
        write!(text, "{byte:02x}")?;
    }
    Ok(())
}

// The hash FNV-1a of 64 bits.
fn hash(bytes: &[u8]) -> u64 {
    let mut hash: u64 = 0xcbf29ce484222325;
    for byte in bytes {
        hash = (hash ^ u64::from(*byte)).wrapping_mul(0x100000001b3);
    }
    hash
}

/// Adds, behind the words of all calls, what is buffered, and what the stream inside was asked.
pub fn push_state(text: &mut String, buffer: &Buffer, notes: &[Noted]) -> Result<(), AllocError> {
    if text.is_empty() {
        text.push_str("- ")?;
    }
    let len = buffer.len();
    let usable = buffer.usable_space();
    let capacity = buffer.capacity();
    write!(text, "| {len} {usable} {capacity} ")?;
    push_bytes(text, buffer.buf())?;
    text.push_str(" |")?;
    push_notes(text, notes)
}

// Adds how many bytes each read or write was offered and `f` for each flush, or `-` for none.
fn push_notes(text: &mut String, notes: &[Noted]) -> Result<(), AllocError> {
    if notes.is_empty() {
        return text.push_str(" -");
    }
    for note in notes {
        match *note {
            Noted::Bytes(n) => write!(text, " {n}")?,
            Noted::Flush => text.push_str(" f")?,
        }
    }
    Ok(())
}
