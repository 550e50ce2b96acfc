//! What the scripted stream inside a reader or a writer was asked, and what it took. These promise nothing either.
use crate::makers::{Source, Target};
use buffer_redux::{BufReader, BufWriter, LineWriter};

/// How many bytes each read of the source was offered.
pub fn asked<P>(reader: &BufReader<Source, P>) -> &[usize] {
    reader.get_ref().get_ref().offers()
}

/// How many bytes each write of the target was offered.
pub fn offered<P>(writer: &BufWriter<Target, P>) -> &[usize] {
    writer.get_ref().get_ref().offers()
}

/// What the target took.
pub fn taken<P>(writer: &BufWriter<Target, P>) -> &[u8] {
    writer.get_ref().get_ref().taken()
}

/// What the target of a writer of lines took.
pub fn taken_lines(lines: &LineWriter<Target>) -> &[u8] {
    lines.get_ref().get_ref().taken()
}

/// How often the target was flushed.
pub fn flushes<P>(writer: &BufWriter<Target, P>) -> usize {
    writer.get_ref().get_ref().flushes()
}
