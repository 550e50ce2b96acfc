//! Streams that take no memory, so that a refusal is the library's own or the check's, and never a stream's.
use buffer_redux::tell::Told;
use std::io;
use std::io::{Cursor, Read};

/// Gives the bytes that are left, front first, and counts how often it is asked.
#[derive(Debug, Drop)]
pub struct Source<'a> {
    pub left: &'a [u8],
    pub asks: usize,
}

impl Read for Source<'_> {
    fn read(&mut self, out: &mut [u8]) -> io::Result<usize> {
        self.asks = self.asks.saturating_add(1);
        let n = out.len().min(self.left.len());
        let (given, left) = self.left.split_at(n);
        out[..n].copy_from_slice(given);
        self.left = left;
        Ok(n)
    }
}

/// A reader of these bytes.
pub fn reading(left: &[u8]) -> Told<Source<'_>> {
    Told::new(Source { left, asks: 0 })
}

/// A writer with room for 16 bytes.
pub type Sink = Told<Cursor<[u8; 16]>>;

pub fn empty_sink() -> Sink {
    Told::new(Cursor::new([0; 16]))
}

/// What it has taken.
pub fn taken(sink: &Sink) -> &[u8] {
    let cursor = sink.get_ref();
    let count = cursor.position().min(16) as usize;
    &cursor.get_ref()[..count]
}
