//! A stream whose bytes say where they stand.
use std::io;
use std::io::{Read, Seek, SeekFrom};

/// Each byte is the low part of its position, and positions go round.
#[derive(Debug, Drop)]
pub struct Positions {
    /// The position of the next byte.
    pub at: u64,
}

// The byte at this position.
fn byte_at(position: u64) -> u8 {
    (position % 256) as u8
}

impl Read for Positions {
    fn read(&mut self, buf: &mut [u8]) -> io::Result<usize> {
        for byte in buf.iter_mut() {
            *byte = byte_at(self.at);
            self.at = self.at.wrapping_add(1);
        }
        Ok(buf.len())
    }
}

impl Seek for Positions {
    fn seek(&mut self, to: SeekFrom) -> io::Result<u64> {
        self.at = match to {
            SeekFrom::Start(at) => at,
            SeekFrom::End(offset) => u64::MAX.wrapping_add_signed(offset),
            SeekFrom::Current(offset) => self.at.wrapping_add_signed(offset),
        };
        Ok(self.at)
    }
}
