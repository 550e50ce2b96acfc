//! Cases of calls that go on until all is done, or that std makes of others.
use std::io;
use std::io::{Read, Write};

/// How many turns of so many bytes come to as many as `least`.
pub fn turns(least: u64, length: u64) -> u64 {
    if length == 0 {
        return 0;
    }
    least.div_ceil(length)
}

#[inline(never)]
pub fn each_byte<R: Read + Drop>(reader: R) -> io::Result<u64> {
    let mut reader = reader;
    let mut byte = [0u8; 1];
    let mut total = 0u64;
    for _ in 0..u64::MAX {
        let n = reader.read(&mut byte)?;
        if n == 0 {
            break;
        }
        total = total.wrapping_add(n as u64);
    }
    Ok(total)
}

// The last bytes are added up, so that no compiler leaves the words out.
#[inline(never)]
pub fn exact_to_end<R: Read + Drop>(reader: R, least: u64) -> io::Result<u64> {
    let mut reader = reader;
    let mut word = [0u8; 8];
    let mut sum = 0u8;
    let turns = turns(least, 8);
    for _ in 0..turns {
        reader.read_exact(&mut word)?;
        sum = sum.wrapping_add(word[7]);
    }
    let total = turns.wrapping_mul(8);
    if sum == 255 {
        return Ok(total.wrapping_add(1));
    }
    Ok(total)
}

#[inline(never)]
pub fn write_all_often<W: Write + Drop>(writer: W, piece: &[u8], least: u64) -> io::Result<u64> {
    let mut writer = writer;
    let length = piece.len() as u64;
    let turns = turns(least, length);
    for _ in 0..turns {
        writer.write_all(piece)?;
    }
    writer.flush()?;
    Ok(turns.wrapping_mul(length))
}

// A line of 21 bytes, with a number of 7 digits in it.
#[inline(never)]
pub fn format_often<W: Write + Drop>(writer: W, least: u64) -> io::Result<u64> {
    let mut writer = writer;
    let name = "value";
    let turns = turns(least, 21);
    for at in 0..turns {
        let number = 1000000u64.wrapping_add(at);
        write!(writer, "{name} {number}: {name}\n")?;
    }
    writer.flush()?;
    Ok(turns.wrapping_mul(21))
}
