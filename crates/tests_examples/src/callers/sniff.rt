use std::alloc::Global;
use std::io;
use std::io::Read;
use std::test::Fail;
use tests_common::read_to_end;
use uses::sniff::{Format, open};

const ROWS: [(&'static [u8], Format); 4] = [
    (b"\x1f\x8b and more", Format::Gzip),
    (b"PK\x03\x04", Format::Zip),
    (b"\x89PNG\r\n\x1a\n, then more than sixteen", Format::Png),
    (b"", Format::Other),
];

// The format of a stream, and what is then read of it.
fn opens<R: Read + Drop>(alloc: Global, from: R) -> io::Result<(Format, Vec<u8>)> {
    let mut all = Vec::new(alloc);
    let (format, mut rest) = open(alloc, from)?;
    let read = read_to_end(&mut rest, &mut all);
    drop(rest);
    read?;
    Ok((format, all))
}

#[test]
fn tells_formats(rt: HostRuntime) -> Result<(), Fail> {
    for (bytes, format) in ROWS {
        let (found, all) = opens(rt.alloc(), bytes)?;
        assert!(rt; found == format && all.as_slice() == bytes);
    }
    Ok(())
}
