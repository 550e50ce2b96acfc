//! A buffer's own limit under a reader: the example of `Buffer::set_limit`.
ghost use Rattle.std.specs.Prelude.{◌≡◌, IfOk};

use buffer_redux::tell::{TellRead, Told};
use buffer_redux::{BufReader, Buffer, GrowError};
use std::alloc::Global;
use std::io::Read;
use std::test::Fail;

/// A reader of one connection. It grows to 65536 bytes at the most.
fn connection<R: Read + Drop>(alloc: Global, stream: R) -> Result<BufReader<Told<R>>, GrowError>
    ensures bounded { IfOk result (λ reader. reader.block.limit ≡ 65536) }
{
    let mut buf = Buffer::with_capacity(alloc, 4096)?;
    buf.set_limit(65536)?;
    Ok(BufReader::with_buffer(buf, Told::new(stream)))
}

// Whether so much room is granted, or else refused as too large.
fn grants<R: TellRead>(rdr: &mut BufReader<R>, length: usize) -> bool {
    !matches!(rdr.reserve(length), Err(GrowError::TooLarge))
}

// Whether a message of this length gets room. An empty buffer grows by all of it.
fn gets_room(alloc: Global, length: usize) -> Result<bool, GrowError> {
    Ok(grants(&mut connection(alloc, b"".as_slice())?, length))
}

#[test]
fn bounds_a_connection(rt: HostRuntime) -> Result<(), Fail> {
    assert!(rt; gets_room(rt.alloc(), 61440)? && !gets_room(rt.alloc(), 61441)?);
    Ok(())
}
