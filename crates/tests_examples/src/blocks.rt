//! Buffers.
use buffer_redux::{Buffer, GrowError, RawBuf};
use std::test::Fail;

#[test]
fn buffer(rt: HostRuntime) -> Result<(), Fail> {
    let alloc = rt.alloc();
    let mut buffer = Buffer::with_capacity(alloc, 4)?;
    assert!(rt; buffer.copy_from_slice(b"abcdef") == 4);
    buffer.consume(1);
    assert!(rt; buffer.buf() == b"bcd".as_slice());
    assert!(rt; buffer.usable_space() == 0);
    buffer.make_room();
    assert!(rt; buffer.usable_space() == 1);
    Ok(drop(buffer))
}

#[test]
fn grow_error(rt: HostRuntime) -> Result<(), Fail> {
    let alloc = rt.alloc();
    let mut buffer = Buffer::with_capacity(alloc, 4)?;
    buffer.set_limit(6)?;
    assert!(rt; matches!(buffer.reserve(7), Err(GrowError::TooLarge)));
    assert!(rt; buffer.capacity() == 4);
    Ok(drop(buffer))
}

#[test]
fn raw_buf(rt: HostRuntime) -> Result<(), Fail> {
    let alloc = rt.alloc();
    let mut block = RawBuf::with_capacity(alloc, 2)?;
    block.as_mut_slice().copy_from_slice(b"ab");
    assert!(rt; block.as_slice() == b"ab".as_slice());
    Ok(drop(block))
}
