//! Frames.
use buffer_redux::tell::Told;
use frame_reader::{FrameError, FrameReader, FrameWriter, WriteFrameError};
use std::test::Fail;

#[test]
fn frame_reader(rt: HostRuntime) -> Result<(), Fail> {
    let alloc = rt.alloc();
    let stream = Told::new(b"\x00\x02hi\x00\x00".as_slice());
    let mut reader = FrameReader::new(alloc, stream, 100)?;
    assert!(rt; matches!(reader.next(), Ok(Some(b"hi"))));
    assert!(rt; matches!(reader.next(), Ok(Some(b""))));
    assert!(rt; matches!(reader.next(), Ok(None)));
    Ok(drop(reader))
}

#[test]
fn frame_error(rt: HostRuntime) -> Result<(), Fail> {
    let alloc = rt.alloc();
    let mut reader = FrameReader::new(alloc, Told::new(b"\x00\x02h".as_slice()), 100)?;
    assert!(rt; matches!(reader.next(), Err(FrameError::Truncated(3))));
    assert!(rt; reader.rest() == b"\x00\x02h".as_slice());
    Ok(drop(reader))
}

#[test]
fn frame_writer(rt: HostRuntime) -> Result<(), Fail> {
    let alloc = rt.alloc();
    let mut writer = FrameWriter::new(alloc, Told::new(Vec::new(alloc)), 4)?;
    assert!(rt; writer.write_frame(b"hi").is_ok());
    writer.flush()?;
    assert!(rt; writer.get_ref().get_ref().as_slice() == b"\x00\x02hi".as_slice());
    Ok(drop(writer))
}

#[test]
fn write_frame_error(rt: HostRuntime) -> Result<(), Fail> {
    let alloc = rt.alloc();
    let mut writer = FrameWriter::new(alloc, Told::new(Vec::new(alloc)), 4)?;
    let refused = writer.write_frame(b"hello");
    assert!(rt; matches!(refused, Err(WriteFrameError::TooLong(5))));
    Ok(drop(writer))
}
