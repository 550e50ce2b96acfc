//! The examples of the documentation.
use crate::packets::Packets;
use buffer_redux::tell::Told;
use codec::{
    ByHeader, ByScan, ByTextHeader, Delimited, NextError, NotPlain, PieceReader, PieceWriter,
    Terminated, TooLong, Trimmed, WritePieceError,
};
use decoders::{BulkStrings, Lengths, Netstrings, Order, Width};
use messages::{Requests, Stop};
use std::io;
use std::io::ErrorKind;
use std::test::Fail;

#[test]
fn next_error(rt: HostRuntime) -> Result<(), Fail> {
    let alloc = rt.alloc();
    let lines = Delimited { end: b'\n', max: 4 };
    let mut reader = PieceReader::new(alloc, Told::new(b"too long\n".as_slice()), lines)?;
    assert!(rt; matches!(reader.next(), Err(NextError::Wrong(TooLong(4)))));
    assert!(rt; reader.rest() == b"too long\n".as_slice());
    Ok(drop(reader))
}

#[test]
fn write_piece_error(rt: HostRuntime) -> Result<(), Fail> {
    let alloc = rt.alloc();
    let lines = Delimited { end: b'\n', max: 4 };
    let mut writer = PieceWriter::new(alloc, Told::new(Vec::new(alloc)), lines)?;
    let refused = writer.write_piece(b"a\nb");
    assert!(rt; matches!(refused, Err(WritePieceError::Refused(NotPlain::HasEnd))));
    Ok(drop(writer))
}

#[test]
fn terminated(rt: HostRuntime) -> Result<(), Fail> {
    let alloc = rt.alloc();
    let end = Vec::from_slice(alloc, b"\r\n\r\n")?;
    let heads = Terminated { end, max: 100 };
    let stream = Told::new(b"a\r\nb\r\n\r\nc".as_slice());
    let mut reader = PieceReader::new(alloc, stream, heads)?;
    assert!(rt; matches!(reader.next(), Ok(Some(b"a\r\nb"))));
    assert!(rt; matches!(reader.next(), Ok(Some(b"c"))));
    assert!(rt; matches!(reader.next(), Ok(None)));
    Ok(drop(reader))
}

#[test]
fn delimited(rt: HostRuntime) -> Result<(), Fail> {
    let alloc = rt.alloc();
    let lines = Delimited { end: b'\n', max: 9 };
    let mut reader = PieceReader::new(alloc, Told::new(b"one\n\nlast".as_slice()), lines)?;
    assert!(rt; matches!(reader.next(), Ok(Some(b"one"))));
    assert!(rt; reader.has_piece());
    assert!(rt; matches!(reader.next(), Ok(Some(b""))));
    assert!(rt; !reader.has_piece());
    assert!(rt; matches!(reader.next(), Ok(Some(b"last"))));
    assert!(rt; matches!(reader.next(), Ok(None)));
    Ok(drop(reader))
}

#[test]
fn trimmed(rt: HostRuntime) -> Result<(), Fail> {
    let alloc = rt.alloc();
    let lines = Trimmed(Delimited { end: b'\n', max: 9 });
    let mut reader = PieceReader::new(alloc, Told::new(b"one\r\ntwo\n\r".as_slice()), lines)?;
    assert!(rt; matches!(reader.next(), Ok(Some(b"one"))));
    assert!(rt; matches!(reader.next(), Ok(Some(b"two"))));
    assert!(rt; matches!(reader.next(), Ok(Some(b"\r"))));
    assert!(rt; matches!(reader.next(), Ok(None)));
    Ok(drop(reader))
}

#[test]
fn piece_reader(rt: HostRuntime) -> Result<(), Fail> {
    let alloc = rt.alloc();
    let lines = Delimited { end: b'\n', max: 9 };
    let mut reader = PieceReader::new(alloc, Told::new(b"hi\n".as_slice()), lines)?;
    let shown = match reader.step()? {
        Some(span) => reader.lent(span),
        None => b"".as_slice(),
    };
    assert!(rt; shown == b"hi".as_slice());
    Ok(drop(reader))
}

#[test]
fn piece_writer(rt: HostRuntime) -> Result<(), Fail> {
    let alloc = rt.alloc();
    let lines = Delimited { end: b'\n', max: 9 };
    let mut writer = PieceWriter::new(alloc, Told::new(Vec::new(alloc)), lines)?;
    assert!(rt; writer.write_piece(b"hi").is_ok());
    writer.flush()?;
    assert!(rt; writer.get_ref().get_ref().as_slice() == b"hi\n".as_slice());
    Ok(drop(writer))
}

#[test]
fn netstrings(rt: HostRuntime) -> Result<(), Fail> {
    let alloc = rt.alloc();
    let netstrings = ByHeader(ByScan(ByTextHeader(Netstrings { max: 100 })));
    let stream = Told::new(b"2:hi,0:,".as_slice());
    let mut reader = PieceReader::new(alloc, stream, netstrings)?;
    assert!(rt; matches!(reader.next(), Ok(Some(b"hi"))));
    assert!(rt; matches!(reader.next(), Ok(Some(b""))));
    assert!(rt; matches!(reader.next(), Ok(None)));
    Ok(drop(reader))
}

#[test]
fn bulk_strings(rt: HostRuntime) -> Result<(), Fail> {
    let alloc = rt.alloc();
    let strings = ByHeader(ByScan(ByTextHeader(BulkStrings { max: 100 })));
    let stream = Told::new(b"$2\r\nhi\r\n".as_slice());
    let mut reader = PieceReader::new(alloc, stream, strings)?;
    assert!(rt; matches!(reader.next(), Ok(Some(b"hi"))));
    assert!(rt; matches!(reader.next(), Ok(None)));
    Ok(drop(reader))
}

#[test]
fn lengths(rt: HostRuntime) -> Result<(), Fail> {
    let alloc = rt.alloc();
    let lengths = Lengths {
        width: Width::Two,
        order: Order::BigEndian,
        max: 100,
    };
    let stream = Told::new(b"\x00\x02hi\x00\x00".as_slice());
    let mut reader = PieceReader::new(alloc, stream, ByHeader(lengths))?;
    assert!(rt; matches!(reader.next(), Ok(Some(b"hi"))));
    assert!(rt; matches!(reader.next(), Ok(Some(b""))));
    assert!(rt; matches!(reader.next(), Ok(None)));
    Ok(drop(reader))
}

#[test]
fn packets(rt: HostRuntime) -> Result<(), Fail> {
    let alloc = rt.alloc();
    let stream = Told::new(b"0006a\n0005b".as_slice());
    let mut reader = PieceReader::new(alloc, stream, ByHeader(ByScan(Packets)))?;
    assert!(rt; matches!(reader.next(), Ok(Some(b"a\n"))));
    assert!(rt; matches!(reader.next(), Ok(Some(b"b"))));
    assert!(rt; matches!(reader.next(), Ok(None)));
    Ok(drop(reader))
}

#[test]
fn requests(rt: HostRuntime) -> Result<(), Fail> {
    let alloc = rt.alloc();
    let stream = b"PUT / HTTP/1.1\r\nHost: a\r\nContent-Length: 5\r\n\r\nhello".as_slice();
    let requests = Requests::new(alloc, Told::new(stream))?;
    let mut body = requests
        .next()
        .map_err(|_| io::Error::from(ErrorKind::Other))?;
    let mut out = [0; 8];
    assert!(rt; matches!(body.read(&mut out), Ok(5)));
    let requests = body
        .finish()
        .map_err(|_| io::Error::from(ErrorKind::Other))?;
    assert!(rt; matches!(requests.next(), Err((_, Stop::Ended))));
    Ok(())
}
