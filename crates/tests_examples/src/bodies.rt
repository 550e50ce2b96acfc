//! Bodies of a length, and in the chunked coding.
use body_reader::{BodyReader, Sized};
use buffer_redux::tell::Told;
use buffer_redux::{BufReader, BufWriter};
use chunked::{
    Chunked, ChunkedError, ChunkedReader, ChunkedWriter, FinishError, Limits, Malformed,
    TrailersError,
};
use std::io;
use std::io::Write;
use std::test::Fail;

#[test]
fn body_reader(rt: HostRuntime) -> Result<(), Fail> {
    let alloc = rt.alloc();
    let reader = BufReader::new(alloc, Told::new(b"helloGET".as_slice()))?;
    let mut body = BodyReader::new(reader, Sized(5));
    let mut out = [0; 8];
    assert!(rt; matches!(body.read_payload(&mut out), Ok(5)));
    assert!(rt; matches!(body.read_payload(&mut out), Ok(0)));
    let rest = body.finish().map_err(|(_, e)| io::Error::from(e))?;
    assert!(rt; rest.buffer() == b"GET".as_slice());
    Ok(drop(rest))
}

#[test]
fn chunked_reader(rt: HostRuntime) -> Result<(), Fail> {
    let alloc = rt.alloc();
    let stream = Told::new(b"5\r\nhello\r\n0\r\n\r\nGET".as_slice());
    let limits = Limits {
        line: 64,
        trailers: 4096,
    };
    let mut body = ChunkedReader::new(BufReader::new(alloc, stream)?, Chunked(limits));
    let mut out = [0; 8];
    assert!(rt; matches!(body.read_payload(&mut out), Ok(5)));
    assert!(rt; matches!(body.read_payload(&mut out), Ok(0)));
    assert!(rt; body.is_done());
    assert!(rt; body.into_inner_torn().buffer() == b"GET".as_slice());
    Ok(())
}

#[test]
fn chunked_finish(rt: HostRuntime) -> Result<(), Fail> {
    let alloc = rt.alloc();
    let stream = Told::new(b"5\r\nhello\r\n0\r\n\r\nGET".as_slice());
    let limits = Limits {
        line: 64,
        trailers: 4096,
    };
    let mut body = ChunkedReader::new(BufReader::new(alloc, stream)?, Chunked(limits));
    let mut out = [0; 5];
    assert!(rt; matches!(body.read_payload(&mut out), Ok(5)));
    let rest = body.finish().map_err(|(_, e)| io::Error::from(e))?;
    assert!(rt; rest.buffer() == b"GET".as_slice());
    Ok(drop(rest))
}

#[test]
fn chunked_error(rt: HostRuntime) -> Result<(), Fail> {
    let alloc = rt.alloc();
    let stream = Told::new(b"5\r\nhello!\r\n".as_slice());
    let limits = Limits {
        line: 64,
        trailers: 4096,
    };
    let mut body = ChunkedReader::new(BufReader::new(alloc, stream)?, Chunked(limits));
    let mut out = [0; 8];
    assert!(rt; matches!(body.read_payload(&mut out), Ok(5)));
    let refused = body.read_payload(&mut out);
    assert!(rt;
        matches!(
            refused,
            Err(ChunkedError::Wrong(Malformed::ChunkTooLong, 8))
        )
    );
    Ok(drop(body))
}

#[test]
fn chunked_writer(rt: HostRuntime) -> Result<(), Fail> {
    let alloc = rt.alloc();
    let inner = BufWriter::new(alloc, Told::new(Vec::new(alloc)))?;
    let mut body = ChunkedWriter::new(inner);
    body.write_all(b"hello")?;
    let mut inner = body.finish().map_err(io::Error::from)?;
    inner.flush()?;
    assert!(rt; inner.get_ref().get_ref().as_slice() == b"5\r\nhello\r\n0\r\n\r\n".as_slice());
    Ok(())
}

#[test]
fn trailers(rt: HostRuntime) -> Result<(), Fail> {
    let alloc = rt.alloc();
    let inner = BufWriter::new(alloc, Told::new(Vec::new(alloc)))?;
    let mut body = ChunkedWriter::new(inner);
    body.write_all(b"hello")?;
    let trailers: [&[u8]; 2] = [b"Expires: never", b"Digest: 0"];
    let mut inner = body
        .finish_with_trailers(&trailers)
        .map_err(io::Error::from)?;
    inner.flush()?;
    assert!(rt;
        inner.get_ref().get_ref().as_slice()
            == b"5\r\nhello\r\n0\r\nExpires: never\r\nDigest: 0\r\n\r\n".as_slice()
    );
    Ok(())
}

#[test]
fn finish_error(rt: HostRuntime) -> Result<(), Fail> {
    let alloc = rt.alloc();
    let inner = BufWriter::new(alloc, Told::new(Vec::new(alloc)))?;
    let body = ChunkedWriter::new(inner);
    let refused = body.finish_with_trailers(&[b"Expires: never\n"]);
    assert!(rt; matches!(refused, Err(FinishError(_, TrailersError::NoField(0)))));
    Ok(())
}
