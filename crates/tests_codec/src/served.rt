//! Pieces of several kinds, and steps before which a writer is flushed.
use buffer_redux::BufWriter;
use buffer_redux::tell::{TellRead, TellWrite, Told};
use codec::{
    AnswerError, ByFirst, ByHeader, ByScan, ByTextHeader, Delimited, Ended, Items, PieceReader,
    Served, Service, Terminated, Trimmed, fetch, fetch_item, serve, write_answer,
};
use decoders::{BulkStrings, KindVarints, Netstrings, NullableStrings, Resp, RespItem};
use redux_script::Answer;
use std::alloc::Global;
use std::convert::Infallible;
use std::io;
use std::io::{ErrorKind, Write};
use std::test::Fail;
use tests_common::{Source, Target, flushes, source, target, writer};

#[test]
fn fetched(rt: HostRuntime) -> Result<(), Fail> {
    let alloc = rt.alloc();
    let lines = Delimited { end: b'\n', max: 9 };
    let mut reader = PieceReader::new(alloc, Told::new(b"one\n".as_slice()), lines)?;
    let mut writer = BufWriter::new(alloc, Told::new(Vec::new(alloc)))?;
    if let Ok(Some(span)) = fetch(&mut reader, &mut writer)? {
        writer.write_all(reader.lent(span))?;
    }
    assert!(rt; matches!(fetch(&mut reader, &mut writer)?, Ok(None)));
    assert!(rt; writer.get_ref().get_ref().as_slice() == b"one".as_slice());
    drop(writer);
    Ok(drop(reader))
}

#[test]
fn by_first(rt: HostRuntime) -> Result<(), Fail> {
    let alloc = rt.alloc();
    let mixed = ByFirst {
        byte: b'$',
        one: ByHeader(ByScan(ByTextHeader(BulkStrings { max: 9 }))),
        other: Delimited { end: b'\n', max: 9 },
    };
    let stream = Told::new(b"one\n$2\r\nhi\r\n".as_slice());
    let mut reader = PieceReader::new(alloc, stream, mixed)?;
    assert!(rt; matches!(reader.step_item(), Ok(Some((false, _)))));
    assert!(rt; matches!(reader.step_item(), Ok(Some((true, _)))));
    Ok(drop(reader))
}

#[test]
fn nullable(rt: HostRuntime) -> Result<(), Fail> {
    let alloc = rt.alloc();
    let strings = ByHeader(ByScan(NullableStrings { max: 100 }));
    let stream = Told::new(b"$2\r\nhi\r\n$-1\r\n".as_slice());
    let mut reader = PieceReader::new(alloc, stream, strings)?;
    assert!(rt; matches!(reader.next(), Ok(Some(b"hi"))));
    assert!(rt; matches!(reader.next(), Ok(Some(b""))));
    assert!(rt; matches!(reader.next(), Ok(None)));
    Ok(drop(reader))
}

#[test]
fn packets(rt: HostRuntime) -> Result<(), Fail> {
    let alloc = rt.alloc();
    let stream = Told::new(b"\x30\x02hi\xc0\x00".as_slice());
    let mut reader = PieceReader::new(alloc, stream, KindVarints { max: 300 })?;
    assert!(rt; matches!(reader.step_item(), Ok(Some((0x30, _)))));
    assert!(rt; matches!(reader.step_item(), Ok(Some((0xc0, _)))));
    assert!(rt; matches!(reader.step_item(), Ok(None)));
    Ok(drop(reader))
}

#[test]
fn resp(rt: HostRuntime) -> Result<(), Fail> {
    let alloc = rt.alloc();
    let stream = Told::new(b"*2\r\n$4\r\nECHO\r\n$-1\r\n".as_slice());
    let mut reader = PieceReader::new(alloc, stream, Resp { max: 100 })?;
    assert!(rt; matches!(reader.step_item(), Ok(Some((RespItem::Array(Some(2)), _)))));
    let is_echo = match reader.step_item()? {
        Some((item, span)) => item == RespItem::Bulk && reader.lent(span) == b"ECHO".as_slice(),
        None => false,
    };
    assert!(rt; is_echo);
    assert!(rt; matches!(reader.step_item(), Ok(Some((RespItem::Null, _)))));
    assert!(rt; matches!(reader.step_item(), Ok(None)));
    Ok(drop(reader))
}

// What a stream of replies answers, and whether a request is fetched then, of which another is buffered.
static FETCHES: [(&[Answer], bool); 2] = [
    (&[], true),
    (&[Answer::Fail(ErrorKind::TimedOut)], false),
];

fn requests(alloc: Global) -> io::Result<PieceReader<Source, Resp>> {
    let stream = source(alloc, b"PING\r\n+OK\r\n", &[])?;
    Ok(PieceReader::new(alloc, stream, Resp { max: 9 })?)
}

// What the request that is fetched is.
fn item_of(
    reader: &mut PieceReader<Source, Resp>,
    writer: &mut BufWriter<Target>,
) -> Option<RespItem> {
    let (item, _) = fetch_item(reader, writer).ok()?.ok()??;
    Some(item)
}

// What the request that is buffered is.
fn buffered<R: TellRead>(reader: &mut PieceReader<R, Resp>) -> Option<RespItem> {
    let (item, _) = reader.step_item_buffered()?;
    Some(item)
}

// The stream is asked once, behind a flush that was Ok.
fn is_fetched(alloc: Global, script: &[Answer], fetched: bool) -> io::Result<bool> {
    let mut writer = writer(alloc, 9, b"x", target(alloc, script)?)?;
    let mut reader = requests(alloc)?;
    let none = buffered(&mut reader).is_none();
    let found = item_of(&mut reader, &mut writer) == Some(RespItem::Inline);
    let next = buffered(&mut reader) == Some(RespItem::Simple);
    let asked = reader.get_ref().get_ref().offers().len() == usize::from(fetched);
    drop(reader);
    let flushed = flushes(&writer) == usize::from(fetched);
    drop(writer);
    Ok(none && asked && flushed && (found, next) == (fetched, fetched))
}

#[test]
fn fetches_items(rt: HostRuntime) -> Result<(), Fail> {
    for &(script, fetched) in &FETCHES {
        assert!(rt; is_fetched(rt.alloc(), script, fetched)?);
    }
    Ok(())
}

// Answers each piece by its payload, as a line.
#[derive(Drop)]
struct Repeats;

impl<D: Items> Service<D> for Repeats {
    ghost use Rattle.std.specs.Prelude.{◌≡◌, [], ◌∷◌, ◌++◌};
    ghost use Rattle.codec.specs.Answering.{NeverFails};

    type Failure = Infallible;

    ghost answers = { λ _ _ payload reply _ _. reply ≡ payload ++ 10 ∷ [] };

    ghost fails = { NeverFails };

    fn answer<W: TellWrite>(
        &mut self,
        _item: D::Item,
        payload: &[u8],
        writer: &mut BufWriter<W>,
    ) -> Result<bool, AnswerError<Infallible>> {
        write_answer(writer, &[payload, b"\n"], true)
    }
}

// Whether two pieces of a stream are repeated.
fn is_repeated<D: Items>(alloc: Global, decoder: D, stream: &[u8]) -> io::Result<bool> {
    let mut reader = PieceReader::new(alloc, Told::new(stream), decoder)?;
    let mut writer = BufWriter::new(alloc, Told::new(Vec::new(alloc)))?;
    let ended = matches!(
        serve(&mut Repeats, &mut reader, &mut writer),
        Ok(Served::End)
    );
    drop(reader);
    let repeated = writer.get_ref().get_ref().as_slice() == b"one\ntwo\n".as_slice();
    drop(writer);
    Ok(ended && repeated)
}

#[test]
fn serves_ready_decoders(rt: HostRuntime) -> Result<(), Fail> {
    let alloc = rt.alloc();
    let commands = Ended(Trimmed(Delimited { end: b'\n', max: 9 }));
    assert!(rt; is_repeated(alloc, commands, b"one\r\ntwo\n")?);
    let end = Vec::from_slice(alloc, b"--")?;
    assert!(rt; is_repeated(alloc, Terminated { end, max: 9 }, b"one--two--")?);
    let netstrings = ByHeader(ByScan(ByTextHeader(Netstrings { max: 9 })));
    assert!(rt; is_repeated(alloc, netstrings, b"3:one,3:two,")?);
    Ok(())
}
