use buffer_redux::BufWriter;
use buffer_redux::tell::Told;
use codec::{PieceReader, Served, serve};
use decoders::KindVarints;
use std::test::Fail;
use uses::echo::{Echo, echo_all};

#[test]
fn echoes_packets(rt: HostRuntime) -> Result<(), Fail> {
    let alloc = rt.alloc();
    let stream = Told::new(b"\x30\x02hi\xc0\0\0\0\x30\x03one".as_slice());
    let mut reader = PieceReader::new(alloc, stream, KindVarints { max: 100 })?;
    let mut writer = BufWriter::new(alloc, Told::new(Vec::new(alloc)))?;
    // A packet of kind 0 ends it; what stands behind goes on.
    let closed = matches!(
        serve(&mut Echo, &mut reader, &mut writer),
        Ok(Served::Closed)
    );
    let ended = matches!(echo_all(&mut reader, &mut writer), Ok(Served::End));
    drop(reader);
    let received = writer.get_ref().get_ref().as_slice()
        == b"\x30\x02hi\xc0\0\0\0\x30\x03one".as_slice();
    drop(writer);
    assert!(rt; closed && ended && received);
    Ok(())
}
