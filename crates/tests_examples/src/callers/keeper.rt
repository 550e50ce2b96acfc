use buffer_redux::BufWriter;
use buffer_redux::tell::Told;
use codec::{PieceReader, ServeError, Served, serve, serve_all};
use decoders::KindVarints;
use std::test::Fail;
use uses::keeper::{Keeper, NotKept};

#[test]
fn keeps_packets(rt: HostRuntime) -> Result<(), Fail> {
    let alloc = rt.alloc();
    let stream = Told::new(b"\x30\x02hi\x31\x04long\x32\x01x".as_slice());
    let mut reader = PieceReader::new(alloc, stream, KindVarints { max: 100 })?;
    let mut writer = BufWriter::new(alloc, Told::new(Vec::new(alloc)))?;
    let mut keeper = Keeper {
        kept: Vec::new(alloc),
        most: 5,
    };
    // There is no room for the second packet; what stands behind goes on.
    let full = matches!(
        serve(&mut keeper, &mut reader, &mut writer),
        Err(ServeError::Failed(NotKept::Full))
    );
    let ended = matches!(
        serve_all(&mut keeper, &mut reader, &mut writer),
        Ok(Served::End)
    );
    drop(reader);
    let received = writer.get_ref().get_ref().as_slice() == b"\x30\0\x32\0".as_slice();
    drop(writer);
    assert!(rt; full && ended && received && keeper.kept.as_slice() == b"hix".as_slice());
    Ok(drop(keeper))
}
