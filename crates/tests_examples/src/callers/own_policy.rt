use buffer_redux::tell::Told;
use std::alloc::Global;
use std::test::Fail;
use tests_common::{reader, reader_under};
use uses::own_policy::{HeaderFirst, sees_header};

// Whether sixteen bytes of these are in sight.
fn sees(alloc: Global, bytes: &[u8]) -> Result<bool, Fail> {
    let mut reader = reader_under(reader(alloc, 4, b"", Told::new(bytes))?, HeaderFirst);
    let seen = sees_header(&mut reader);
    drop(reader);
    Ok(seen?)
}

#[test]
fn sees_headers(rt: HostRuntime) -> Result<(), Fail> {
    assert!(rt; sees(rt.alloc(), b"sixteen bytes...")?);
    assert!(rt; !sees(rt.alloc(), b"fifteen bytes..")?);
    Ok(())
}
