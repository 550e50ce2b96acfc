use std::test::Fail;
use uses::packed::packed;

#[test]
fn packs_records(rt: HostRuntime) -> Result<(), Fail> {
    let first = Vec::from_slice(rt.alloc(), b"two of them")?;
    let second = Vec::new(rt.alloc());
    let frames = packed(rt.alloc(), &[first, second])?;
    assert!(rt; frames.as_slice() == b"\0\x0btwo of them\0\0".as_slice());
    Ok(())
}
