use std::test::Fail;
use uses::records::there_and_back;

// Whether these are a record and one without bytes.
fn is_so(records: &[Vec<u8>]) -> bool {
    match records {
        [first, second] => first.as_slice() == b"two of them".as_slice() && second.is_empty(),
        _ => false,
    }
}

#[test]
fn records_come_back(rt: HostRuntime) -> Result<(), Fail> {
    let first = Vec::from_slice(rt.alloc(), b"two of them")?;
    let second = Vec::new(rt.alloc());
    let back = there_and_back(rt.alloc(), &[first, second])?;
    assert!(rt; is_so(back.as_slice()));
    Ok(())
}
