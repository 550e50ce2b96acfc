use std::io::ErrorKind;
use std::test::Fail;
use tests_common::kind;
use uses::int_lines::numbers_in;

#[test]
fn reads_numbers(rt: HostRuntime) -> Result<(), Fail> {
    let numbers = numbers_in(rt.alloc(), b"1\r\n+22\n18446744073709551615")?;
    assert!(rt; matches!(numbers.as_slice(), [1, 22, 18446744073709551615]));
    let answer = numbers_in(rt.alloc(), b"1\n-1\n");
    assert!(rt; matches!(kind(answer), Err(ErrorKind::InvalidData)));
    Ok(())
}
