use buffer_redux::BufReader;
use buffer_redux::tell::Told;
use std::test::Fail;
use uses::line_count::count_lines;

#[test]
fn counts_lines(rt: HostRuntime) -> Result<(), Fail> {
    let text = b"one\ntwo\n\nand no end".as_slice();
    let mut reader = BufReader::with_capacity(rt.alloc(), 4, Told::new(text))?;
    let count = count_lines(&mut reader);
    drop(reader);
    assert!(rt; count? == 3);
    Ok(())
}
