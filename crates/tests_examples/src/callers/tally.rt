use buffer_redux::BufReader;
use buffer_redux::tell::Told;
use std::alloc::Global;
use std::io;
use std::test::Fail;
use uses::tally::count_pieces;

// How many lines a text has.
fn pieces(alloc: Global, text: &[u8]) -> io::Result<u64> {
    let mut reader = BufReader::with_capacity(alloc, 4, Told::new(text))?;
    count_pieces(alloc, &mut reader)
}

#[test]
fn counts_pieces(rt: HostRuntime) -> Result<(), Fail> {
    assert!(rt; pieces(rt.alloc(), b"one\ntwo\n\nand no end")? == 4);
    Ok(())
}
