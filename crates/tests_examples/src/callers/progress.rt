use buffer_redux::tell::{TellBufRead, TellWrite, Told};
use std::alloc::Global;
use std::io;
use std::test::Fail;
use tests_common::{reader, writer};
use uses::progress::copy_with_progress;

// How many bytes went over, how often that was told, and what at last.
fn copies<B: TellBufRead, W: TellWrite>(from: &mut B, to: &mut W) -> io::Result<(u64, u32, u64)> {
    let mut calls = 0u32;
    let mut last = 0;
    let copied = copy_with_progress(from, to, |total| {
        calls = calls.wrapping_add(1);
        last = total;
    })?;
    Ok((copied, calls, last))
}

fn copies_to<W: TellWrite>(alloc: Global, to: &mut W) -> Result<(u64, u32, u64), Fail> {
    let mut from = reader(alloc, 4, b"", Told::new(b"ten bytes.".as_slice()))?;
    let told = copies(&mut from, to);
    drop(from);
    Ok(told?)
}

#[test]
fn tells_its_progress(rt: HostRuntime) -> Result<(), Fail> {
    let mut to = writer(rt.alloc(), 8, b"", Told::new(Vec::new(rt.alloc())))?;
    assert!(rt; copies_to(rt.alloc(), &mut to)? == (10, 3, 10));
    Ok(())
}
