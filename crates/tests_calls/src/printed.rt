//! What is printed of buffers, of readers and writers, of policies, and of a refusal.
use buffer_redux::policy::{
    FlushAtLeast, FlushExact, FlushOn, FlushOnNewline, MinBuffered, StdPolicy,
};
use buffer_redux::tell::Told;
use buffer_redux::{BufReader, Count, GrowError};
use std::alloc::{AllocError, Global};
use std::fmt::Debug;
use std::test::Fail;
use tests_common::{display, holding, line_writer, reader, reader_under, shown};

fn prints<T: Debug + Drop>(alloc: Global, value: T, text: &str) -> Result<bool, AllocError> {
    Ok(shown(alloc, value)?.as_str() == text)
}

#[test]
fn refusals(rt: HostRuntime) -> Result<(), Fail> {
    for (error, text) in [
        (GrowError::TooLarge, "the needed capacity passes the limit"),
        (GrowError::Memory, "out of memory"),
    ] {
        assert!(rt; display(rt.alloc(), &error)?.as_str() == text);
    }
    Ok(())
}

// A count, which contracts alone see, has nothing to print.
fn counted() -> Count {
    let mut count = Count::zero();
    count.add(7);
    count
}

// Policies by default, and a count.
#[test]
fn policies(rt: HostRuntime) -> Result<(), Fail> {
    let flushing = (
        FlushAtLeast::default(),
        FlushExact::default(),
        FlushOn::default(),
    );
    let others = (StdPolicy::default(), FlushOnNewline::default(), counted());
    let text = "(FlushAtLeast(0), FlushExact(0), FlushOn(0))";
    assert!(rt; prints(rt.alloc(), flushing, text)?);
    assert!(rt; prints(rt.alloc(), others, "(StdPolicy, FlushOnNewline, Count)")?);
    Ok(())
}

// A reader of one byte that is buffered, and one behind it.
fn reader_of_two(alloc: Global) -> Result<BufReader<Told<&'static [u8]>>, GrowError> {
    reader(alloc, 4, &[1], Told::new([2].as_slice()))
}

#[test]
fn buffers(rt: HostRuntime) -> Result<(), Fail> {
    let alloc = rt.alloc();
    let text = "buffer_redux::Buffer { capacity: 4, len: 1 }";
    assert!(rt; prints(alloc, holding(alloc, 4, &[7])?, text)?);
    let text =
        "buffer_redux::BufReader { reader: Told { stream: [2] }, buf_len: 1, capacity: 4, policy: MinBuffered(2) }";
    assert!(rt;
        prints(
            alloc,
            reader_under(reader_of_two(alloc)?, MinBuffered(2)),
            text
        )?
    );
    let text = "buffer_redux::Unbuffer { inner: Told { stream: [2] }, left: 1 }";
    assert!(rt; prints(alloc, reader_of_two(alloc)?.unbuffer(), text)?);
    let text =
        "LineWriter { writer: buffer_redux::BufWriter { writer: Told { stream: [] }, buf_len: 3, capacity: 4, \
policy: FlushOnNewline } }";
    let lines = line_writer(alloc, 4, b"a\nb", Told::new(Vec::new(alloc)))?;
    assert!(rt; prints(alloc, lines, text)?);
    Ok(())
}
