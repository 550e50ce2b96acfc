//! What several of these modules make. Nothing here promises anything.
use buffer_redux::BufReader;
use redux_script::Answer;
use std::alloc::Global;
use std::test::Fail;
use tests_common::{Source, reader, source};

/// A reader over a buffer of capacity 4 that holds the first bytes, and a source that gives the others by a script.
pub fn of_four(
    alloc: Global,
    held: &[u8],
    bytes: &[u8],
    script: &[Answer],
) -> Result<BufReader<Source>, Fail> {
    let source = source(alloc, bytes, script)?;
    Ok(reader(alloc, 4, held, source)?)
}
