//! Readers that are read by a trait alone.
use buffer_redux::tell::Told;
use std::alloc::Global;
use std::io::BufRead;
use std::test::Fail;
use tests_common::reader;

// All bytes up to and with the first `end`, or all that are left, by the trait alone.
fn read_until<R: BufRead>(alloc: Global, rdr: &mut R, end: u8) -> Result<Vec<u8>, Fail> {
    let mut all = Vec::new(alloc);
    for _ in 0..u64::MAX {
        let Some(&byte) = rdr.fill_buf()?.first() else {
            break;
        };
        all.push(byte)?;
        rdr.consume(1);
        if byte == end {
            break;
        }
    }
    Ok(all)
}

// The bytes that a buffer of this capacity reads, and what comes up to each of these.
type Row = (usize, &'static [u8], &'static [(u8, &'static [u8])]);

static ROWS: [Row; 3] = [
    (
        2,
        &[0, 1, 2, 1, 0],
        &[(0, &[0]), (2, &[1, 2]), (1, &[1]), (8, &[0]), (9, &[])],
    ),
    (
        2,
        b"a\nb\nc",
        &[(10, b"a\n"), (10, b"b\n"), (10, b"c"), (10, b"")],
    ),
    (5, b"to be read, whole", &[(10, b"to be read, whole")]),
];

// Whether a reader hands out these parts.
fn cuts<R: BufRead>(alloc: Global, rdr: &mut R, parts: &[(u8, &[u8])]) -> Result<bool, Fail> {
    for &(end, part) in parts {
        if read_until(alloc, rdr, end)?.as_slice() != part {
            return Ok(false);
        }
    }
    Ok(true)
}

fn cuts_by_row(alloc: Global, row: &Row) -> Result<bool, Fail> {
    let &(capacity, bytes, parts) = row;
    let mut rdr = reader(alloc, capacity, &[], Told::new(bytes))?;
    cuts(alloc, &mut rdr, parts)
}

#[test]
fn up_to_a_byte(rt: HostRuntime) -> Result<(), Fail> {
    for row in &ROWS {
        assert!(rt; cuts_by_row(rt.alloc(), row)?);
    }
    Ok(())
}
