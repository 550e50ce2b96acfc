//! When the bytes of a ring move, as its head shows, which is printed.
use redux_buffer::SliceDequeBuf;
use std::alloc::{AllocError, Global};
use std::test::Fail;
use tests_common::debug;

#[derive(Clone, Copy)]
enum Step {
    // writes this byte to the whole tail, and takes so many of them in
    Take(u8, usize),
    // the same without writing to the tail
    Written(usize),
    Lend,
    Consume(usize),
}

fn take_step(ring: &mut SliceDequeBuf, step: Step) {
    match step {
        Step::Take(byte, count) => {
            ring.write_buf().fill(byte);
            ring.bytes_written(count);
        }
        Step::Written(count) => ring.bytes_written(count),
        Step::Lend => {
            let _ = ring.write_buf();
        }
        Step::Consume(amount) => ring.consume(amount),
    }
}

// A step, where the first byte then stands, how many there are, and how many can be written.
type Row = (Step, &'static str, usize, usize);

const EMPTIED: &'static [Row] = &[
    (Step::Take(7, 4096), "head: 0,", 4096, 0),
    (Step::Consume(4000), "head: 4000,", 96, 4000),
    (Step::Take(8, 4000), "head: 4000,", 4096, 0),
    (Step::Consume(4000), "head: 8000,", 96, 4000),
    (Step::Consume(96), "head: 0,", 0, 4096),
];

const WRITTEN_WITHOUT_A_LOAN: &'static [Row] = &[
    (Step::Take(7, 4096), "head: 0,", 4096, 0),
    (Step::Consume(4000), "head: 4000,", 96, 4000),
    (Step::Take(8, 4000), "head: 4000,", 4096, 0),
    (Step::Consume(4000), "head: 8000,", 96, 4000),
    (Step::Written(1), "head: 0,", 97, 3999),
];

// A head exactly at the capacity is not past it: the next loan moves nothing. One byte further it does.
const AT_THE_CAPACITY: &'static [Row] = &[
    (Step::Take(8, 4096), "head: 0,", 4096, 0),
    (Step::Consume(4000), "head: 4000,", 96, 4000),
    (Step::Take(8, 4000), "head: 4000,", 4096, 0),
    (Step::Consume(96), "head: 4096,", 4000, 96),
    (Step::Lend, "head: 4096,", 4000, 96),
    (Step::Consume(1), "head: 4097,", 3999, 97),
    (Step::Lend, "head: 0,", 3999, 97),
    (Step::Consume(3999), "head: 0,", 0, 4096),
];

// 16384 bytes in takes of all that fits, with a consume of 4000 behind each. The third and the fifth take move 96 bytes each.
const TAKES: &'static [Row] = &[
    (Step::Take(9, 4096), "head: 0,", 4096, 0),
    (Step::Consume(4000), "head: 4000,", 96, 4000),
    (Step::Take(9, 4000), "head: 4000,", 4096, 0),
    (Step::Consume(4000), "head: 8000,", 96, 4000),
    (Step::Take(9, 4000), "head: 0,", 4096, 0),
    (Step::Consume(4000), "head: 4000,", 96, 4000),
    (Step::Take(9, 4000), "head: 4000,", 4096, 0),
    (Step::Consume(4000), "head: 8000,", 96, 4000),
    (Step::Take(9, 288), "head: 0,", 384, 3712),
    (Step::Consume(4000), "head: 0,", 0, 4096),
];

// Steps, and the bytes in front at their end.
type Walk = (&'static [Row], &'static [u8]);

static WALKS: [Walk; 4] = [
    (EMPTIED, &[]),
    (WRITTEN_WITHOUT_A_LOAN, &[8; 96]),
    (AT_THE_CAPACITY, &[]),
    (TAKES, &[]),
];

// Whether the ring is so behind this step.
fn is_so(alloc: Global, ring: &mut SliceDequeBuf, row: &Row) -> Result<bool, AllocError> {
    let &(step, head, len, usable) = row;
    take_step(ring, step);
    let text = debug(alloc, ring)?;
    Ok(text.contains(head) && (ring.len(), ring.usable_space()) == (len, usable))
}

// Behind how many steps of a walk the ring is another, if it is, or the bytes in front at its end.
fn wrong_behind(alloc: Global, walk: &Walk) -> Result<Option<usize>, Fail> {
    let &(rows, front) = walk;
    let mut ring = SliceDequeBuf::with_capacity(alloc, 4096)?;
    for (at, row) in rows.iter().enumerate() {
        if !is_so(alloc, &mut ring, row)? {
            return Ok(Some(at));
        }
    }
    Ok((!ring.buf().starts_with(front)).then_some(rows.len()))
}

#[test]
fn heads(rt: HostRuntime) -> Result<(), Fail> {
    for walk in &WALKS {
        let wrong = wrong_behind(rt.alloc(), walk)?;
        assert!(rt; wrong.is_none(), "at {wrong:?}");
    }
    Ok(())
}
