//! The blocks that a buffer is made of, by worked examples.
use redux_buffer::{BufImpl, GrowError, RawBuf, SliceDequeBuf, StdBuf};
use std::alloc::Global;
use std::test::Fail;

// More is never written than fits.
#[test]
fn plain_block(rt: HostRuntime) -> Result<(), Fail> {
    let mut plain = StdBuf::with_capacity(rt.alloc(), 4)?;
    let is_empty = plain.check_cursors();
    plain.bytes_written(1);
    let one = (plain.len(), plain.usable_space());
    plain.bytes_written(18446744073709551615);
    assert!(rt; is_empty && one == (1, 3) && (plain.len(), plain.usable_space()) == (4, 0));
    Ok(())
}

// What passes every limit is refused, and changes nothing.
#[test]
fn raw_block(rt: HostRuntime) -> Result<(), Fail> {
    let mut raw = RawBuf::with_capacity(rt.alloc(), 4)?;
    raw.as_mut_slice().fill(7);
    let is_refused = matches!(raw.reserve(4611686018427387901), Err(GrowError::TooLarge));
    assert!(rt; is_refused && !raw.reserve_in_place(1) && raw.as_slice() == [7; 4].as_slice());
    Ok(())
}

// How many bytes are held and can be written behind a full block of which two are dropped, and then behind room that is made; and
// whether those that are held can be written over.
type Came = (usize, usize, usize, bool);

fn of_plain(b: &mut StdBuf) -> Came {
    b.write_buf().fill(7);
    b.bytes_written(8192);
    b.consume(2);
    let space = b.usable_space();
    b.make_room();
    let held = b.buf().ends_with(&[7]);
    b.buf_mut().fill(8);
    let is_over = held && b.buf().ends_with(&[8]);
    (b.len(), space, b.usable_space(), is_over)
}

fn of_ring(b: &mut SliceDequeBuf) -> Came {
    b.write_buf().fill(7);
    b.bytes_written(8192);
    b.consume(2);
    let space = b.usable_space();
    b.make_room();
    let held = b.buf().ends_with(&[7]);
    b.buf_mut().fill(8);
    let is_over = held && b.buf().ends_with(&[8]);
    (b.len(), space, b.usable_space(), is_over)
}

fn of_either(b: &mut BufImpl) -> Came {
    b.write_buf().fill(7);
    b.bytes_written(8192);
    b.consume(2);
    let space = b.usable_space();
    b.make_room();
    let held = b.buf().ends_with(&[7]);
    b.buf_mut().fill(8);
    let is_over = held && b.buf().ends_with(&[8]);
    (b.len(), space, b.usable_space(), is_over)
}

// The same of one in a `BufImpl`, which knows its kind.
fn of_kind(alloc: Global, ring: bool) -> Result<Option<Came>, GrowError> {
    let mut block = if ring {
        BufImpl::with_capacity_ringbuf(alloc, 4)?
    } else {
        BufImpl::with_capacity(alloc, 4)?
    };
    Ok((block.is_ringbuf() == ring).then_some(of_either(&mut block)))
}

// Of a plain block nothing can be written behind the bytes before room is made, and of a ring at once.
#[test]
fn room_of_each(rt: HostRuntime) -> Result<(), Fail> {
    let alloc = rt.alloc();
    let plain = (2, 0, 2, true);
    assert!(rt; of_plain(&mut StdBuf::with_capacity(alloc, 4)?) == plain);
    assert!(rt; of_kind(alloc, false)? == Some(plain));
    let ring = (4094, 2, 2, true);
    assert!(rt; of_ring(&mut SliceDequeBuf::with_capacity(alloc, 4)?) == ring);
    assert!(rt; of_kind(alloc, true)? == Some(ring));
    Ok(())
}
