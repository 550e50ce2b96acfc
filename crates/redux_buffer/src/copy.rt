//! Copying from a buffered reader to a writer.
ghost use Rattle.std.specs.Prelude.{◌≡◌, ℕ, ◌+◌, ◌^◌, ◌≤◌, List, [], ◌++◌, length, Ok, Err, IfSome, IfNone, IfOk, OnErr};
ghost use Rattle.redux_buffer.specs.Copy.{CopyBuf, CopyRetried, CopyRows, CopyTurn, CopyStep};
ghost use Rattle.redux_buffer.specs.Retried.{Retried};

use crate::INTERRUPT_LIMIT;
use crate::tell::{TellBufRead, TellWrite};
use std::io;
use std::io::ErrorKind;

/// Copies from `b` to `w` without a buffer of its own until a write takes nothing, and returns how many bytes went over.
/// The writer is not flushed.
///
/// A turn is one fill, one write of all that it shows, and a consume of what the writer took; where that is nothing, no
/// consume. At the end of the reader the writer is called with an empty slice. 64 turns in a row that end as
/// `Interrupted` are begun again, and the 65th is returned; any other fault is returned at once. Whether it is `Ok` or
/// not, the bytes that were consumed are those that were received. `Other` without a fault is returned where the count
/// passes what a `u64` holds.
pub fn copy_buf<B: TellBufRead, W: TellWrite>(b: &mut B, w: &mut W) -> io::Result<u64>
    ensures moved { (bytes : List ℕ) × ((B.log b.new).fills.consumed ≡ (B.log b.old).fills.consumed ++ bytes)
        × ((W.log w.new).writes.received ≡ (W.log w.old).writes.received ++ bytes)
        × IfOk result (λ n. n ≡ length bytes) }
    ensures reader { B.trace b.old b.new }
    ensures writer { W.trace w.old w.new }
    ensures turns { CopyRows B.log W.log B.trace W.trace W.call result (record { source = b.old; target = w.old })
        (record { source = b.new; target = w.new }) }
    ensures copied { CopyBuf W.log W.trace W.call result (B.log b.old).fills (B.log b.new).fills w.old w.new }
{
    let mut total = 0u64;
    'turns: loop {
        let taken = copy_retried(b, w)?;
        if taken == 0 {
            return Ok(total);
        }
        match add_total(total, taken) {
            Some(sum) => total = sum,
            None => return Err(io::Error::from(ErrorKind::Other)),
        }
    }
}

/// The sum of what turns of [`copy_turn`] moved, in bytes; `None` where it passes what a `u64` holds.
pub fn add_total(total: u64, n: usize) -> Option<u64>
    ensures some { IfSome result (λ sum. sum ≡ total + n) }
    ensures none { IfNone result (2 ^ 64 ≤ total + n) }
{
    total.checked_add(n as u64)
}

// A turn, begun again where it was interrupted, `INTERRUPT_LIMIT` times at the most.
fn copy_retried<B: TellBufRead, W: TellWrite>(b: &mut B, w: &mut W) -> io::Result<usize>
    ensures row { Retried (CopyStep B.log W.log B.trace W.trace W.call) (record { source = b.old; target = w.old }) result
        (record { source = b.new; target = w.new }) }
    ensures retried { CopyRetried W.log W.trace W.call result (B.log b.old).fills (B.log b.new).fills w.old w.new }
    ensures reader { B.trace b.old b.new }
    ensures writer { W.trace w.old w.new }
{
    for _ in 0..INTERRUPT_LIMIT {
        match copy_turn(b, w) {
            Ok(n) => return Ok(n),
            Err(e) => {
                if e.kind() != ErrorKind::Interrupted {
                    return Err(e);
                }
            }
        }
    }
    copy_turn(b, w)
}

/// One turn of [`copy_buf`], for a loop that counts, reports or stops between turns: one fill, one write of all that it
/// shows, and a consume of what the writer took. Returns how many bytes went over. Where those are none, nothing is
/// consumed, and copying has ended. A fault is returned at once, `Interrupted` too, and moves nothing.
#[inline(always)]
pub fn copy_turn<B: TellBufRead, W: TellWrite>(b: &mut B, w: &mut W) -> io::Result<usize>
    ensures moved { (bytes : List ℕ) × ((B.log b.new).fills.consumed ≡ (B.log b.old).fills.consumed ++ bytes)
        × ((W.log w.new).writes.received ≡ (W.log w.old).writes.received ++ bytes)
        × IfOk result (λ n. n ≡ length bytes) × OnErr result (bytes ≡ []) }
    ensures reader { B.trace b.old b.new }
    ensures writer { W.trace w.old w.new }
    ensures turn { CopyTurn W.log W.trace W.call result (B.log b.old).fills (B.log b.new).fills w.old w.new }
{
    let taken = match b.fill_told() {
        Ok(bytes) => w.write_told(bytes)?,
        Err(e) => return Err(e),
    };
    if taken == 0 {
        return Ok(0);
    }
    b.consume_told(taken);
    Ok(taken)
}
