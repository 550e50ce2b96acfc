//! How often in a row a read that was interrupted is made again.
ghost use Rattle.std.specs.Prelude.{◌+◌, ◌≤◌, IfNone, IfSome};
ghost use Rattle.codec.specs.AskedAgain.{InARow};
ghost use Rattle.redux_buffer.specs.Faults.{IsInterrupt, interrupt_limit};

use buffer_redux::INTERRUPT_LIMIT;
use std::io;
use std::io::ErrorKind;

// How many reads in a row were interrupted with the one that failed so, where so many were before, and it found so many bytes,
// and left so many; `None` where it isn't made again.
pub fn row_with(e: &io::Error, row: u32, had: u64, has: u64) -> Option<u32>
    requires { row ≤ interrupt_limit }
    ensures again { IfSome result (λ with. IsInterrupt e.now × InARow row had has with × (with ≤ interrupt_limit)) }
    ensures last { IfNone result (IsInterrupt e.now → InARow row had has (interrupt_limit + 1)) }
{
    if e.kind() != ErrorKind::Interrupted {
        return None;
    }
    let before = if had < has { 0 } else { row };
    if before < INTERRUPT_LIMIT {
        Some(before + 1)
    } else {
        None
    }
}
