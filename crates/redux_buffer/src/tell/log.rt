//! The log of a stream's calls. Contracts alone see it: it takes no bytes, and its methods do nothing at run time.
ghost use Rattle.std.specs.Prelude.{◌≡◌};
ghost use Rattle.std.specs.Borrow.{ftrue};
ghost use Rattle.redux_buffer.specs.StreamLog.{StreamLog, no_calls};

use std::io;
use std::io::SeekFrom;
use std::marker::Model;
use std::mem::size_of;

/// One call of a stream with its answer. A `Read` has the slice as the call left it, a fill is `Shown` or a
/// `FillFault`, and a `Consume` has the bytes that were shown before it.
#[derive(Clone, Copy, Drop)]
pub enum Call<'a> {
    Read(&'a [u8], &'a io::Result<usize>),
    Write(&'a [u8], &'a io::Result<usize>),
    Flush(&'a io::Result<()>),
    Seek(SeekFrom, &'a io::Result<u64>),
    Shown(&'a [u8]),
    FillFault(&'a [u8], &'a io::Error),
    Consume(&'a [u8], usize),
}

/// What a stream was asked and what it returned so far, as clauses read it in `log`.
#[derive(Drop)]
pub struct CallLog {
    pub ghost log: { StreamLog },
}

impl Model for CallLog {
    ghost also_owns = { λ _. ftrue };
}

impl CallLog {
    ghost use Rattle.redux_buffer.specs.Calls.{after_call};

    /// The log of a stream that was not called yet.
    pub fn new() -> CallLog
        ensures { result.log ≡ no_calls }
    {
        CallLog {}
    }

    /// Adds one call. A stream notes each of its calls just after it has the answer, and a consume just before it is made.
    #[inline(always)]
    pub fn note(&mut self, _call: &Call<'_>)
        // This is all: a fact of one list would hold of some kinds of call only.
        ensures { self.new.log ≡ after_call self.old.log _call.now }
    {}
}

const _: () = prove!(size_of::<CallLog>() == 0);
