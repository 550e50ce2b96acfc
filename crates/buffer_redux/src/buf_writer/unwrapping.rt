//! The calls that take a buffered writer apart. A pattern that names each field runs no drop, so the writer that was taken
//! apart sends nothing more.
ghost use Rattle.std.specs.Prelude.{◌≡◌, ◌++◌, [], Ok, Err, IfNone, IfOk, MatchResult, MatchOption};
ghost use Rattle.buffer_redux.specs.Buffered.{with_policy};
ghost use Rattle.buffer_redux.specs.BufWriter.{WasFlushed};
ghost use Rattle.buffer_redux.specs.Unwrapping.{InnerOfFlushed, SendsOrHandles};

use crate::buf_writer::BufWriter;
use crate::errors::IntoInnerError;
use crate::policy::WriterPolicy;
use redux_buffer::Buffer;
use redux_buffer::tell::TellWrite;
use std::io;
use std::io::Write;

impl<W: TellWrite, P> BufWriter<W, P> {
    /// The same writer under another policy. The old one is dropped, and nothing is sent.
    pub fn set_policy<Q: WriterPolicy>(self, policy: Q) -> BufWriter<W, Q>
    where
        P: Drop,
        ensures { result ≡ with_policy self policy }
    {
        let BufWriter {
            buf,
            inner,
            policy: _,
            calls,
        } = self;
        // The calls that it noted stay.
        BufWriter {
            buf,
            inner,
            policy,
            calls,
        }
    }

    /// The inner writer and the buffer with the bytes that were not written out. Nothing is sent, and the policy is
    /// dropped.
    pub fn into_inner_with_buffer(self) -> (W, Buffer)
    where
        P: Drop,
        ensures inner { result.0 ≡ self.inner }
        ensures log { W.log result.0 ≡ self.log }
        ensures block { result.1 ≡ self.block }
    {
        let BufWriter {
            buf,
            inner,
            policy: _,
            calls: _,
        } = self;
        (inner, buf)
    }

    /// Sends what is buffered, without a flush of the inner writer, and hands both parts back. Where sending fails,
    /// `handler` is called once, with the inner writer, the buffer as the fault left it, and the fault.
    ///
    /// This is the call that tells what a drop would forget.
    pub fn finish<F: FnOnce(&mut W, &mut Buffer, io::Error)>(self, handler: F) -> (W, Buffer)
    where
        P: Drop,
        requires { F.IsAlwaysCallable handler }
        ensures idle { self.block.bytes ≡ [] → (result.0 ≡ self.inner) × (result.1 ≡ self.block) }
        ensures sent { SendsOrHandles W.log W.trace (λ w b e w' b'. F.post handler w b e tt w' b') self result.0 result.1 }
    {
        let (mut inner, mut unsent) = self.into_inner_with_buffer();
        if let Err(e) = unsent.write_all(&mut inner) {
            handler(&mut inner, &mut unsent, e);
        }
        (inner, unsent)
    }
}

impl<W: TellWrite, P: WriterPolicy + Drop> BufWriter<W, P> {
    /// Flushes, and hands the inner writer back; where that fails, the buffered writer with the bytes that were not sent,
    /// and the fault.
    pub fn into_inner(mut self) -> Result<W, IntoInnerError<Self>>
        ensures all { IfOk result (λ inner. (W.log inner).writes.received ≡ self.log.writes.received ++ self.block.bytes) }
        ensures flushed { MatchResult result
            (InnerOfFlushed W.log W.trace self (Ok tt)) (λ e. WasFlushed W.log W.trace self (Err e.1) e.0) }
    {
        match self.flush() {
            Ok(()) => {
                let BufWriter {
                    buf: _,
                    inner,
                    policy: _,
                    calls: _,
                } = self;
                Ok(inner)
            }
            Err(e) => Err(IntoInnerError(self, e)),
        }
    }

    /// Flushes, and hands the inner writer back, with the fault where that fails. The bytes that were not sent then are
    /// gone.
    pub fn into_inner_with_err(mut self) -> (W, Option<io::Error>)
        ensures all { IfNone result.1 ((W.log result.0).writes.received ≡ self.log.writes.received ++ self.block.bytes) }
        ensures flushed { MatchOption result.1
            (InnerOfFlushed W.log W.trace self (Ok tt) result.0)
            (λ e. InnerOfFlushed W.log W.trace self (Err e) result.0) }
    {
        let fault = match self.flush() {
            Ok(()) => None,
            Err(e) => Some(e),
        };
        let BufWriter {
            buf: _,
            inner,
            policy: _,
            calls: _,
        } = self;
        (inner, fault)
    }
}
