//! Readers and writers that are asked for one thing after another.
use buffer_redux::tell::TellRead;
use std::alloc::Global;
use tests_common::sweep::Came;
use tests_common::{Log, first};

/// A reader or a writer over a stream that answers by a script.
pub trait Asks {
    /// Makes the call of this letter, with what is behind it, and notes what it answers. Whether the stream failed.
    fn ask(&mut self, call: &[u8], log: &mut Log) -> bool;

    /// How often the stream was asked.
    fn asked(&self) -> usize;
}

// Makes a call, of which `a` is how often the stream was asked.
fn ask<A: Asks>(asked: &mut A, call: &[u8], log: &mut Log) -> bool {
    if call == b"a".as_slice() {
        log.show(&asked.asked());
        return false;
    }
    asked.ask(call, log)
}

// Makes the call that this begins with, again where the stream failed if that is asked for. How often it failed.
fn step<A: Asks>(asked: &mut A, wants: &[u8], again: bool, log: &mut Log) -> usize {
    let call = first(
        wants,
        wants.iter().position(|byte| *byte == b'=').unwrap_or(0),
    );
    log.note(call);
    log.note(b"=");
    let failed = ask(asked, call, log);
    if failed && (!again || ask(asked, call, log)) {
        log.note(b"failed");
    }
    log.note(b"|");
    usize::from(failed)
}

/// Makes call after call, again where the stream failed if that is asked for. Nothing where an answer is another. A call is its
/// letter, what it is given, `=`, what it answers, and a bar.
pub fn walk<A: Asks + Drop>(
    alloc: Global,
    mut asked: A,
    wants: &[u8],
    again: bool,
) -> Option<Came> {
    let mut log = Log::new(alloc);
    let mut failed = 0usize;
    let mut begin = 0;
    for (at, byte) in wants.iter().enumerate() {
        if *byte == b'|' {
            let call = wants.get(begin..at).unwrap_or(b"");
            failed = failed.saturating_add(step(&mut asked, call, again, &mut log));
            begin = at.saturating_add(1);
        }
    }
    let calls = asked.asked();
    log.is(wants).then_some(Came { failed, calls })
}

/// Whether a stream gives these bytes. Nothing where it failed.
pub fn gives<R: TellRead>(stream: &mut R, bytes: &[u8]) -> Option<bool> {
    let mut out = [0; 8];
    let count = stream.read_told(&mut out[..bytes.len().min(8)]).ok()?;
    Some(first(&out, count) == bytes)
}
