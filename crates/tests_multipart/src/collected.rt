//! Payloads that are collected, and bodies one after another.
use body_reader::{BodyReader, Coding, JustOrUntil, Sized, Until};
use redux_script::Answer;
use std::alloc::{AllocError, Global};
use std::io;
use std::test::Fail;
use tests_common::{Log, Source, holding, source};

const HELLO: &[u8] = b"hello, world";

const NONE: &[u8] = b">hel Body(Truncated(3))|>hel Body(Truncated(3))|>hel Body(Truncated(3))|";

// What a stream gives, of which three bytes come first and then eight; how many bytes a vector may have that holds one; what it
// has then, and how that went: also behind a call under a limit of six, and one of none, since behind the end nothing is too
// long; and what stays.
static COLLECTED: [(&[u8], usize, &'static [u8]); 5] = [
    (HELLO, 0, b"> TooLong|>hello whole|>hello whole|, worl"),
    (HELLO, 3, b"> TooLong|>hello whole|>hello whole|, worl"),
    (HELLO, 5, b">hel TooLong|>hello whole|>hello whole|, worl"),
    (HELLO, 6, b">hello whole|>hello whole|>hello whole|, worl"),
    (b"hel", 6, NONE),
];

// A body of a stream that gives these bytes, through so many.
fn body<C: Coding + Drop>(
    alloc: Global,
    capacity: usize,
    bytes: &[u8],
    script: &[Answer],
    coding: C,
) -> io::Result<BodyReader<Source, C>> {
    let stream = source(alloc, bytes, script)?;
    Ok(BodyReader::with_buffer(holding(alloc, capacity, b"")?, stream, coding)?)
}

// Notes what a call leaves in the vector.
fn note_collected(
    body: &mut BodyReader<Source, Sized>,
    most: usize,
    out: &mut Vec<u8>,
    log: &mut Log,
) {
    let answer = body.collect(most, out);
    log.note(out.as_slice());
    log.note(b" ");
    match answer {
        Ok(()) => log.note(b"whole"),
        Err(why) => log.show_debug(&why),
    }
    log.note(b"|");
}

// What becomes of a vector that holds one byte.
fn collected(
    alloc: Global,
    body: &mut BodyReader<Source, Sized>,
    most: usize,
) -> Result<Log, AllocError> {
    let mut out = Vec::from_slice(alloc, b">")?;
    let mut log = Log::new(alloc);
    for most in [most, 6, 0] {
        note_collected(body, most, &mut out, &mut log);
    }
    log.note(body.get_ref().buffer());
    Ok(log)
}

fn is_collected(alloc: Global, bytes: &[u8], most: usize, wants: &[u8]) -> io::Result<bool> {
    let script = [Answer::Serve(3), Answer::Serve(8)];
    let mut body = body(alloc, 8, bytes, &script, Sized(5))?;
    Ok(collected(alloc, &mut body, most)?.is(wants))
}

#[test]
fn collects(rt: HostRuntime) -> Result<(), Fail> {
    for &(bytes, most, wants) in &COLLECTED {
        assert!(rt; is_collected(rt.alloc(), bytes, most, wants)?, "{most}");
    }
    Ok(())
}

// Texts up to a line `.`, also where they are empty.
fn mails(alloc: Global) -> Result<JustOrUntil, AllocError> {
    let just = Vec::from_slice(alloc, b".\r\n")?;
    let delimiter = Vec::from_slice(alloc, b"\r\n.\r\n")?;
    Ok(JustOrUntil {
        just,
        until: Until::new(delimiter),
        room: 5,
    })
}

// Notes two reads of a text, each behind a bar.
fn note_text(body: &mut BodyReader<Source, JustOrUntil>, log: &mut Log) {
    let mut out = [0; 20];
    for _ in 0..2 {
        log.note(b"|");
        if let Ok(count) = body.read_payload(&mut out) {
            log.note(out.get(..count).unwrap_or(b"too many"));
        }
    }
}

// Goes on to the next body, where this one ended and the buffer has room for a look.
fn turn(body: &mut BodyReader<Source, JustOrUntil>, other: &mut JustOrUntil) {
    if body.is_done() && body.get_ref().capacity() >= other.ahead() {
        body.begin_next(other);
    }
}

// Notes two texts, drops a third, and notes what is behind.
fn note_texts(body: &mut BodyReader<Source, JustOrUntil>, other: &mut JustOrUntil, log: &mut Log) {
    for _ in 0..2 {
        note_text(body, log);
        turn(body, other);
    }
    if body.drain().is_ok() && body.is_done() {
        log.note(body.get_ref().buffer());
    }
}

fn are_noted(alloc: Global, bytes: &[u8], wants: &[u8]) -> io::Result<bool> {
    let mut other = mails(alloc)?;
    let coding = mails(alloc)?;
    let mut body = body(alloc, 64, bytes, &[], coding)?;
    let mut log = Log::new(alloc);
    note_texts(&mut body, &mut other, &mut log);
    Ok(log.is(wants))
}

#[test]
fn goes_from_body_to_body(rt: HostRuntime) -> Result<(), Fail> {
    let bytes = b"a\r\n..\r\n.\r\n.\r\nb\r\n.\r\nQUIT";
    assert!(rt; are_noted(rt.alloc(), bytes, b"|a\r\n..|||QUIT")?);
    Ok(())
}
