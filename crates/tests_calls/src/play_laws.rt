//! The laws of readers and writers that make calls, each by one; and what is inside them: policies, streams, and bytes that
//! are put in and sent by hand.
use crate::fixtures::of_four;
use buffer_redux::policy::{
    FlushAtLeast, FlushExact, FlushOn, FlushOnNewline, MinBuffered, StdPolicy, WriterPolicy,
};
use buffer_redux::tell::{TellRead, TellSeek, TellWrite, Told};
use buffer_redux::{BufReader, BufWriter, LineWriter};
use redux_play::laws;
use redux_script::Answer;
use std::alloc::Global;
use std::io::{Cursor, ErrorKind, SeekFrom};
use std::test::Fail;
use tests_common::{
    Source, Target, flushes, kind, line_writer, read, reader, reader_under, taken, taken_lines,
    target, write, writer, writer_under,
};

type Answered = Result<usize, ErrorKind>;

// What a look ahead shows, where the first fails, what a read then gives, and one at the end.
fn looks<R: TellRead>(rdr: &mut BufReader<R, MinBuffered>) -> [Answered; 4] {
    let mut out = [0; 8];
    [
        kind(laws::look_ahead(rdr)),
        kind(laws::look_ahead(rdr)),
        kind(read(rdr, &mut out)),
        kind(read(rdr, &mut out)),
    ]
}

#[test]
fn ahead(rt: HostRuntime) -> Result<(), Fail> {
    let script = [
        Answer::Serve(1),
        Answer::Fail(ErrorKind::TimedOut),
        Answer::Serve(1),
        Answer::Serve(1),
    ];
    let rdr = of_four(rt.alloc(), &[], &[1, 2, 3], &script)?;
    let came = looks(&mut reader_under(rdr, MinBuffered(3)));
    assert!(rt; came == [Err(ErrorKind::TimedOut), Ok(3), Ok(3), Ok(0)]);
    Ok(())
}

// A smaller minimum, a growth and a seek, each of which may be refused.
fn spares<R: TellSeek>(
    rdr: &mut BufReader<R, MinBuffered>,
    more: usize,
    to: SeekFrom,
) -> (Result<u64, ErrorKind>, usize, usize) {
    let came = kind(laws::spare_between(rdr, 1, more, to));
    (came, rdr.policy().0, rdr.capacity())
}

#[test]
fn spared(rt: HostRuntime) -> Result<(), Fail> {
    let text = Told::new(Cursor::new([1, 2, 3, 4].as_slice()));
    let mut rdr = reader_under(reader(rt.alloc(), 6, &[], text)?, MinBuffered(2));
    let came = [
        spares(&mut rdr, 9, SeekFrom::Start(3)),
        spares(&mut rdr, usize::MAX, SeekFrom::Start(0)),
        spares(&mut rdr, 0, SeekFrom::End(-9)),
    ];
    let refused = (Err(ErrorKind::InvalidInput), 1, 15);
    assert!(rt; came == [(Ok(3), 1, 15), refused, refused]);
    Ok(drop(rdr))
}

// What is buffered in a reader that was taken apart and built again under a policy that looks ahead; what is read past it; and
// the minimum.
fn rebuilt(rdr: BufReader<Source>) -> bool {
    let mut rdr = laws::rebuild_reader_under(rdr, MinBuffered(7));
    let mut out = [0; 2];
    let past = kind(read(rdr.get_mut().get_mut(), &mut out));
    (past, out, rdr.buffer(), rdr.policy().0) == (Ok(2), [2, 3], [1].as_slice(), 7)
}

// The same of a writer, whose policy is changed, and serves the next write.
fn rebuilt_writer(wrt: BufWriter<Target>) -> bool {
    let mut wrt = laws::rebuild_writer_under(wrt, FlushAtLeast(9));
    let was = (wrt.policy().0, wrt.buf_len(), taken(&wrt).len());
    wrt.policy_mut().0 = 2;
    let count = kind(write(&mut wrt, &[2]));
    was == (9, 1, 0) && count == Ok(1) && taken(&wrt) == [1, 2].as_slice()
}

#[test]
fn built_again(rt: HostRuntime) -> Result<(), Fail> {
    assert!(rt; rebuilt(of_four(rt.alloc(), &[1], &[2, 3], &[])?));
    assert!(rt; rebuilt_writer(writer(rt.alloc(), 16, &[1], target(rt.alloc(), &[])?)?));
    Ok(())
}

// Puts bytes in where they fit.
fn puts<W: TellWrite>(wrt: &mut BufWriter<W>, bytes: &[u8]) -> bool {
    wrt.make_room();
    let fits = bytes.len() <= wrt.capacity().saturating_sub(wrt.buf_len());
    if fits {
        wrt.put(bytes);
    }
    fits
}

// Whether a send returns this, and so many bytes are received then, and so many buffered.
fn sends(
    wrt: &mut BufWriter<Target>,
    answer: Result<(), ErrorKind>,
    received: usize,
    left: usize,
) -> bool {
    kind(wrt.send()) == answer && taken(wrt).len() == received && wrt.buf_len() == left
}

// Two bytes fit behind one, and two more don't. The first send fails, and the next goes on. Nothing is flushed.
fn is_sent(wrt: &mut BufWriter<Target>) -> bool {
    puts(wrt, &[2, 3])
        && !puts(wrt, &[4, 5])
        && sends(wrt, Err(ErrorKind::TimedOut), 1, 2)
        && sends(wrt, Ok(()), 3, 0)
        && flushes(wrt) == 0
}

#[test]
fn sent_by_hand(rt: HostRuntime) -> Result<(), Fail> {
    let script = [Answer::Serve(1), Answer::Fail(ErrorKind::TimedOut)];
    assert!(rt; is_sent(&mut writer(rt.alloc(), 4, &[1], target(rt.alloc(), &script)?)?));
    Ok(())
}

static TEXT: &[u8] = b"ab\ncd";

// What a write of the text returns, and how many bytes were received and are buffered then.
type Sent = (Answered, usize, usize);

fn sent<P>(answer: Answered, wrt: &BufWriter<Target, P>) -> Sent {
    (answer, taken(wrt).len(), wrt.buf_len())
}

fn any(mut wrt: BufWriter<Target>) -> Sent {
    let answer = kind(laws::write_law(&mut wrt, TEXT));
    sent(answer, &wrt)
}

fn on_byte(mut wrt: BufWriter<Target, FlushOn>) -> Sent {
    let answer = kind(laws::flush_on_law(&mut wrt, TEXT));
    sent(answer, &wrt)
}

fn on_newline(mut wrt: BufWriter<Target, FlushOnNewline>) -> Sent {
    let answer = kind(laws::flush_on_newline_law(&mut wrt, TEXT));
    sent(answer, &wrt)
}

fn at_least(mut wrt: BufWriter<Target, FlushAtLeast>) -> Sent {
    let answer = kind(laws::flush_at_least_law(&mut wrt, TEXT));
    sent(answer, &wrt)
}

fn exact(mut wrt: BufWriter<Target, FlushExact>) -> Sent {
    let answer = kind(laws::flush_exact_law(&mut wrt, TEXT));
    sent(answer, &wrt)
}

fn line(mut lines: LineWriter<Target>) -> Sent {
    let answer = kind(laws::line_law(&mut lines, TEXT));
    (answer, taken_lines(&lines).len(), lines.buf_len())
}

// Over an empty buffer of capacity 8.
fn under<P: WriterPolicy + Drop>(alloc: Global, policy: P) -> Result<BufWriter<Target, P>, Fail> {
    Ok(writer_under(writer(alloc, 8, &[], target(alloc, &[])?)?, policy))
}

fn each(alloc: Global) -> Result<[Sent; 6], Fail> {
    Ok([
        any(under(alloc, StdPolicy)?),
        on_byte(under(alloc, FlushOn(b'b'))?),
        on_newline(under(alloc, FlushOnNewline)?),
        at_least(under(alloc, FlushAtLeast(3))?),
        exact(under(alloc, FlushExact(4))?),
        line(line_writer(alloc, 8, &[], target(alloc, &[])?)?),
    ])
}

// What a write leaves where all fits. Others are lines of the program `replay`.
#[test]
fn written(rt: HostRuntime) -> Result<(), Fail> {
    let came = each(rt.alloc())?;
    assert!(rt;
        came == [
            (Ok(5), 0, 5),
            (Ok(5), 2, 3),
            (Ok(5), 3, 2),
            (Ok(5), 5, 0),
            (Ok(5), 4, 1),
            (Ok(5), 3, 2)
        ]
    );
    Ok(())
}
