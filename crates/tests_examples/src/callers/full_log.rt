use buffer_redux::tell::TellWrite;
use buffer_redux::{Buffer, LineWriter};
use redux_script::Answer;
use std::alloc::Global;
use std::io::ErrorKind;
use std::test::Fail;
use tests_common::{Target, line_writer, target};
use uses::full_log::{close, close_patiently, put, reopen};

// A device, and what it has not taken.
type Parts = (Target, Buffer);

const FULL: Answer = Answer::Fail(ErrorKind::StorageFull);

// A log whose device is full again and again.
fn log_over(alloc: Global) -> Result<LineWriter<Target>, Fail> {
    let script = [Answer::Serve(3), FULL, FULL, FULL, Answer::Serve(2), FULL];
    Ok(line_writer(alloc, 64, b"", target(alloc, &script)?)?)
}

fn puts<W: TellWrite>(log: &mut LineWriter<W>, text: &[u8]) -> (usize, bool) {
    let (taken, answer) = put(log, text);
    (taken, answer.is_ok())
}

fn closes(log: LineWriter<Target>) -> Parts {
    close(log)
}

fn closes_later((device, unsent): Parts) -> Parts {
    close_patiently(reopen(device, unsent), 3)
}

// What the device took, and what is left.
fn told((device, unsent): &Parts) -> (&[u8], &[u8]) {
    (device.get_ref().taken(), unsent.buf())
}

#[test]
fn a_full_device_loses_nothing(rt: HostRuntime) -> Result<(), Fail> {
    let mut log = log_over(rt.alloc())?;
    assert!(rt; puts(&mut log, b"a line\nhalf") == (11, true));
    let parts = closes(log);
    assert!(rt; told(&parts) == (b"a l".as_slice(), b"ine\nhalf".as_slice()));
    let parts = closes_later(parts);
    assert!(rt; told(&parts) == (b"a line\nhalf".as_slice(), b"".as_slice()));
    Ok(drop(parts))
}
