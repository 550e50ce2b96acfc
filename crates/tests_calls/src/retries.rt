//! Calls that are made again where they were interrupted.
ghost use Rattle.std.specs.Prelude.{⊤};

use redux_buffer::{Attempt, retried, retried_behind};
use redux_script::{Answer, ScriptReader};
use std::alloc::Global;
use std::io;
use std::io::{ErrorKind, Read};
use std::test::Fail;
use tests_common::kind;

// A read of one byte.
struct OneByte;

impl Attempt<ScriptReader> for OneByte {
    type Answer = usize;

    ghost may = { λ _ _. ⊤ };

    ghost step = { λ _ _ _ _. ⊤ };

    fn attempt(&self, stream: &mut ScriptReader) -> io::Result<usize> {
        stream.read(&mut [0; 1])
    }

    ghost again = { λ _ _ _ _ _ _. tt };
}

// How the stream answers, what comes of the call, and how often it was made.
static ROWS: [(&[Answer], Result<usize, ErrorKind>, usize); 4] = [
    (&[], Ok(1), 1),
    (&[Answer::Interrupt(64)], Ok(1), 65),
    (&[Answer::Interrupt(65)], Err(ErrorKind::Interrupted), 65),
    (
        &[Answer::Interrupt(1), Answer::Fail(ErrorKind::TimedOut)],
        Err(ErrorKind::TimedOut),
        2,
    ),
];

// By a first call too, behind which it goes on.
fn attempts(
    alloc: Global,
    script: &[Answer],
    is_behind: bool,
) -> Result<(Result<usize, ErrorKind>, usize), Fail> {
    let mut stream = ScriptReader::new(alloc, &[7], script)?;
    let came = if is_behind {
        let first = OneByte.attempt(&mut stream);
        kind(retried_behind(first, &OneByte, &mut stream))
    } else {
        kind(retried(&OneByte, &mut stream))
    };
    Ok((came, stream.offers().len()))
}

#[test]
fn interrupted(rt: HostRuntime) -> Result<(), Fail> {
    for &(script, answer, calls) in &ROWS {
        assert!(rt;
            attempts(rt.alloc(), script, false)? == (answer, calls),
            "{calls}"
        );
        assert!(rt;
            attempts(rt.alloc(), script, true)? == (answer, calls),
            "{calls}"
        );
    }
    Ok(())
}
