//! Texts of mails, whole and cut at each byte.
use crate::bodies::Kind::Mail;
use crate::bodies::{KINDS, Play, Row, are_so, note};
use std::alloc::Global;
use std::io;
use std::test::Fail;
use tests_common::{Log, first};

// Texts, and how many bytes of each are no whole one, nor wrong.
static TEXTS: [(Row<'static>, usize); 13] = [
    ((Mail, b".\r\nQUIT\r\n", b"|whole 3|QUIT\r\n"), 3),
    ((Mail, b"a\r\n.\r\n.\r\n", b"a\r\n|whole 6|.\r\n"), 6),
    ((Mail, b"..\r\n.\r\nQUIT", b".\r\n|whole 7|QUIT"), 7),
    (
        (
            Mail,
            b"...\r\n..a\r\n.b\r\n.\r\n",
            b"..\r\n.a\r\nb\r\n|whole 17|",
        ),
        17,
    ),
    ((Mail, b"\r\n\r\n.\r\n\r\n", b"\r\n\r\n|whole 7|\r\n"), 7),
    (
        (
            Mail,
            b"a.\r\nb..\r\n. \r\n.\r\n",
            b"a.\r\nb..\r\n \r\n|whole 16|",
        ),
        16,
    ),
    ((Mail, b"a\n.\nQUIT\r\n.\r\n", b"a|Feed 1"), 1),
    ((Mail, b"a\r\n.\nQUIT", b"a\r\n|Feed 4"), 4),
    ((Mail, b"a\n.\r\n", b"a|Feed 1"), 1),
    ((Mail, b"\n.\r\n", b"|Feed 0"), 0),
    ((Mail, b"a\r.\r\n", b"a\r|Return 2"), 2),
    ((Mail, b"a\r\r\n.\r\n", b"a\r|Return 2"), 2),
    ((Mail, b"a\r\n.\r\r\n", b"a\r\n|Return 5"), 5),
];

// What the bytes that are shown settle.
static SHOWN: [Row<'static>; 9] = [
    (Mail, b"ab", b"ab|failed 2"),
    (Mail, b"a\r", b"a\r|failed 2"),
    (Mail, b"a\r\n", b"a\r\n|failed 3"),
    (Mail, b"a\r\n.", b"a\r\n|failed 4"),
    (Mail, b"..", b".|failed 2"),
    (Mail, b"a\r\n.\r\n", b"a\r\n|whole 6|"),
    (Mail, b"a\r\n.\r\nQUIT", b"a\r\n|whole 6|QUIT"),
    (Mail, b".\r\n", b"|whole 3|"),
    (Mail, b"a\n", b"a|Feed 1"),
];

// Whether this is said of a text that is cut there: its beginning, and that it was cut.
fn is_cut(alloc: Global, said: &Log, row: Row<'_>, count: usize) -> bool {
    let mut end = Log::new(alloc);
    end.note(b"|cut ");
    end.show(&count);
    match said.text().strip_suffix(end.text()) {
        Some(front) => row.2.starts_with(front),
        None => false,
    }
}

fn are_cut(alloc: Global, row: Row<'_>, count: usize, capacity: usize) -> io::Result<bool> {
    for &(ring, lent) in KINDS {
        let play = Play {
            ring,
            capacity,
            minimum: None,
            lent,
            again: true,
        };
        let mut log = Log::new(alloc);
        let came = note(alloc, (Mail, first(row.1, count)), play, &[], &mut log)?;
        if came.is_none() || !is_cut(alloc, &log, row, count) {
            return Ok(false);
        }
    }
    Ok(true)
}

#[test]
fn reads_texts(rt: HostRuntime) -> Result<(), Fail> {
    for &(row, right) in &TEXTS {
        for capacity in [1, 2, 64] {
            assert!(rt; are_so(rt.alloc(), &[row], capacity, None, true)?);
            for count in 0..right {
                assert!(rt; are_cut(rt.alloc(), row, count, capacity)?);
            }
        }
    }
    Ok(())
}

#[test]
fn settles_texts(rt: HostRuntime) -> Result<(), Fail> {
    for minimum in [Some(0), Some(1), Some(64)] {
        assert!(rt; are_so(rt.alloc(), &SHOWN, 64, minimum, false)?);
    }
    Ok(())
}
