//! The bodies.

/// A boundary, a body, of each of its parts the name, its file's name, its type and its text, with a bar behind each, and what
/// stands behind the body.
pub struct Body {
    pub boundary: &'static [u8],
    pub bytes: &'static [u8],
    pub said: &'static [u8],
    pub behind: &'static [u8],
}

pub static BODIES: [Body; 7] = [
    // `curl -F`, of a text, a file, and two that are empty.
    Body {
        boundary: b"------------------------7e8e528b8b54de33",
        bytes: b"--------------------------7e8e528b8b54de33\r\n\
          Content-Disposition: form-data; name=\"comment\"\r\n\
          \r\n\
          caf\xc3\xa9 & co\r\n\
          --------------------------7e8e528b8b54de33\r\n\
          Content-Disposition: form-data; name=\"file\"; filename=\"note.txt\"\r\n\
          Content-Type: text/plain\r\n\
          \r\n\
          one\r\n\
          --two\r\n\
          \r\n\
          --------------------------7e8e528b8b54de33\r\n\
          Content-Disposition: form-data; name=\"quoted %22name%22\"\r\n\
          \r\n\
          \r\n\
          --------------------------7e8e528b8b54de33\r\n\
          Content-Disposition: form-data; name=\"empty\"\r\n\
          \r\n\
          \r\n\
          --------------------------7e8e528b8b54de33--\r\n",
        said: b"comment|||caf\xc3\xa9 & co|file|note.txt|text/plain|one\r\n--two\r\n|quoted %22name%22||||empty||||",
        behind: b"\r\n",
    },
    // `urllib3`'s encoder.
    Body {
        boundary: b"8d4b0a1f",
        bytes: b"--8d4b0a1f\r\n\
          Content-Disposition: form-data; name=\"a\"\r\n\
          \r\n\
          1\r\n\
          --8d4b0a1f\r\n\
          Content-Disposition: form-data; name=\"f\"; filename=\"x.bin\"\r\n\
          Content-Type: application/octet-stream\r\n\
          \r\n\
          \x00\r\n\
          -\r\n\
          --\r\n\
          --8d4b0a1f--\r\n",
        said: b"a|||1|f|x.bin|application/octet-stream|\x00\r\n-\r\n--|",
        behind: b"\r\n",
    },
    // Python's `email`, with a preamble.
    Body {
        boundary: b"===============7330==",
        bytes: b"This is a multi-part message in MIME format.\r\n\
          --===============7330==\r\n\
          Content-Type: text/plain; charset=\"us-ascii\"\r\n\
          MIME-Version: 1.0\r\n\
          Content-Transfer-Encoding: 7bit\r\n\
          \r\n\
          hello\r\n\
          \r\n\
          --===============7330==\r\n\
          Content-Type: text/html; charset=\"us-ascii\"\r\n\
          MIME-Version: 1.0\r\n\
          Content-Transfer-Encoding: 7bit\r\n\
          \r\n\
          <b>x</b>\r\n\
          --===============7330==--\r\n",
        said: b"||text/plain; charset=\"us-ascii\"|hello\r\n|||text/html; charset=\"us-ascii\"|<b>x</b>|",
        behind: b"\r\n",
    },
    // RFC 2046, section 5.1.1: no field, blanks behind a boundary, a part without a line, an epilogue.
    Body {
        boundary: b"b",
        bytes: b"pre\r\n\
          --b \x09\r\n\
          \r\n\
          one\r\n\
          --b\r\n\
          \r\n\
          --b\r\n\
          A: x\r\n\
          \r\n\
          \r\n\
          --b\r\n\
          \r\n\
          \r\n\
          \r\n\
          --b--epi",
        said: b"|||one||||||||||||\r\n|",
        behind: b"epi",
    },
    // No part.
    Body {
        boundary: b"b",
        bytes: b"--b--",
        said: b"",
        behind: b"",
    },
    // Beginnings of the boundary in a text.
    Body {
        boundary: b"ab",
        bytes: b"--ab\r\n\
          \r\n\
          \r\n\
          --a\r\r\n\
          -\r\n\
          \r\n\
          --\r\n\
          --ab--",
        said: b"|||\r\n--a\r\r\n-\r\n\r\n--|",
        behind: b"",
    },
    // A browser: a backslash in quotes stands for itself.
    Body {
        boundary: b"----WebKitFormBoundaryQ",
        bytes: b"------WebKitFormBoundaryQ\r\n\
          Content-Disposition: form-data; name=\"a\\\"; filename=\"b\"\r\n\
          \r\n\
          \r\n\
          ------WebKitFormBoundaryQ--\r\n",
        said: b"a\\|b|||",
        behind: b"\r\n",
    },
];
