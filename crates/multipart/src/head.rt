//! What may be the head of a part.
ghost use Rattle.std.specs.Prelude.{◌≡◌, ◌≤◌, length};
ghost use Rattle.std.specs.List.{prefix_len};
ghost use Rattle.multipart.specs.Head.{is_opening};
ghost use Rattle.part_fields.specs.Fields.{is_blank};

use body_reader::{Allows, JustOrUntil};

// No line of a mail has more bytes (RFC 5322, section 2.1.1). What comes byte by byte is passed again each time, so the sender of
// more blanks would have their square done.
const MAX_BLANKS: usize = 998;

// How many blanks stand in front.
fn blanks_len(text: &[u8]) -> usize
    ensures value { result ≡ prefix_len is_blank text.now }
    ensures within { result ≤ length text.now }
{
    text.iter()
        .take_while(|byte| **byte == b' ' || **byte == b'\t')
        .count()
}

// Whether a head begins as the line of a boundary ends: with few blanks or none, and then the end of the line, or nothing.
fn is_opening(head: &[u8]) -> bool
    ensures { result ≡ is_opening head.now }
{
    let len = blanks_len(head);
    let rest = &head[len..];
    len <= MAX_BLANKS && (rest.is_empty() || rest.starts_with(b"\r\n"))
}

/// What may be the head of a part, where texts end so: it begins as the line of a boundary ends, and no boundary stands in it.
#[derive(Drop)]
pub struct PartHead<'a> {
    pub texts: &'a JustOrUntil,
}

impl Allows for PartHead<'_> {
    ghost use Rattle.multipart.specs.Head.{IsPartHead};

    ghost allowed = { λ h. IsPartHead h.texts.now.until.delimiter };

    fn allows(&self, head: &[u8], known: usize) -> bool {
        is_opening(head) && self.texts.until.is_nowhere_in(head, known)
    }
}
