//! Where the first line of a head begins, and which version of HTTP it names.
ghost use Rattle.std.specs.Prelude.{◌≡◌, ◌<◌, ◌≤◌, IfSome, IsTrue, length};
ghost use Rattle.std.specs.List.{prefix_len};
ghost use Rattle.messages.specs.Versions.{first_len, has_later_version, has_other_version, is_end, is_later_version, is_other_version, later_at};

/// How many bytes in front are CR or LF: in front of a head they say nothing (RFC 9112, section 2.2).
pub fn blank_len(bytes: &[u8]) -> usize
    ensures value { result ≡ prefix_len is_end bytes.now }
    ensures within { result ≤ length bytes.now }
{
    bytes
        .iter()
        .take_while(|b| **b == b'\r' || **b == b'\n')
        .count()
}

pub(crate) fn first_len(text: &[u8]) -> usize
    ensures value { result ≡ first_len text.now }
    ensures within { result ≤ length text.now }
{
    text.iter()
        .take_while(|b| !(**b == b'\r' || **b == b'\n'))
        .count()
}

pub(crate) fn has_other_version(line: &[u8]) -> bool
    ensures { result ≡ has_other_version line.now }
{
    line.len() > 8 && is_other_version(&line[line.len() - 9..])
}

fn is_other_version(bytes: &[u8]) -> bool
    requires { length bytes.now ≡ 9 }
    ensures { result ≡ is_other_version bytes.now }
{
    bytes.starts_with(b" HTTP/")
        && ((bytes[6].is_ascii_digit() && bytes[6] != b'1')
            && (bytes[7] == b'.' && bytes[8].is_ascii_digit()))
}

fn has_later_version(line: &[u8]) -> bool
    ensures value { result ≡ has_later_version line.now }
    ensures some { IsTrue result → 8 < length line.now }
{
    line.len() > 8 && is_later_version(&line[line.len() - 9..])
}

fn is_later_version(bytes: &[u8]) -> bool
    requires { length bytes.now ≡ 9 }
    ensures { result ≡ is_later_version bytes.now }
{
    bytes.starts_with(b" HTTP/1.") && (bytes[8] > b'1' && bytes[8].is_ascii_digit())
}

/// Where the last byte of the first line stands, if that names a later version than 1.1 whose first number is 1.
pub(crate) fn later_at(head: &[u8]) -> Option<usize>
    ensures value { result ≡ later_at head.now }
    ensures within { IfSome result (λ at. at < length head.now) }
{
    let blank = blank_len(head);
    let text = &head[blank..];
    let len = first_len(text);
    if has_later_version(&text[..len]) {
        Some(blank + len - 1)
    } else {
        None
    }
}
