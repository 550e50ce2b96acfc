//! What names the resource that is asked for: a target, and a `Host`.
ghost use Rattle.std.specs.Prelude.{◌≡◌, ◌<◌, ◌≤◌, ◌↔◌, not, ◌==◌, ◌||◌, length, IsTrue};
ghost use Rattle.httparse.specs.Spans.{IsHeaderWithin, header_bytes};
ghost use Rattle.std.specs.List.{list_all, prefix_len};
ghost use Rattle.std.specs.Char.{is_ascii_digit, is_ascii_hexdigit};
ghost use Rattle.messages.specs.Target.{HasWholeEscapes, IsAbsolute, IsAddress, IsAuthority, IsBehindScheme, IsBracketed, IsHost, IsHostAndPort, IsPlainField, IsTarget, IsTargetForm, address_len, authority_len, begins_with_letter, has_at, has_hex_at, host_at, is_future, is_future_byte, is_name, is_name_byte, is_path_byte, is_plain_byte, is_port, is_scheme_byte, is_user_byte, is_versioned, is_web, is_whole_at};

use http1::text::eq_ignore_case;
use httparse::spans::HeaderSpan;
use std::net::Ipv6Addr;

fn has_at(text: &[u8], at: usize, b: u8) -> bool
    ensures { result ≡ has_at text.now at b }
{
    at < text.len() && text[at] == b
}

fn has_hex_at(text: &[u8], at: usize) -> bool
    ensures { result ≡ has_hex_at text.now at }
{
    at < text.len() && text[at].is_ascii_hexdigit()
}

fn is_whole_at(text: &[u8], at: usize) -> bool
    requires { at < length text.now }
    ensures { result ≡ is_whole_at text.now at }
{
    !has_at(text, at, b'%') || has_hex_at(text, at + 1) && has_hex_at(text, at + 2)
}

// Whether two hexadecimal digits stand behind each `%`.
fn has_whole_escapes(text: &[u8]) -> bool
    ensures { IsTrue result ↔ HasWholeEscapes text.now }
{
    for at in 0..text.len() {
        if !is_whole_at(text, at) {
            return false;
        }
    }
    true
}

fn is_plain_byte(b: u8) -> bool
    ensures { result ≡ is_plain_byte b }
{
    b.is_ascii_alphanumeric() || b"-._~!$&'()*+,;=".contains(&b)
}

fn is_name_byte(b: u8) -> bool
    ensures { result ≡ is_name_byte b }
{
    is_plain_byte(b) || b == b'%'
}

fn is_user_byte(b: u8) -> bool
    ensures { result ≡ is_user_byte b }
{
    is_name_byte(b) || b == b':'
}

fn is_path_byte(b: u8) -> bool
    ensures { result ≡ is_path_byte b }
{
    is_name_byte(b) || b":@/?".contains(&b)
}

fn is_future_byte(b: u8) -> bool
    ensures { result ≡ is_future_byte b }
{
    is_plain_byte(b) || b == b':'
}

fn is_scheme_byte(b: u8) -> bool
    ensures { result ≡ is_scheme_byte b }
{
    b.is_ascii_alphanumeric() || b"+-.".contains(&b)
}

fn are_digits(text: &[u8]) -> bool
    ensures { result ≡ list_all is_ascii_digit text.now }
{
    text.iter().all(|b| b.is_ascii_digit())
}

fn hex_len(text: &[u8]) -> usize
    ensures value { result ≡ prefix_len is_ascii_hexdigit text.now }
    ensures within { result ≤ length text.now }
{
    text.iter().take_while(|b| b.is_ascii_hexdigit()).count()
}

fn name_len(text: &[u8]) -> usize
    ensures value { result ≡ prefix_len is_name_byte text.now }
    ensures within { result ≤ length text.now }
{
    text.iter().take_while(|b| is_name_byte(**b)).count()
}

fn user_len(text: &[u8]) -> usize
    ensures value { result ≡ prefix_len is_user_byte text.now }
    ensures within { result ≤ length text.now }
{
    text.iter().take_while(|b| is_user_byte(**b)).count()
}

fn are_future(text: &[u8]) -> bool
    ensures { result ≡ list_all is_future_byte text.now }
{
    text.iter().all(|b| is_future_byte(*b))
}

fn scheme_len(text: &[u8]) -> usize
    ensures value { result ≡ prefix_len is_scheme_byte text.now }
    ensures within { result ≤ length text.now }
{
    text.iter().take_while(|b| is_scheme_byte(**b)).count()
}

fn address_len(text: &[u8]) -> usize
    ensures value { result ≡ address_len text.now }
    ensures within { result ≤ length text.now }
{
    text.iter().take_while(|b| **b != b']').count()
}

fn authority_len(text: &[u8]) -> usize
    ensures value { result ≡ authority_len text.now }
    ensures within { result ≤ length text.now }
{
    text.iter()
        .take_while(|b| !(**b == b'/' || **b == b'?'))
        .count()
}

fn is_port(text: &[u8]) -> bool
    ensures { result ≡ is_port text.now }
{
    text.is_empty() || has_at(text, 0, b':') && are_digits(&text[1..])
}

fn is_name(text: &[u8]) -> bool
    ensures { result ≡ is_name text.now }
{
    let len = name_len(text);
    text.is_empty() || len > 0 && is_port(&text[len..])
}

fn is_versioned(text: &[u8]) -> bool
    ensures { result ≡ is_versioned text.now }
{
    let len = hex_len(text);
    len > 0 && has_at(text, len, b'.') && (len + 1 < text.len() && are_future(&text[len + 1..]))
}

fn is_future(text: &[u8]) -> bool
    ensures { result ≡ is_future text.now }
{
    (has_at(text, 0, b'v') || has_at(text, 0, b'V')) && is_versioned(&text[1..])
}

fn is_address(text: &[u8]) -> bool
    ensures { IsTrue result ↔ IsAddress text.now }
{
    is_future(text) || Ipv6Addr::parse_ascii(text).is_ok()
}

fn is_bracketed(text: &[u8]) -> bool
    ensures { IsTrue result ↔ IsBracketed text.now }
{
    let len = address_len(text);
    len < text.len() && is_address(&text[..len]) && is_port(&text[len + 1..])
}

fn is_host_and_port(text: &[u8]) -> bool
    ensures { IsTrue result ↔ IsHostAndPort text.now }
{
    is_name(text) || has_at(text, 0, b'[') && is_bracketed(&text[1..])
}

fn is_host(text: &[u8]) -> bool
    ensures { IsTrue result ↔ IsHost text.now }
{
    has_whole_escapes(text) && is_host_and_port(text)
}

/// Whether this field is no `Host`, or names a host or is empty.
pub(crate) fn is_plain(head: &[u8], span: &HeaderSpan) -> bool
    requires { IsHeaderWithin (length head.now) span.now }
    ensures { IsTrue result ↔ IsPlainField (header_bytes head.now span.now) }
{
    !eq_ignore_case(span.name.of(head), b"host") || is_host(span.value.of(head))
}

fn is_path(text: &[u8]) -> bool
    ensures { result ≡ list_all is_path_byte text.now }
{
    text.iter().all(|b| is_path_byte(*b))
}

fn host_at(text: &[u8]) -> usize
    ensures value { result ≡ host_at text.now }
    ensures within { result ≤ length text.now }
{
    let len = user_len(text);
    if has_at(text, len, b'@') { len + 1 } else { 0 }
}

fn is_web(scheme: &[u8]) -> bool
    ensures { result ≡ is_web scheme.now }
{
    eq_ignore_case(scheme, b"http") || eq_ignore_case(scheme, b"https")
}

fn is_authority(web: bool, text: &[u8]) -> bool
    ensures { IsTrue result ↔ IsAuthority web text.now }
{
    if web {
        return !text.is_empty() && is_host_and_port(text);
    }
    is_host_and_port(&text[host_at(text)..])
}

fn is_behind_scheme(web: bool, text: &[u8]) -> bool
    ensures { IsTrue result ↔ IsBehindScheme web text.now }
{
    let len = authority_len(text);
    is_authority(web, &text[..len]) && is_path(&text[len..])
}

fn begins_with_letter(text: &[u8]) -> bool
    ensures { result ≡ begins_with_letter text.now }
{
    !text.is_empty() && text[0].is_ascii_alphabetic()
}

fn is_absolute(text: &[u8]) -> bool
    ensures { IsTrue result ↔ IsAbsolute text.now }
{
    let len = scheme_len(text);
    begins_with_letter(text)
        && text[len..].starts_with(b"://")
        && is_behind_scheme(is_web(&text[..len]), &text[len + 3..])
}

fn is_target_form(method: &[u8], text: &[u8]) -> bool
    ensures { IsTrue result ↔ IsTargetForm method.now text.now }
{
    has_at(text, 0, b'/') && is_path(text)
        || text == b"*".as_slice() && method == b"OPTIONS".as_slice()
        || is_absolute(text)
}

/// Whether a text may be the target of this method.
pub(crate) fn is_target(method: &[u8], text: &[u8]) -> bool
    ensures { IsTrue result ↔ IsTarget method.now text.now }
{
    has_whole_escapes(text) && is_target_form(method, text)
}
