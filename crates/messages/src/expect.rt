//! What is expected of a server (RFC 9110, section 10.1.1).
ghost use Rattle.std.specs.Prelude.{◌≡◌, length, reverse};
ghost use Rattle.std.specs.List.{list_all};
ghost use Rattle.http1.specs.Fields.{elements};
ghost use Rattle.httparse.specs.Grammar.{skip_ows, trim_ows};
ghost use Rattle.httparse.specs.Spans.{IsHeaderWithin, header_bytes};
ghost use Rattle.messages.specs.Heads.{is_expected, is_met};

use http1::text::eq_ignore_case;
use httparse::is_space_or_tab;
use httparse::spans::HeaderSpan;

fn trim_start(mut text: &[u8]) -> &[u8]
    ensures { result.now ≡ skip_ows text.now }
{
    while let [first, rest @ ..] = text
        && is_space_or_tab(*first)
    {
        text = rest;
    }
    text
}

fn trim_end(mut text: &[u8]) -> &[u8]
    ensures { result.now ≡ reverse (skip_ows (reverse text.now)) }
{
    while let [rest @ .., last] = text
        && is_space_or_tab(*last)
    {
        text = rest;
    }
    text
}

fn trim_ows(text: &[u8]) -> &[u8]
    ensures { result.now ≡ trim_ows text.now }
{
    trim_end(trim_start(text))
}

fn is_expected(element: &[u8]) -> bool
    ensures { result ≡ is_expected element.now }
{
    element.is_empty() || eq_ignore_case(element, b"100-continue")
}

// Whether each element of a list is so.
fn are_expected(value: &[u8]) -> bool
    ensures { result ≡ list_all is_expected (elements value.now) }
{
    let mut rest = value;
    while let Some(comma) = rest.iter().position(|b| *b == b',') {
        if !is_expected(trim_ows(&rest[..comma])) {
            return false;
        }
        rest = &rest[comma + 1..];
    }
    is_expected(trim_ows(rest))
}

/// Whether this field is no `Expect`, or one of just `100-continue`, or of nothing.
pub(crate) fn is_met(head: &[u8], span: &HeaderSpan) -> bool
    requires { IsHeaderWithin (length head.now) span.now }
    ensures { result ≡ is_met (header_bytes head.now span.now) }
{
    !eq_ignore_case(span.name.of(head), b"expect") || are_expected(span.value.of(head))
}
