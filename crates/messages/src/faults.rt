//! Why a text whose lines end as those of a head is none.
ghost use Rattle.std.specs.Prelude.{◌≡◌};
ghost use Rattle.messages.specs.Faults.{has_many_lines, lines_fault, said_fault, text_fault};

use crate::bad_head::BadHead;
use crate::head::has_one_host;
use crate::limits::{Limits, fields_of};
use crate::version::{blank_len, first_len, has_other_version};
use http1::fields::KnownFields;
use http1::framing::{Framing, MethodKind, request_framing};

/// What is wrong with a head that says this, if it isn't plain.
pub(crate) fn said_fault(method: MethodKind, minor: u8, known: &KnownFields) -> BadHead
    ensures { result ≡ said_fault method minor known.now }
{
    if !has_one_host(minor, known) || known.framing_fields > 1 {
        return BadHead::Refused;
    }
    if matches!(method, MethodKind::Connect) {
        return BadHead::Tunnel;
    }
    if known.other_coding && matches!(request_framing(method, minor, known), Ok(Framing::Chunked)) {
        BadHead::Coding
    } else {
        BadHead::Refused
    }
}

/// What is wrong with a text that is no head of a request with so few fields.
pub(crate) fn text_fault(bytes: &[u8], limits: Limits) -> BadHead
    ensures { result ≡ text_fault limits bytes.now }
{
    lines_fault(&bytes[blank_len(bytes)..], limits)
}

fn lines_fault(text: &[u8], limits: Limits) -> BadHead
    ensures { result ≡ lines_fault limits text.now }
{
    if has_many_lines(text, limits) {
        return BadHead::ManyFields;
    }
    // A reader of lines refused another version already; who calls `read_head` didn't.
    if has_other_version(&text[..first_len(text)]) {
        BadHead::Version
    } else {
        BadHead::Refused
    }
}

fn has_many_lines(text: &[u8], limits: Limits) -> bool
    ensures { result ≡ has_many_lines limits text.now }
{
    text.iter().filter(|b| **b == b'\n').count() > fields_of(limits) + 2
}
