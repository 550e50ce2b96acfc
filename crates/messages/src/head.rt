//! Heads of requests as pieces, and what they say of the body.
ghost use Rattle.std.specs.Prelude.{ℕ, List, ◌≡◌, ◌<◌, ◌≤◌, ◌↔◌, All, IfErr, IfNone, IfOk, IfSome, IsTrue, OnErr, Some, length, map, slice_set};
ghost use Rattle.http1.specs.Framing.{method_kind};
ghost use Rattle.http1.specs.Message.{has_one_host};
ghost use Rattle.httparse.specs.Spans.{IsHeaderWithin, header_bytes};
ghost use Rattle.messages.specs.declared.head.Extent.{Extent};
ghost use Rattle.messages.specs.declared.head.ParsedHead.{ParsedHead};
ghost use Rattle.messages.specs.Faults.{IsHeadFault};
ghost use Rattle.messages.specs.Limits.{usual};
ghost use Rattle.messages.specs.Heads.{IsHead, IsKnownHead, IsRefused, SaysPlainly, expects, extent_of, is_met, keeps};
ghost use Rattle.messages.specs.Target.{IsPlainField};

use crate::bad_head::BadHead;
use crate::expect::is_met;
use crate::faults::{said_fault, text_fault};
use crate::limits::{Limits, fields_of};
use crate::lines::{Before, Lines, line_fault};
use crate::target::{is_plain, is_target};
use crate::version::later_at;
use codec::{ByHeader, ByScan, Decoder, End, Found, ScanNote, Span};
use http1::fields::KnownFields;
use http1::framing::{Framing, FramingError, MethodKind, request_framing};
use httparse::Status;
use httparse::spans::{EMPTY_HEADER_SPAN, HeaderSpan, parse_request};

/// No head has more bytes.
pub const MAX_HEAD: usize = 16384;

/// No head has more fields, since each look at one writes a table of so many.
pub const MAX_FIELDS: usize = 64;

/// Where a body ends.
#[derive(Clone, Copy, Debug, PartialEq, Eq, Drop)]
pub enum Extent {
    /// Behind so many bytes.
    Sized(u64),
    /// Where the chunked coding ends.
    Chunked,
}

/// What a head says.
#[derive(Clone, Copy, Debug, PartialEq, Eq, Drop)]
pub struct ParsedHead {
    /// Where the body ends.
    pub extent: Extent,
    /// Whether the answer has no body, as one to `HEAD`, whatever its fields say.
    pub bare: bool,
    /// Whether another request may follow: not behind `Connection: close`, nor one of HTTP/1.0 without `keep-alive`.
    pub keeps: bool,
    /// Whether the client waits for a `100 Continue` before it sends the body.
    pub expects: bool,
    /// Whether it expects nothing else. If it does, a server may answer 417, or go on.
    pub met: bool,
}

/// Heads as pieces, each lent whole.
#[derive(Clone, Copy, Debug, Drop)]
pub struct Heads(pub Limits);

impl Decoder for Heads {
    ghost use Rattle.codec.specs.Scanning.{scan_notes};
    ghost use Rattle.messages.specs.Heads.{heads};
    ghost use Rattle.messages.specs.Lines.{lines};
    ghost use Rattle.messages.specs.HeadsLaws.{heads_lawful};

    type Wrong = BadHead;

    type Note = ScanNote<Before>;

    ghost grammar = { λ d. heads d.0 };

    ghost notes = { λ _. scan_notes lines };

    fn most(&self) -> usize {
        MAX_HEAD
    }

    fn no_note(&self) -> ScanNote<Before> {
        ByHeader(ByScan(Lines)).no_note()
    }

    fn decode(&self, bytes: &[u8], seen: usize, note: &mut ScanNote<Before>) -> Found<BadHead> {
        match ByHeader(ByScan(Lines)).decode(bytes, seen, note) {
            Found::Piece(_, used) => match refused(&bytes[..used], self.0) {
                None => Found::Piece(Span { from: 0, len: used }, used),
                Some(e) => Found::Wrong(e),
            },
            Found::More(need) => Found::More(need),
            Found::Wrong(_) => Found::Wrong(line_fault(bytes)),
        }
    }

    fn at_end(&self, bytes: &[u8]) -> End<BadHead> {
        End::Wrong(BadHead::CutShort(bytes.len()))
    }

    ghost lawful = { λ d. heads_lawful d.0 };
}

// Why a text is no head. Apart, so that a look at one that isn't whole clears no room for what a head says.
#[inline(never)]
fn refused(text: &[u8], limits: Limits) -> Option<BadHead>
    ensures none { IfNone result ((said : ParsedHead) × IsHead limits text.now said) }
    ensures some { IfSome result (λ e. ((said : ParsedHead) → ¬ (IsHead limits text.now said)) × IsRefused limits text.now e) }
{
    match read_head_within(text, limits) {
        Ok(_) => None,
        Err(e) => Some(e),
    }
}

/// What a head says: these bytes are just a head, of HTTP/1.0, or of 1.1 and later ones, which are read as 1.1, whose target is
/// one, with one `Host`, which 1.0 may leave out and which names a host or is empty, and at most one field that says where the
/// body ends, as RFC 9112, section 6 has it, with no coding but `chunked`. `CONNECT` is refused: a tunnel begins behind it. An
/// `Err` says why they are none.
pub fn read_head(head: &[u8]) -> Result<ParsedHead, BadHead>
    ensures few { IfOk result (λ _. length head.now ≤ 16384) }
    ensures head { IfOk result (λ said. IsHead usual head.now said) }
    ensures none { OnErr result ((said : ParsedHead) → ¬ (IsHead usual head.now said)) }
    ensures fault { IfErr result (IsRefused usual head.now) }
{
    read_head_within(head, Limits::default())
}

/// The same under limits of yours.
pub fn read_head_within(head: &[u8], limits: Limits) -> Result<ParsedHead, BadHead>
    ensures few { IfOk result (λ _. length head.now ≤ 16384) }
    ensures head { IfOk result (λ said. IsHead limits head.now said) }
    ensures none { OnErr result ((said : ParsedHead) → ¬ (IsHead limits head.now said)) }
    ensures fault { IfErr result (IsRefused limits head.now) }
{
    if head.len() > MAX_HEAD {
        return Err(BadHead::LongHead);
    }
    match later_at(head) {
        Some(at) => read_later(head, at, limits),
        None => read_known(head, limits),
    }
}

// Reads a head of a later version as if it were of 1.1: this byte says that it isn't.
fn read_later(head: &[u8], at: usize, limits: Limits) -> Result<ParsedHead, BadHead>
    requires few { length head.now ≤ 16384 }
    requires within { at < length head.now }
    ensures head { IfOk result (λ said. IsKnownHead limits (slice_set head.now at 49) said) }
    ensures none { OnErr result ((said : ParsedHead) → ¬ (IsKnownHead limits (slice_set head.now at 49) said)) }
    ensures fault { IfErr result (IsHeadFault limits (slice_set head.now at 49)) }
{
    let mut room = [0; MAX_HEAD];
    let copy = &mut room[..head.len()];
    copy.copy_from_slice(head);
    copy[at] = b'1';
    read_known(copy, limits)
}

// Reads a head of HTTP/1.0 or 1.1.
fn read_known(head: &[u8], limits: Limits) -> Result<ParsedHead, BadHead>
    ensures head { IfOk result (λ said. IsKnownHead limits head.now said) }
    ensures none { OnErr result ((said : ParsedHead) → ¬ (IsKnownHead limits head.now said)) }
    ensures fault { IfErr result (IsHeadFault limits head.now) }
{
    let mut fields = [EMPTY_HEADER_SPAN; MAX_FIELDS];
    let Ok(Status::Complete(spans)) = parse_request(head, &mut fields) else {
        return Err(text_fault(head, limits));
    };
    if spans.len < head.len() {
        return Err(text_fault(head, limits));
    }
    if spans.headers > fields_of(limits) {
        return Err(text_fault(head, limits));
    }
    let found = &fields[..spans.headers];
    let known = KnownFields::from_spans(head, found);
    let name = spans.method.of(head);
    let target = spans.path.of(head);
    let method = MethodKind::of(name);
    let (hosts, met) = look_at_fields(head, found);
    match plain_extent(hosts, method, name, target, spans.version, &known) {
        Some(extent) => Ok(ParsedHead {
            extent,
            bare: is_bare(method),
            keeps: keeps(spans.version, &known),
            expects: expects(spans.version, &known),
            met,
        }),
        None => Err(said_fault(method, spans.version, &known)),
    }
}

// Whether each `Host` among these fields names a host or is empty, and each `Expect` is one of just `100-continue`.
fn look_at_fields(head: &[u8], spans: &[HeaderSpan]) -> (bool, bool)
    requires { All (IsHeaderWithin (length head.now)) spans.now }
    ensures hosts { IsTrue result.0 ↔ All IsPlainField (map (header_bytes head.now) spans.now) }
    ensures met { IsTrue result.1 ↔ All (λ h. IsTrue (is_met h)) (map (header_bytes head.now) spans.now) }
{
    let mut hosts = true;
    let mut met = true;
    for span in spans {
        hosts &= is_plain(head, span);
        met &= is_met(head, span);
    }
    (hosts, met)
}

// Where the body ends, if that, and for whom the request is, is said plainly, where this says whether each `Host` is plain.
fn plain_extent(
    hosts: bool,
    method: MethodKind,
    name: &[u8],
    target: &[u8],
    minor: u8,
    known: &KnownFields,
) -> Option<Extent>
    requires { method ≡ method_kind name.now }
    ensures { (fields : List (List ℕ × List ℕ)) (extent : Extent) → (IsTrue hosts ↔ All IsPlainField fields)
        → ((result ≡ Some extent) ↔ SaysPlainly name.now target.now minor fields known.now extent) }
{
    if known.framing_fields > 1 || !has_one_host(minor, known) {
        return None;
    }
    if matches!(method, MethodKind::Connect) {
        return None;
    }
    if known.other_coding {
        return None;
    }
    if !hosts {
        return None;
    }
    if !is_target(name, target) {
        return None;
    }
    extent_of(request_framing(method, minor, known))
}

// Where the body ends, if that is said plainly.
fn extent_of(framing: Result<Framing, FramingError>) -> Option<Extent>
    ensures { result ≡ extent_of framing }
{
    match framing {
        Ok(Framing::NoBody) => Some(Extent::Sized(0)),
        Ok(Framing::Length(len)) => Some(Extent::Sized(len)),
        Ok(Framing::Chunked) => Some(Extent::Chunked),
        Ok(Framing::UntilClose) | Err(_) => None,
    }
}

pub(crate) fn has_one_host(minor: u8, known: &KnownFields) -> bool
    ensures { result ≡ has_one_host minor known.now }
{
    known.hosts == 1 || known.hosts == 0 && minor == 0
}

fn is_bare(method: MethodKind) -> bool
    ensures { IsTrue result ↔ (method ≡ MethodKind.Head) }
{
    matches!(method, MethodKind::Head)
}

fn keeps(minor: u8, known: &KnownFields) -> bool
    ensures { result ≡ keeps minor known.now }
{
    !known.close && (minor > 0 || known.keep_alive)
}

fn expects(minor: u8, known: &KnownFields) -> bool
    ensures { result ≡ expects minor known.now }
{
    minor > 0 && known.expect_continue
}
