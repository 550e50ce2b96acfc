//! The plain way from one payload to the next: the end of a chunk, digits, and the end of their line.
ghost use Rattle.std.specs.Prelude.{◌≡◌, ◌+◌, ◌-◌, ◌<◌, ◌≤◌, length, take, slice_index, IfSome, IsTrue};
ghost use Rattle.chunked.specs.declared.place.Place.TheVariants as place;
ghost use Rattle.chunked.specs.Steps.{Comes};

use crate::limits::Limits;
use crate::place::Place;
use httparse::parse_hex_digit;

// The most digits that are looked at. As many write no size that is too large.
const DIGITS: usize = 15;

/// How many bytes stand before the next payload, and how many it has, where the line of its size has no extension, and all of
/// that is shown: [`advance`](crate::step::advance) finds the same a byte at a time.
#[inline(always)]
pub(crate) fn frame(limits: &Limits, start: Place, shown: &[u8]) -> Option<(usize, u64)>
    ensures { IfSome result (λ r. (r.0 ≤ length shown.now) × (0 < r.0)
        × Comes limits.now start (take r.0 shown.now) (place.Data r.1)) }
{
    let begins = line_begins(limits, start, shown)?;
    let (at, size) = read_size(limits, start, shown, begins);
    if size == 0 || !ends_line(shown, at) {
        return None;
    }
    Some((at + 2, size))
}

// Where the line of a size begins.
#[inline(always)]
#[tactic(auto, using(crate::proofs::Framing::comes_none))]
fn line_begins(limits: &Limits, start: Place, shown: &[u8]) -> Option<usize>
    ensures { IfSome result (λ at. (at ≤ length shown.now) × Comes limits.now start (take at shown.now) place.Line) }
{
    match start {
        Place::Line => Some(0),
        Place::Data(0) if ends_line(shown, 0) => Some(2),
        _ => None,
    }
}

// The digits of a size, as far as the line may have them: where they end, and the number that they write, or 0 where there are
// none.
#[inline(always)]
fn read_size(limits: &Limits, start: Place, shown: &[u8], begins: usize) -> (usize, u64)
    requires within { begins ≤ length shown.now }
    requires comes { Comes limits.now start (take begins shown.now) place.Line }
    ensures within { (begins ≤ result.0) × (result.0 ≤ length shown.now) }
    ensures comes { 0 < result.1 → Comes limits.now start (take result.0 shown.now)
        (place.Size result.1 (limits.now.line - (result.0 - begins))) }
{
    let most = begins + limits.line.min(DIGITS).min(shown.len() - begins);
    let mut size = 0;
    let mut at = begins;
    while at < most {
        match parse_hex_digit(shown[at]) {
            Some(digit) => {
                size = size * 16 + digit;
                at += 1;
            }
            None => break,
        }
    }
    (at, size)
}

// Whether a line ends there.
#[inline(always)]
fn ends_line(shown: &[u8], at: usize) -> bool
    requires { at ≤ length shown.now }
    ensures { IsTrue result → (at + 2 ≤ length shown.now) × (slice_index shown.now at ≡ 13)
        × (slice_index shown.now (at + 1) ≡ 10) }
{
    shown.len() - at >= 2 && shown[at] == b'\r' && shown[at + 1] == b'\n'
}
