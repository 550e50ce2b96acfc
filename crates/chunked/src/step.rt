//! How a reader goes on in a body, from byte to byte of what is no payload.
ghost use Rattle.std.specs.Prelude.{◌≡◌, ◌≢◌, ◌^◌, ◌<◌, ◌↔◌, Ok, IfOk, IfErr, IsTrue};
ghost use Rattle.chunked.specs.Place.{IsDataOrDone, IsPlace};
ghost use Rattle.chunked.specs.Steps.{Advances, StepsOver};

use crate::error::Malformed;
use crate::extension::Within;
use crate::limits::Limits;
use crate::place::Place;
use httparse::{is_header_name_token, is_header_value_token, parse_hex_digit};

// The least number that isn't the size of a chunk.
const TOO_LARGE: u64 = 1 << 62;

/// How far a reader came in bytes that it was shown.
#[derive(Clone, Copy, Debug)]
pub struct Reached {
    /// Where it stands now.
    pub place: Place,
    /// How many of the bytes it took.
    pub taken: usize,
    /// What is wrong with the next byte, where something is.
    pub wrong: Option<Malformed>,
}

// The first digit of a size.
fn begin_size(limits: &Limits, byte: u8) -> Result<Place, Malformed>
    ensures { StepsOver limits.now Place.Line byte result }
{
    match parse_hex_digit(byte) {
        None => Err(Malformed::NoSize),
        Some(digit) => Ok(Place::Size(digit, limits.line.saturating_sub(1))),
    }
}

// What stands behind a digit of a size.
fn in_size(number: u64, room: usize, byte: u8) -> Result<Place, Malformed>
    requires { number < 2 ^ 62 }
    ensures { (l : Limits) → StepsOver l (Place.Size number room) byte result }
{
    match parse_hex_digit(byte) {
        None => in_extension(Within::Behind, number, room, byte),
        // The number would be too large with any digit.
        Some(_) if number >= TOO_LARGE / 16 => Err(Malformed::SizeTooLarge),
        Some(_) if room == 0 => Err(Malformed::LineTooLong),
        Some(digit) => Ok(Place::Size(number * 16 + digit, room - 1)),
    }
}

// A byte of an extension, or the end of the line.
#[inline(always)]
fn in_extension(within: Within, size: u64, room: usize, byte: u8) -> Result<Place, Malformed>
    requires { size < 2 ^ 62 }
    ensures { (l : Limits) → StepsOver l (Place.Extension within size room) byte result }
{
    match byte {
        b'\r' if within.may_end() => Ok(Place::SizeFeed(size)),
        b'\n' => Err(Malformed::BareFeed),
        _ => match within.next(byte) {
            None => Err(Malformed::BadSize),
            Some(next) if room <= next.least() => Err(Malformed::LineTooLong),
            Some(next) => Ok(Place::Extension(next, size, room - 1)),
        },
    }
}

// The LF behind the line of a size.
fn begin_data(limits: &Limits, size: u64) -> Place
    requires { size < 2 ^ 62 }
    ensures { StepsOver limits.now (Place.SizeFeed size) 10 (Ok result) }
{
    if size == 0 {
        Place::Fields(limits.trailers)
    } else {
        Place::Data(size)
    }
}

// A byte before a line of the trailers.
fn begin_field(room: usize, byte: u8) -> Result<Place, Malformed>
    ensures { (l : Limits) → StepsOver l (Place.Fields room) byte result }
{
    match byte {
        b'\r' => Ok(Place::LastFeed),
        b'\n' => Err(Malformed::BareFeed),
        _ if !is_header_name_token(byte) => Err(Malformed::BadField),
        // A field has a colon behind its name.
        _ if room < 2 => Err(Malformed::TrailersTooLong),
        _ => Ok(Place::FieldName(room - 1)),
    }
}

// A byte in the name of a line of the trailers, or the colon behind it.
fn in_name(room: usize, byte: u8) -> Result<Place, Malformed>
    requires { 0 < room }
    ensures { (l : Limits) → StepsOver l (Place.FieldName room) byte result }
{
    match byte {
        b':' => Ok(Place::FieldValue(room - 1)),
        b'\n' => Err(Malformed::BareFeed),
        _ if !is_header_name_token(byte) => Err(Malformed::BadField),
        _ if room < 2 => Err(Malformed::TrailersTooLong),
        _ => Ok(Place::FieldName(room - 1)),
    }
}

// A byte behind that colon, or the end of the line.
fn in_value(room: usize, byte: u8) -> Result<Place, Malformed>
    ensures { (l : Limits) → StepsOver l (Place.FieldValue room) byte result }
{
    match byte {
        b'\r' => Ok(Place::FieldFeed(room)),
        b'\n' => Err(Malformed::BareFeed),
        _ if !is_header_value_token(byte) => Err(Malformed::BadField),
        _ if room == 0 => Err(Malformed::TrailersTooLong),
        _ => Ok(Place::FieldValue(room - 1)),
    }
}

// The end of a chunk.
fn end_data(byte: u8) -> Result<Place, Malformed>
    ensures { (l : Limits) → StepsOver l (Place.Data 0) byte result }
{
    if byte == b'\r' {
        Ok(Place::DataFeed)
    } else {
        Err(Malformed::ChunkTooLong)
    }
}

// The LF that has to stand behind a CR, and leads there.
fn feed(byte: u8, behind: Place) -> Result<Place, Malformed>
    ensures found { IfOk result (λ place. (byte ≡ 10) × (place ≡ behind)) }
    ensures wrong { IfErr result (λ why. (byte ≢ 10) × (why ≡ Malformed.BareReturn)) }
{
    if byte == b'\n' {
        Ok(behind)
    } else {
        Err(Malformed::BareReturn)
    }
}

// Goes on by one byte.
fn step(limits: &Limits, place: Place, byte: u8) -> Result<Place, Malformed>
    requires place { IsPlace place }
    requires open { ¬ IsDataOrDone place }
    ensures { StepsOver limits.now place byte result }
{
    match place {
        Place::Line => begin_size(limits, byte),
        Place::Size(number, room) => in_size(number, room, byte),
        Place::Extension(within, size, room) => in_extension(within, size, room, byte),
        Place::SizeFeed(size) => feed(byte, begin_data(limits, size)),
        Place::Data(_) => end_data(byte),
        Place::DataFeed => feed(byte, Place::Line),
        Place::Fields(room) => begin_field(room, byte),
        Place::FieldName(room) => in_name(room, byte),
        Place::FieldValue(room) => in_value(room, byte),
        Place::FieldFeed(room) => feed(byte, Place::Fields(room)),
        Place::LastFeed => feed(byte, Place::Done),
        Place::Done => unreachable!(),
    }
}

// Whether a payload or nothing comes next.
pub(crate) fn is_settled(place: Place) -> bool
    ensures { IsTrue result ↔ IsDataOrDone place }
{
    match place {
        Place::Data(left) => left > 0,
        Place::Done => true,
        _ => false,
    }
}

/// Takes what is no payload of the front of `shown`.
pub(crate) fn advance(limits: &Limits, start: Place, shown: &[u8]) -> Reached
    requires { IsPlace start }
    ensures { Advances limits.now start shown.now result }
{
    let mut place = start;
    let mut taken = 0;
    while taken < shown.len() && !is_settled(place) {
        match step(limits, place, shown[taken]) {
            Ok(next) => {
                place = next;
                taken += 1;
            }
            Err(why) => {
                return Reached {
                    place,
                    taken,
                    wrong: Some(why),
                };
            }
        }
    }
    Reached {
        place,
        taken,
        wrong: None,
    }
}
