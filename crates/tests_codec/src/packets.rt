//! Packet lines, as git sends those that have a payload: four digits in hexadecimal say how long one is, themselves among it.
ghost use Rattle.std.specs.Prelude.{◌≡◌};
ghost use Rattle.tests_codec.specs.Packets.{behind, digit_of};

use codec::{HeaderBytes, Scan, ScanOut, ScanStep};

/// Where a header stands: behind these digits.
#[derive(Clone, Copy, Debug, Drop)]
pub enum Place {
    None,
    One(u8),
    Two(u8, u8),
    Three(u8, u8, u8),
}

/// Packets of the greatest length that git sends.
#[derive(Clone, Copy, Debug, Drop)]
pub struct Packets;

impl Scan for Packets {
    ghost use Rattle.tests_codec.specs.Packets.{packets};
    ghost use Rattle.tests_codec.specs.PacketsLaws.{packets_small};

    type State = Place;

    ghost scanning = { λ _. packets };

    fn start(&self) -> Place {
        Place::None
    }

    fn turn(&self, place: Place, byte: u8) -> ScanStep<Place> {
        match digit(byte) {
            Some(digit) => with_digit(place, digit),
            None => ScanStep::Bad,
        }
    }

    fn most_header(&self) -> usize {
        4
    }

    fn max(&self) -> usize {
        65516
    }

    fn tail(&self) -> &[u8] {
        b""
    }

    ghost small = { λ _. packets_small };
}

// Those of at most one byte are written too.
impl ScanOut for Packets {
    ghost use Rattle.tests_codec.specs.PacketsOut.{packets_out};
    ghost use Rattle.tests_codec.specs.PacketsOutLaws.{packets_read_back};

    ghost headers_out = { λ _. packets_out };

    fn header_of(&self, len: usize) -> HeaderBytes {
        if len == 0 {
            HeaderBytes::new(b"0004")
        } else {
            HeaderBytes::new(b"0005")
        }
    }

    fn max_written(&self) -> usize {
        1
    }

    ghost read_back = { λ _. packets_read_back };
}

// The digit that a byte is.
fn digit(byte: u8) -> Option<u8>
    ensures { result ≡ digit_of byte }
{
    if byte > 47 && byte < 58 {
        Some(byte - 48)
    } else if byte > 96 && byte < 103 {
        Some(byte - 87)
    } else {
        None
    }
}

// Behind one more digit.
fn with_digit(place: Place, digit: u8) -> ScanStep<Place>
    ensures { result ≡ behind place digit }
{
    match place {
        Place::None => ScanStep::More(Place::One(digit)),
        Place::One(a) => ScanStep::More(Place::Two(a, digit)),
        Place::Two(a, b) => ScanStep::More(Place::Three(a, b, digit)),
        Place::Three(a, b, c) => {
            let all = 4096 * usize::from(a)
                + 256 * usize::from(b)
                + 16 * usize::from(c)
                + usize::from(digit);
            if all < 4 {
                ScanStep::Bad
            } else {
                ScanStep::Sized(all - 4)
            }
        }
    }
}
