//! The text of SMTP's `DATA` (RFC 5321, 4.5.2): a line of one dot ends it, and one that begins with a dot has one more.
ghost use Rattle.std.specs.Prelude.{◌≡◌};
ghost use Rattle.tests_bodies.specs.DotStuffed.{in_line};

use body_reader::{ByteCoding, Turn};

/// Where in a text one stands.
#[derive(Clone, Copy, Debug, Drop)]
pub enum Place {
    /// Before a line.
    Line,
    /// In a line.
    Within,
    /// Behind the CR of a line.
    Return,
    /// Behind a dot that begins a line.
    Dot,
    /// Behind a CR behind that.
    LastReturn,
    /// Behind the text.
    Done,
}

/// What stands alone, and so neither ends a line nor is in one.
#[derive(Clone, Copy, Debug, Drop)]
pub enum Alone {
    Return,
    Feed,
}

/// A text of lines, each with its CR and line feed; none of both stands alone, so nothing else passes for the end.
#[derive(Clone, Copy, Debug, Drop)]
pub struct DotStuffed;

impl ByteCoding for DotStuffed {
    ghost use Rattle.tests_bodies.specs.DotStuffed.{dot_stuffed};
    ghost use Rattle.tests_bodies.specs.DotStuffedLaws.{dot_stuffed_lawful};

    type Place = Place;

    type Wrong = Alone;

    ghost turns = { λ _. dot_stuffed };

    fn first(&self) -> Place {
        Place::Line
    }

    fn is_end(&self, place: Place) -> bool {
        matches!(place, Place::Done)
    }

    fn turn(&self, place: Place, byte: u8) -> Turn<Place, Alone> {
        match place {
            Place::Line if byte == b'.' => Turn::Passed(Place::Dot),
            Place::Dot if byte == b'\r' => Turn::Passed(Place::LastReturn),
            Place::Return if byte == b'\n' => Turn::Payload(Place::Line),
            Place::LastReturn if byte == b'\n' => Turn::Passed(Place::Done),
            Place::Return | Place::LastReturn => Turn::Wrong(Alone::Return),
            Place::Line | Place::Within | Place::Dot | Place::Done => in_line(byte),
        }
    }

    ghost lawful = { λ _. dot_stuffed_lawful };
}

// What a byte of a line is.
fn in_line(byte: u8) -> Turn<Place, Alone>
    ensures { result ≡ in_line byte }
{
    if byte == b'\r' {
        Turn::Payload(Place::Return)
    } else if byte == b'\n' {
        Turn::Wrong(Alone::Feed)
    } else {
        Turn::Payload(Place::Within)
    }
}
