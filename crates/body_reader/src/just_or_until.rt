//! The coding of a body that is just some bytes, or else ends at a delimiter.
ghost use Rattle.std.specs.Prelude.{◌≡◌, ◌<◌, ◌≤◌, length};
ghost use Rattle.body_reader.specs.Coding.{look_as};

use crate::coding::{Coding, Look};
use crate::until::{Part, Until};

/// A body that is just these bytes, or else ends as one of `until`: so the line `.` ends a text also where that is empty, and
/// a boundary of multipart a part that has no line.
#[derive(Drop)]
pub struct JustOrUntil {
    pub just: Vec<u8>,
    pub until: Until,
    /// How many bytes a look may ask for.
    pub room: usize,
    pub ghost some: { 0 < length just.items },
    pub ghost shorter: { length just.items < length until.delimiter },
    pub ghost fits: { length until.delimiter ≤ room },
}

/// Where in it one stands.
#[derive(Clone, Copy, Debug)]
pub enum JustOr {
    /// Before its first byte.
    Start,
    /// In one that ends at the delimiter, or behind it.
    Until(Part),
    /// Behind just the bytes.
    Just,
}

impl Coding for JustOrUntil {
    ghost use Rattle.body_reader.specs.JustOrUntil.{just_or_until};
    ghost use Rattle.body_reader.specs.JustOrUntilLaws.{just_or_until_lawful};

    type Place = JustOr;

    type Wrong = ();

    ghost grammar = { λ c. just_or_until c.just.items c.until.delimiter c.room };

    fn first(&self) -> JustOr {
        JustOr::Start
    }

    fn ahead(&self) -> usize {
        self.room
    }

    fn look(&self, place: JustOr, shown: &[u8]) -> Look<JustOr, ()> {
        match place {
            JustOr::Start => {
                let just = self.just.as_slice();
                if shown.starts_with(just) {
                    return Look::Passed(just.len(), JustOr::Just);
                }
                if just.starts_with(shown) {
                    return Look::More(shown.len() + 1);
                }
                until_of(self.until.look(Part::Inside, shown))
            }
            JustOr::Until(part) => until_of(self.until.look(part, shown)),
            JustOr::Just => Look::Ended,
        }
    }

    fn behind(&self, _place: JustOr, _payload: &[u8]) -> JustOr {
        JustOr::Until(Part::Inside)
    }

    ghost lawful = { λ c. just_or_until_lawful c.just.items c.until.delimiter c.room c.some c.shorter c.fits };
}

// What a look for the delimiter says.
fn until_of(look: Look<Part, ()>) -> Look<JustOr, ()>
    ensures { result ≡ look_as JustOr.Until (λ why. why) look }
{
    match look {
        Look::Payload(sure) => Look::Payload(sure),
        Look::Passed(count, part) => Look::Passed(count, JustOr::Until(part)),
        Look::More(need) => Look::More(need),
        Look::Wrong(why) => Look::Wrong(why),
        Look::Ended => Look::Ended,
    }
}
