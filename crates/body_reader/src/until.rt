//! The coding of a body that ends at a delimiter.
ghost use Rattle.std.specs.Prelude.{◌≡◌, ◌<◌, ◌≤◌, length, take, MatchBool};
ghost use Rattle.body_reader.specs.Until.{IsNowhereIn, MayBegin};

use crate::coding::{Coding, Look};
use memchr::memmem::{Finder, FinderBuilder};

/// A body that ends with the first place where a delimiter stands, as a part of multipart does. All that stands before it is
/// payload.
#[derive(Drop)]
pub struct Until {
    /// The search for the delimiter, which it owns.
    pub delimiter: Finder<'static>,
    pub ghost some: { 0 < length delimiter },
}

impl Until {
    /// A body that ends at this delimiter, whose search is prepared here, for all looks.
    pub fn new(delimiter: Vec<u8>) -> Until
        requires { 0 < length delimiter.items }
        ensures { result.delimiter ≡ delimiter.items }
    {
        Until {
            delimiter: FinderBuilder::new().build_forward_owned(delimiter),
        }
    }

    /// Whether the delimiter stands nowhere in these bytes, as it doesn't in the first `known`.
    pub fn is_nowhere_in(&self, bytes: &[u8], known: usize) -> bool
        requires within { known ≤ length bytes.now }
        requires known { IsNowhereIn self.now.delimiter (take known bytes.now) }
        ensures { MatchBool result (IsNowhereIn self.now.delimiter bytes.now) (¬ IsNowhereIn self.now.delimiter bytes.now) }
    {
        let searched = known.saturating_sub(self.delimiter.needle().len());
        // Of the first `known` no more are searched again than it has.
        self.delimiter.find(&bytes[searched..]).is_none()
    }
}

/// Where in it one stands.
#[derive(Clone, Copy, Debug)]
pub enum Part {
    /// Before the delimiter.
    Inside,
    /// Behind it.
    Behind,
}

impl Coding for Until {
    ghost use Rattle.body_reader.specs.Until.{until};
    ghost use Rattle.body_reader.specs.UntilLaws.{until_lawful};

    type Place = Part;

    type Wrong = ();

    ghost grammar = { λ c. until c.delimiter };

    fn first(&self) -> Part {
        Part::Inside
    }

    fn ahead(&self) -> usize {
        self.delimiter.needle().len()
    }

    fn look(&self, place: Part, shown: &[u8]) -> Look<Part, ()> {
        match place {
            Part::Behind => Look::Ended,
            Part::Inside => {
                let needle = self.delimiter.needle();
                match self.delimiter.find(shown) {
                    Some(0) => Look::Passed(needle.len(), Part::Behind),
                    Some(at) => Look::Payload(at as u64),
                    None => {
                        let at = may_begin(shown, needle);
                        if at == 0 {
                            return Look::More(shown.len() + 1);
                        }
                        Look::Payload(at as u64)
                    }
                }
            }
        }
    }

    fn behind(&self, _place: Part, _payload: &[u8]) -> Part {
        Part::Inside
    }

    ghost lawful = { λ c. until_lawful c.delimiter c.some };
}

// Where in bytes in which the delimiter doesn't stand it may begin.
fn may_begin(shown: &[u8], needle: &[u8]) -> usize
    requires { 0 < length needle.now }
    ensures begins { MayBegin needle.now shown.now result }
    ensures short { result ≡ 0 → length shown.now < length needle.now }
{
    let first = needle[0];
    for at in shown.len().saturating_sub(needle.len() - 1)..shown.len() {
        if shown[at] == first && needle.starts_with(&shown[at..]) {
            return at;
        }
    }
    shown.len()
}
