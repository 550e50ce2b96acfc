//! Codings that say of each byte, in its place, what it is.
ghost use Rattle.std.specs.Prelude.{◌≡◌};
ghost use Rattle.body_reader.specs.ByByte.{AreLawful, TurnRules, Ran};

use crate::coding::{Coding, Look};

/// What a byte is in its place, and where it leads.
#[derive(Clone, Copy, Debug, PartialEq, Eq, Drop)]
pub enum Turn<P, W> {
    /// Payload.
    Payload(P),
    /// None: it is taken, and not handed out.
    Passed(P),
    /// A byte that can't stand there.
    Wrong(W),
}

/// A coding in which a byte and its place say what it is, whatever follows; and in which no byte is payload whatever it is, as
/// each is where a length stands in front. [`ByByte`] reads its bodies, and little is left to prove: what is no payload leads on,
/// and from each place some bytes lead to the end.
pub trait ByteCoding: Drop {
    /// Where in a body one stands.
    type Place: Copy;
    /// Why a byte is wrong.
    type Wrong: Copy;

    // What each byte is.
    ghost turns: { Self → TurnRules Self.Place Self.Wrong };

    /// Before a body.
    fn first(&self) -> Self::Place
        ensures { result ≡ (turns self.now).first };

    /// Whether a body ends there.
    fn is_end(&self, place: Self::Place) -> bool
        ensures { result ≡ (turns self.now).is_end place };

    /// What the next byte is.
    fn turn(&self, place: Self::Place, byte: u8) -> Turn<Self::Place, Self::Wrong>
        ensures { result ≡ (turns self.now).turn place byte };

    // What is no payload leads on, no byte is payload whatever it is, and each place leads to the end.
    ghost lawful: { (c : Self) → AreLawful (turns c) };
}

/// The coding that says of each byte what it is. It looks at each byte of payload twice: to find where payload ends, and to say
/// where it leads.
#[derive(Clone, Copy, Debug, Drop)]
pub struct ByByte<C: ByteCoding>(pub C);

impl<C: ByteCoding> Coding for ByByte<C> {
    ghost use Rattle.body_reader.specs.ByByte.{by_byte};
    ghost use Rattle.body_reader.specs.ByByteLaws.{by_byte_lawful};

    type Place = C::Place;

    type Wrong = C::Wrong;

    ghost grammar = { λ c. by_byte (C.turns c.0) };

    fn first(&self) -> C::Place {
        self.0.first()
    }

    fn ahead(&self) -> usize {
        1
    }

    fn look(&self, place: C::Place, shown: &[u8]) -> Look<C::Place, C::Wrong> {
        if self.0.is_end(place) {
            return Look::Ended;
        }
        if shown.is_empty() {
            return Look::More(1);
        }
        match self.0.turn(place, shown[0]) {
            Turn::Payload(_) => Look::Payload(run(&self.0, place, shown).0 as u64),
            Turn::Passed(next) => Look::Passed(1, next),
            Turn::Wrong(why) => Look::Wrong(why),
        }
    }

    fn behind(&self, place: C::Place, payload: &[u8]) -> C::Place {
        run(&self.0, place, payload).1
    }

    ghost lawful = { λ c. by_byte_lawful (C.turns c.0) (C.lawful c.0) };
}

// How many of these bytes are payload, up to the first that is none, and where they lead.
fn run<C: ByteCoding>(coding: &C, place: C::Place, bytes: &[u8]) -> (usize, C::Place)
    ensures { Ran (C.turns coding.now) place bytes.now result.0 result.1 }
{
    let mut at = place;
    let mut count = 0;
    while count < bytes.len() && !coding.is_end(at) {
        match coding.turn(at, bytes[count]) {
            Turn::Payload(next) => {
                at = next;
                count += 1;
            }
            _ => return (count, at),
        }
    }
    (count, at)
}
