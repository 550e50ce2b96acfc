//! The chunked coding, as one that a `BodyReader` reads.
ghost use Rattle.std.specs.Prelude.{◌≡◌};
ghost use Rattle.body_reader.specs.Coding.{Looks};
ghost use Rattle.chunked.specs.Coding.{chunked};
ghost use Rattle.chunked.specs.Place.{IsDataOrDone, IsPlace};

use crate::error::Malformed;
use crate::frame::frame;
use crate::limits::Limits;
use crate::place::Place;
use crate::step::{advance, is_settled};
use body_reader::{BodyError, BodyReader, Coding, Look};
use buffer_redux::policy::StdPolicy;

/// A reader of one body, out of a buffered reader of yours, whose buffer has some byte. What follows the body stays in that:
/// [`finish`](BodyReader::finish) hands it back.
///
/// ```
/// let stream = Told::new(b"5\r\nhello\r\n0\r\n\r\nGET".as_slice());
/// let limits = Limits {
///     line: 64,
///     trailers: 4096,
/// };
/// let mut body = ChunkedReader::new(BufReader::new(alloc, stream)?, Chunked(limits));
/// let mut out = [0; 8];
/// assert!(rt; matches!(body.read_payload(&mut out), Ok(5)));
/// assert!(rt; matches!(body.read_payload(&mut out), Ok(0)));
/// assert!(rt; body.is_done());
/// assert!(rt; body.into_inner_torn().buffer() == b"GET".as_slice());
/// ```
///
/// What is left of a body is dropped where it is finished:
///
/// ```
/// let stream = Told::new(b"5\r\nhello\r\n0\r\n\r\nGET".as_slice());
/// let limits = Limits {
///     line: 64,
///     trailers: 4096,
/// };
/// let mut body = ChunkedReader::new(BufReader::new(alloc, stream)?, Chunked(limits));
/// let mut out = [0; 5];
/// assert!(rt; matches!(body.read_payload(&mut out), Ok(5)));
/// let rest = body.finish().map_err(|(_, e)| io::Error::from(e))?;
/// assert!(rt; rest.buffer() == b"GET".as_slice());
/// ```
pub type ChunkedReader<R, P = StdPolicy> = BodyReader<R, Chunked, P>;

/// Why there is no further payload of a chunked body.
///
/// ```
/// let stream = Told::new(b"5\r\nhello!\r\n".as_slice());
/// let limits = Limits {
///     line: 64,
///     trailers: 4096,
/// };
/// let mut body = ChunkedReader::new(BufReader::new(alloc, stream)?, Chunked(limits));
/// let mut out = [0; 8];
/// assert!(rt; matches!(body.read_payload(&mut out), Ok(5)));
/// let refused = body.read_payload(&mut out);
/// assert!(rt;
///     matches!(
///         refused,
///         Err(ChunkedError::Wrong(Malformed::ChunkTooLong, 8))
///     )
/// );
/// ```
pub type ChunkedError = BodyError<Malformed>;

/// The chunked coding, with so much room for what is no payload.
#[derive(Clone, Copy, Debug, Drop)]
pub struct Chunked(pub Limits);

impl Coding for Chunked {
    ghost use Rattle.chunked.specs.CodingLaws.{chunked_lawful};

    type Place = Place;

    type Wrong = Malformed;

    ghost grammar = { λ c. chunked c.0 };

    fn first(&self) -> Place {
        Place::Line
    }

    fn ahead(&self) -> usize {
        1
    }

    #[inline(always)]
    #[tactic(auto, using(crate::specs::CodingLaws::looks_data, crate::specs::CodingLaws::settled_some))]
    fn look(&self, place: Place, shown: &[u8]) -> Look<Place, Malformed> {
        if is_settled(place) {
            return match place {
                Place::Data(left) => Look::Payload(left),
                _ => Look::Ended,
            };
        }
        look_on(&self.0, place, shown)
    }

    fn behind(&self, place: Place, payload: &[u8]) -> Place {
        match place {
            Place::Data(left) => Place::Data(left - payload.len() as u64),
            _ => unreachable!(),
        }
    }

    ghost lawful = { λ c. chunked_lawful c.0 };
}

// What comes next where neither payload does nor the end. A call of its own, so that the reader's loop has the other answers
// alone.
#[inline(never)]
fn look_on(limits: &Limits, place: Place, shown: &[u8]) -> Look<Place, Malformed>
    requires place { IsPlace place }
    requires open { ¬ IsDataOrDone place }
    ensures { Looks (chunked limits.now) place shown.now result }
{
    if shown.is_empty() {
        return Look::More(1);
    }
    if let Some((taken, size)) = frame(limits, place, shown) {
        return Look::Passed(taken, Place::Data(size));
    }
    let reached = advance(limits, place, shown);
    if reached.taken > 0 {
        return Look::Passed(reached.taken, reached.place);
    }
    match reached.wrong {
        Some(why) => Look::Wrong(why),
        None => unreachable!(),
    }
}
