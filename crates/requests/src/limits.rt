//! Which bodies are too large to be taken whole.
ghost use Rattle.std.specs.Prelude.{◌≡◌};
ghost use Rattle.requests.specs.Large.{is_large};

use messages::Extent;

// The most payload.
const MAX_PAYLOAD: u64 = 1 << 40;

// How many bytes in chunks may be no payload, but for five with each byte of that, which a chunk of one byte has.
const MAX_OTHER: u64 = 16_384;

// Whether a body is too large of which so many bytes were taken, with so much payload; or its head says so.
pub fn is_large(extent: Extent, taken: u64, len: u64) -> bool
    ensures { result ≡ is_large extent taken len }
{
    match extent {
        Extent::Sized(all) => len > MAX_PAYLOAD || all > MAX_PAYLOAD,
        Extent::Chunked => len > MAX_PAYLOAD || taken > MAX_OTHER + 6 * len,
    }
}
