//! Laws, each as the contract of a function. What its grammars and exact relations come to in lists stands in front.
ghost use Rattle.std.specs.Prelude.{◌≡◌, ℕ, ◌<◌, ◌≤◌, List, [], ◌∷◌, ◌++◌, flat_map};
ghost use Rattle.std.specs.Char.{digit_value};
ghost use Rattle.std.specs.List.{concat, All};
ghost use Rattle.buffer_redux.specs.Buffered.{Buffered};
ghost use Rattle.buffer_redux.specs.declared.policy.StdPolicy.{StdPolicy};
ghost use Rattle.body_reader.specs.BodyReader.{handed_of};
ghost use Rattle.body_reader.specs.Given.{HandsGiven};
ghost use Rattle.chunked.specs.Body.{IsBodyOfChunks};
ghost use Rattle.chunked.specs.Chunk.{IsCarried, IsChunks, body_end, chunk};
ghost use Rattle.chunked.specs.ChunkedWriter.{LetsThrough};
ghost use Rattle.chunked.specs.Coding.{chunked};
ghost use Rattle.chunked.specs.RoundTrip.{WroteBody};

use crate::coding::ChunkedReader;
use crate::limits::Limits;
use crate::writer::ChunkedWriter;
use body_reader::laws::given_body;
use buffer_redux::policy::ReaderPolicy;
use buffer_redux::tell::{TellRead, TellWrite};

/// No body begins another: what bytes begin with a body settles where it ends, and its payload, whatever the limits are.
pub fn one_body()
    ensures written { (p q : List (List ℕ)) (xs ys : List ℕ) → All IsCarried p → All IsCarried q
        → (flat_map chunk p ++ body_end []) ++ xs ≡ (flat_map chunk q ++ body_end []) ++ ys
        → (concat p ≡ concat q) × (xs ≡ ys) }
    ensures one { (l m : Limits) (a b p q xs ys : List ℕ) → IsBodyOfChunks l a p → IsBodyOfChunks m b q → a ++ xs ≡ b ++ ys
        → (a ≡ b) × (p ≡ q) × (xs ≡ ys) }
{}

/// The bytes that were taken are right: some body begins with them. And each body that does has a payload that begins with
/// what was handed out.
pub fn taken_begins<R: TellRead, P: ReaderPolicy>(reader: &ChunkedReader<R, P>)
    ensures digit { (b : ℕ) (more : List ℕ) → reader.now.taken ≡ b ∷ more → digit_value b < 16 }
    ensures right { (rest payload : List ℕ)
        × IsBodyOfChunks reader.now.coding.0 (reader.now.taken ++ rest) (handed_of reader.now ++ payload) }
    ensures payload { (rest whole : List ℕ) → IsBodyOfChunks reader.now.coding.0 (reader.now.taken ++ rest) whole
        → (payload : List ℕ) × (whole ≡ handed_of reader.now ++ payload) }
{
    let _ = reader.get_ref();
}

/// Where a writer of a body took this payload in, in any writes, and was finished with these trailers, or with none, what the
/// buffered writer gained is a body with this payload.
pub fn written_body<W: TellWrite>(writer: &ChunkedWriter<W>)
    ensures chunks { writer.now.due ≡ 0 → IsChunks writer.now.wire writer.now.calls.writes.received }
    ensures body { (first last : Buffered W StdPolicy) (payload : List ℕ) (fields : List (List ℕ)) (wrote : List ℕ)
        (limits : Limits) → WroteBody W.log W.trace first payload fields writer.now last wrote → LetsThrough fields limits
        → IsBodyOfChunks limits wrote payload }
{
    let _ = writer.get_ref();
}

/// What was written and finished so is what a reader hands out that it is given to, and then what follows, however both streams
/// are cut, and whatever the capacities: up to the end of the body its beginning, and then all, and no answer that a byte is
/// wrong or missing.
pub fn round_trip<W: TellWrite, R: TellRead, P: ReaderPolicy>(
    writer: &ChunkedWriter<W>,
    reader: &ChunkedReader<R, P>,
)
    ensures front { (chunks : List (List ℕ)) (behind rest : List ℕ) → All IsCarried chunks → 16 ≤ reader.now.coding.0.line
        → (flat_map chunk chunks ++ body_end []) ++ behind ≡ reader.now.taken ++ (reader.now.reader.block.bytes ++ rest)
        → (later : List ℕ) × (concat chunks ≡ reader.now.calls.reads.given ++ later) }
    ensures given { (first last : Buffered W StdPolicy) (payload : List ℕ) (fields : List (List ℕ)) (wrote : List ℕ)
        → WroteBody W.log W.trace first payload fields writer.now last wrote → (behind rest : List ℕ)
        → LetsThrough fields reader.now.coding.0
        → wrote ++ behind ≡ reader.now.taken ++ (reader.now.reader.block.bytes ++ rest)
        → HandsGiven (chunked reader.now.coding.0) payload behind rest reader.now }
{
    given_body(reader);
}
