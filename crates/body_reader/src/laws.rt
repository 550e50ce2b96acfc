//! Laws, each as the contract of a function.
ghost use Rattle.std.specs.Prelude.{◌≡◌, ℕ, List, ◌++◌, Some};
ghost use Rattle.buffer_redux.specs.Buffered.{Buffered};
ghost use Rattle.buffer_redux.specs.BufReader.{ReadsAlong};
ghost use Rattle.buffer_redux.specs.Remaining.{ahead};
ghost use Rattle.body_reader.specs.BodyReader.{BodyState, BodyWent, IsBodyReader, TookWholeBody, begun, handed_of};
ghost use Rattle.body_reader.specs.Coding.{IsBody, Leads, heeded};
ghost use Rattle.body_reader.specs.Given.{HandsGiven};

use crate::coding::Coding;
use crate::reader::BodyReader;
use buffer_redux::policy::ReaderPolicy;
use buffer_redux::tell::TellRead;

/// No body begins another: what bytes begin with a body settles where it ends, and its payload.
pub fn one_body<C: Coding>(coding: &C)
    ensures { (a b x y xs ys : List ℕ) → IsBody (C.grammar coding.now) a x → IsBody (C.grammar coding.now) b y
        → a ++ xs ≡ b ++ ys → (a ≡ b) × (x ≡ y) }
{}

/// Since the reader was made, the bytes that were taken came out of the buffered reader, in order, and what was handed out is
/// all that its calls handed out.
pub fn since_new<R: TellRead, C: Coding, P: ReaderPolicy>(reader: &BodyReader<R, C, P>)
    ensures taken { (first : Buffered R P) (coding : C) (payload : List ℕ)
        → BodyWent R.remaining P.rules (C.grammar coding) (begun (C.grammar coding) first coding) payload reader.now
        → ReadsAlong R.remaining P.rules first reader.now.taken reader.now.reader }
    ensures handed { (first : Buffered R P) (coding : C) (payload : List ℕ)
        → BodyWent R.remaining P.rules (C.grammar coding) (begun (C.grammar coding) first coding) payload reader.now
        → handed_of reader.now ≡ payload }
{}

/// Where what was taken, then what is buffered, and then some bytes, begin with a body: what was handed out begins its payload,
/// nothing is answered as wrong, nor as missing where the body is there, and once it ended all of its payload was handed out, and
/// what is buffered, and then those bytes, follow it.
pub fn given_body<R: TellRead, C: Coding, P: ReaderPolicy>(reader: &BodyReader<R, C, P>)
    ensures front { (body payload behind rest : List ℕ) → IsBody (C.grammar reader.now.coding) body payload
        → body ++ behind ≡ reader.now.taken ++ (reader.now.reader.block.bytes ++ rest)
        → (later : List ℕ) × (payload ≡ reader.now.calls.reads.given ++ later) }
    ensures given { (body payload behind rest : List ℕ) → IsBody (C.grammar reader.now.coding) body payload
        → body ++ behind ≡ reader.now.taken ++ (reader.now.reader.block.bytes ++ rest)
        → HandsGiven (C.grammar reader.now.coding) payload behind rest reader.now }
{
    let _ = reader.get_ref();
}

/// Where the bytes that are known to be left begin with a body, a reader of that which ended, as `finish` does, has handed out or
/// dropped its payload, and leaves just what follows it.
pub fn behind_body<R: TellRead, C: Coding, P: ReaderPolicy>(reader: &BodyReader<R, C, P>)
    ensures { (first : Buffered R P) (body payload behind handed : List ℕ)
        → ahead R.remaining first ≡ Some (body ++ behind) → IsBody (C.grammar reader.now.coding) body payload
        → BodyWent R.remaining P.rules (C.grammar reader.now.coding) (begun (C.grammar reader.now.coding) first
        reader.now.coding) handed reader.now
        → TookWholeBody (C.grammar reader.now.coding) reader.now
        → (handed ≡ payload) × (ahead R.remaining reader.now.reader ≡ Some behind) }
{}

/// Between two states of one reader the bytes that were taken lead on from place to place, with the payload that was handed out
/// in them: just what completes the body where it stands now completes it, with them in front, where it stood.
pub fn leads_on<R: TellRead, C: Coding, P: ReaderPolicy>(reader: &BodyReader<R, C, P>)
    ensures { (before : BodyState R P C C.Place) (payload : List ℕ)
        → IsBodyReader (C.grammar reader.now.coding) before
        → BodyWent R.remaining P.rules (C.grammar reader.now.coding) before payload reader.now
        → (wire : List ℕ) × ReadsAlong R.remaining P.rules before.reader wire reader.now.reader
        × Leads (C.grammar reader.now.coding) before.place wire payload reader.now.place
        (heeded (C.grammar reader.now.coding) reader.now.reader.block.bytes) }
{
    let _ = reader.get_ref();
}
