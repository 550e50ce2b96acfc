//! Frames as pieces: which bytes are one, and which are written.
ghost use Rattle.std.specs.Prelude.{◌≡◌, ℕ, ◌+◌, ◌<◌, ◌≤◌, ◌^◌, length};
ghost use Rattle.frame_reader.specs.Frames.{AreBytes, BeginsWith};

use codec::{Codec, Decoder, Encoder, End, Found, HeaderBytes, Span};

/// How many bytes the length of a frame takes.
const HEADER: usize = 2;

/// Frames whose payload has at most `max` bytes.
#[derive(Clone, Copy, Debug, Drop)]
pub struct Frames {
    pub max: u16,
    pub ghost fits: { max < 2 ^ 16 },
}

/// Why bytes are no frame.
#[derive(Clone, Copy, Debug, Drop)]
pub enum FrameFault {
    /// The stream ended after so many bytes of the frame.
    Truncated(usize),
    /// The payload has this length, which is more than is taken.
    TooLong(u16),
}

impl Decoder for Frames {
    ghost use Rattle.codec.specs.Decoding.{Decodes, OnMore};
    ghost use Rattle.frame_reader.specs.Framed.{framed};
    ghost use Rattle.frame_reader.specs.FramedLaws.{framed_lawful};
    ghost use Rattle.frame_reader.specs.Frames.{AsksFrame};

    type Wrong = FrameFault;

    type Note = ();

    ghost grammar = { λ d. framed d.max };

    ghost looks = { λ _ bytes _ found. OnMore found (AsksFrame bytes) };

    fn most(&self) -> usize {
        HEADER + usize::from(self.max)
    }

    fn no_note(&self) {}

    #[inline(always)]
    fn decode(&self, bytes: &[u8], _seen: usize, _note: &mut ()) -> Found<FrameFault>
        ensures looks { OnMore result (AsksFrame bytes.now) }
        ensures finds { Decodes (framed self.now.max) bytes.now result }
    {
        if bytes.len() < HEADER {
            return Found::More(HEADER);
        }
        let len = length_of(bytes);
        if len > self.max {
            return Found::Wrong(FrameFault::TooLong(len));
        }
        let len = usize::from(len);
        let whole = HEADER + len;
        if bytes.len() < whole {
            return Found::More(whole);
        }
        Found::Piece(Span { from: HEADER, len }, whole)
    }

    fn at_end(&self, bytes: &[u8]) -> End<FrameFault> {
        End::Wrong(FrameFault::Truncated(bytes.len()))
    }

    ghost lawful = { λ d. framed_lawful d.max d.fits };
}

/// A payload that is longer is refused by its length.
impl Encoder for Frames {
    ghost use Rattle.frame_reader.specs.Framed.{framed_out};
    ghost use Rattle.frame_reader.specs.FramedLaws.{framed_writable};

    type Refusal = usize;

    ghost encoding = { λ d. framed_out d.max };

    fn most_written(&self) -> usize {
        HEADER + usize::from(self.max)
    }

    #[inline(always)]
    fn header(&self, payload: &[u8]) -> Result<HeaderBytes, usize> {
        if payload.len() > usize::from(self.max) {
            return Err(payload.len());
        }
        Ok(HeaderBytes::new(&(payload.len() as u16).to_be_bytes()))
    }

    #[inline(always)]
    fn tail(&self) -> &[u8] {
        b""
    }

    ghost writable = { λ d. framed_writable d.max };
}

impl Codec for Frames {
    ghost use Rattle.frame_reader.specs.FramedLaws.{framed_back};

    ghost reads_back = { λ d. framed_back d.max };
}

// The length of the payload of the frame that bytes begin with.
#[inline(always)]
fn length_of(bytes: &[u8]) -> u16
    requires { HEADER ≤ length bytes.now }
    ensures { BeginsWith result bytes.now }
{
    u16::from_be_bytes([bytes[0], bytes[1]])
}

/// What a slice holds is bytes.
pub(crate) fn are_bytes(bytes: &[u8])
    ensures { AreBytes bytes.now }
{
    let _ = bytes;
}
