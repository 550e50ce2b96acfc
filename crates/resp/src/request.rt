//! A request, of which some parts may still be to come.
ghost use Rattle.std.specs.Prelude.{◌≡◌, ◌<◌, ◌↔◌, ◌∷◌, ◌++◌, [], IsTrue, OnOk, OnErr};
ghost use Rattle.resp.specs.Waiting.{BeginsRequest, Feeds, KeepsPart, TakesPart, bytes_of, nothing};

use crate::number::is_negative;
use decoders::RespItem;
use std::alloc::{AllocError, Global};
use std::marker::Model;

/// The most parts of a request.
pub const MAX_PARTS: usize = 1024;

/// What a piece made of a request.
#[derive(Clone, Copy, PartialEq, Eq, Debug, Drop)]
pub enum Fed {
    /// More is to come, or there is none.
    More,
    /// The request is whole.
    Whole,
    /// What came is no request.
    Bad(Refusal),
}

/// Why a piece belongs to no request.
#[derive(Clone, Copy, PartialEq, Eq, Debug, Drop)]
pub enum Refusal {
    /// The head of an array has no number, or one that is too large.
    Count,
    /// Another piece stands where a bulk string should.
    NoBulk,
    /// Another piece stands where a request should begin.
    NoArray,
}

/// A request, of which some parts may still be to come.
#[derive(Drop)]
pub struct Request {
    parts: Vec<Vec<u8>>,
    left: usize,
    lost: bool,
}

impl Model for Request {
    ghost use Rattle.resp.specs.Waiting.{Waiting, bytes_of};

    ghost Value = { Waiting };

    ghost view = { λ p. record { parts = bytes_of p.parts.items; left = p.left; lost = p.lost } };
}

impl Request {
    /// None yet.
    pub fn new(alloc: Global) -> Request
        ensures { result ≡ nothing }
    {
        Request {
            parts: Vec::new(alloc),
            left: 0,
            lost: false,
        }
    }

    /// The parts that came.
    pub fn parts(&self) -> &[Vec<u8>]
        ensures { bytes_of result.now ≡ self.now.parts }
    {
        self.parts.as_slice()
    }

    /// Whether memory was refused for a part.
    pub fn is_lost(&self) -> bool
        ensures { result ≡ self.now.lost }
    {
        self.lost
    }

    // Whether parts are to come.
    pub(crate) fn is_begun(&self) -> bool
        ensures { IsTrue result ↔ (0 < self.now.left) }
    {
        self.left > 0
    }

    /// The request was answered.
    pub fn clear(&mut self)
        ensures { self.new ≡ nothing }
    {
        self.parts.clear();
        self.left = 0;
        self.lost = false;
    }

    /// Takes a piece, which begins a request, or is a part of one.
    pub fn take(&mut self, alloc: Global, item: RespItem, payload: &[u8]) -> Fed
        ensures { Feeds self.old item payload.now result self.new }
    {
        if self.left > 0 {
            self.take_part(alloc, item, payload)
        } else {
            self.begin(alloc, item, payload)
        }
    }

    // Takes the next part.
    fn take_part(&mut self, alloc: Global, item: RespItem, payload: &[u8]) -> Fed
        requires { 0 < self.old.left }
        ensures { TakesPart self.old item payload.now result self.new }
    {
        match item {
            RespItem::Bulk => {
                self.left -= 1;
                self.push(alloc, payload);
                if self.left == 0 {
                    Fed::Whole
                } else {
                    Fed::More
                }
            }
            _ => Fed::Bad(Refusal::NoBulk),
        }
    }

    // Begins a request: an array, or a word in one line.
    fn begin(&mut self, alloc: Global, item: RespItem, payload: &[u8]) -> Fed
        ensures { BeginsRequest self.old item payload.now result self.new }
    {
        match item {
            RespItem::Array(Some(count)) => {
                if count > MAX_PARTS {
                    return Fed::Bad(Refusal::Count);
                }
                self.clear();
                self.left = count;
                Fed::More
            }
            RespItem::Array(None) => {
                if is_negative(payload) {
                    Fed::More
                } else {
                    Fed::Bad(Refusal::Count)
                }
            }
            RespItem::NullArray => Fed::More,
            RespItem::Inline => {
                self.clear();
                if payload.is_empty() {
                    return Fed::More;
                }
                self.push(alloc, payload);
                Fed::Whole
            }
            _ => Fed::Bad(Refusal::NoArray),
        }
    }

    // Keeps a part. Where memory is refused the request is lost.
    fn push(&mut self, alloc: Global, bytes: &[u8])
        ensures { KeepsPart self.old bytes.now self.new }
    {
        match push_copy(alloc, &mut self.parts, bytes) {
            Ok(()) => {}
            Err(_) => {
                self.lost = true;
            }
        }
    }
}

fn push_copy(alloc: Global, parts: &mut Vec<Vec<u8>>, bytes: &[u8]) -> Result<(), AllocError>
    ensures ok { OnOk result (bytes_of parts.new.items ≡ bytes_of parts.old.items ++ bytes.now ∷ []) }
    ensures err { OnErr result (parts.new.items ≡ parts.old.items) }
{
    let part = Vec::from_slice(alloc, bytes)?;
    parts.push(part)?;
    Ok(())
}
