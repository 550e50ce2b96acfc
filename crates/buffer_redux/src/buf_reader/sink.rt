//! Where the bytes go that a call hands out, and how it goes on up to a byte.
ghost use Rattle.std.specs.Prelude.{◌≡◌, ◌^◌, ◌<◌, ◌≤◌, ◌∷◌, [], ◌++◌, ℕ, List, length, take, drop, MatchResult, IfErr, IfOk, string_bytes, string_capacity, string_len, vec_capacity, vec_items, vec_len, IsUtf8, ⊤};
ghost use Rattle.std.proofs.lemmas.Str.{IsUtf8-append, IsUtf8-nil};
ghost use Rattle.buffer_redux.specs.ReadLine.{IsPart, no_text};
ghost use Rattle.buffer_redux.specs.ReadUntil.{Lacks, no_memory};
ghost use Rattle.buffer_redux.specs.Sink.{HandsFirst, HandsUntil, IsLawful, SinkRules, appending, appending-lawful, counting, counting-lawful, fits_len};

use crate::buf_reader::BufReader;
use crate::buf_reader::line::text_in_front;
use crate::buf_reader::until::first_of;
use crate::policy::ReaderPolicy;
use redux_buffer::tell::TellRead;
use std::alloc::Allocator;
use std::io;
use std::io::ErrorKind;

// Where bytes go that are handed out.
pub(super) trait Sink {
    // How it takes them in.
    ghost rules: { SinkRules Self };

    // Takes the bytes in, but for some at their end that it leaves, and returns how many it took.
    fn take_in(&mut self, bytes: &[u8]) -> io::Result<usize>
        ensures taken { IfOk result (λ n. (n ≤ length bytes.now) × rules.takes self.old (take n bytes.now) self.new
            × rules.leaves (drop n bytes.now)) }
        ensures refused { IfErr result (λ e. rules.takes self.old [] self.new × rules.refuses self.old self.new bytes.now e) };

    ghost lawful: { IsLawful rules };
}

// Appends them.
impl<A: Allocator> Sink for Vec<u8, A> {
    ghost rules = { appending (λ v. vec_items v) (λ v. vec_len v) (λ v. vec_capacity v) (λ left. left ≡ [])
        (λ bytes e. no_memory [] e bytes) (λ _. ⊤) };

    fn take_in(&mut self, bytes: &[u8]) -> io::Result<usize> {
        self.extend_from_slice(bytes)?;
        Ok(bytes.len())
    }

    ghost lawful = { appending-lawful _ _ _ _ _ _ tt (λ _ _ _ _. tt) (λ v. (v.ok.0, fits_len v.len _ v.ok.1 v.small)) };
}

// Appends the text that they are, and leaves a part of a character.
impl<A: Allocator> Sink for String<A> {
    ghost rules = { appending (λ v. string_bytes v) (λ v. string_len v) (λ v. string_capacity v) IsPart
        (λ bytes e. no_text [] e bytes) IsUtf8 };

    fn take_in(&mut self, bytes: &[u8]) -> io::Result<usize> {
        let Some(text) = text_in_front(bytes) else {
            return Err(io::Error::from(ErrorKind::InvalidData));
        };
        self.push_str(text)?;
        Ok(text.len())
    }

    ghost lawful = { appending-lawful _ _ _ _ _ _ IsUtf8-nil IsUtf8-append
        (λ v. (v.bytes.ok.0, fits_len v.bytes.len _ v.bytes.ok.1 v.bytes.small)) };
}

// Counts them, and drops them.
#[derive(Drop)]
pub(super) struct Tally {
    pub(super) total: usize,
    ghost fits: { total < 2 ^ 64 },
}

impl Sink for Tally {
    ghost rules = { counting (λ t. t.total) };

    fn take_in(&mut self, bytes: &[u8]) -> io::Result<usize> {
        let n = bytes.len();
        match self.total.checked_add(n) {
            Some(sum) => {
                self.total = sum;
                Ok(n)
            }
            None => Err(io::Error::from(ErrorKind::TimedOut)),
        }
    }

    ghost lawful = { counting-lawful (λ t. t.total) (λ t. t.fits) };
}

impl<R: TellRead, P: ReaderPolicy> BufReader<R, P> {
    // Hands what is buffered to the sink, which lacks `byte`, and what fills then show, up to the first `byte`, with it, or up to
    // the end of the stream. The sink leaves no bytes that end in `byte`.
    #[inline(always)]
    pub(super) fn hand_until<K: Sink>(&mut self, byte: u8, sink: &mut K) -> io::Result<()>
        requires plain { Lacks byte self.old.block.bytes }
        requires whole { (front : List ℕ) → ¬ (K.rules.leaves (front ++ byte ∷ [])) }
        ensures until { HandsUntil R.remaining P.rules K.rules byte self.old sink.old result self.new sink.new }
    {
        let _ = &self.buf;
        'fills: loop {
            let len = self.buf.len();
            self.hand_first(len, sink)?;
            self.fill_more()?;
            if self.buf.is_empty() {
                return Ok(());
            }
            if let Some(at) = first_of(byte, self.buf.buf()) {
                return self.hand_first(at + 1, sink);
            }
        }
    }

    // Hands the first `n` bytes that are buffered to the sink, and drops those that it took.
    #[inline(always)]
    fn hand_first<K: Sink>(&mut self, n: usize, sink: &mut K) -> io::Result<()>
        requires within { n ≤ length self.old.block.bytes }
        ensures hands { MatchResult result
            (λ _. HandsFirst R.remaining P.rules K.rules n self.old sink.old self.new sink.new)
            (λ e. (self.new ≡ self.old) × K.rules.takes sink.old [] sink.new
            × K.rules.refuses sink.old sink.new (take n self.old.block.bytes) e) }
    {
        let shown = self.buf.buf();
        let taken = sink.take_in(&shown[..n])?;
        self.drop_first(taken);
        Ok(())
    }
}
