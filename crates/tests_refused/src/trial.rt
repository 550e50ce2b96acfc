//! What a run has met so far. Nothing here takes memory.
use buffer_redux::GrowError;
use std::fmt;
use std::fmt::Write;
use std::io::ErrorKind;

// The hash FNV-1a of what was written.
#[derive(Drop)]
struct Hash(u64);

impl fmt::Write for Hash {
    fn write_str(&mut self, text: &str) -> fmt::Result {
        for byte in text.as_bytes() {
            self.0 = (self.0 ^ u64::from(*byte)).wrapping_mul(0x100000001b3);
        }
        Ok(())
    }
}

/// The hash of all that a value prints of itself: of a buffer its storage, and where its bytes stand in it.
pub fn print<T: fmt::Debug>(value: &T) -> u64 {
    let mut hash = Hash(0xcbf29ce484222325);
    let _ = write!(hash, "{value:?}");
    hash.0
}

/// Whether a run met its refusal, and what wasn't as it should be first.
#[derive(Drop)]
pub struct Trial {
    pub met: bool,
    pub wrong: Option<&'static str>,
}

impl Trial {
    /// Before a run.
    pub fn new() -> Trial {
        Trial {
            met: false,
            wrong: None,
        }
    }

    /// Notes `what`, unless it is so. Nothing ends here, so that no function but `main` has to.
    pub fn sees(&mut self, so: bool, what: &'static str) {
        if !so && self.wrong.is_none() {
            self.wrong = Some(what);
        }
    }

    /// Sees that a call succeeded which can't be refused: it takes no memory, or the run met its refusal.
    pub fn granted(&mut self, is_ok: bool) {
        self.sees(is_ok, "refused without need");
    }

    /// Sees that a value which a refused call left prints what it did before.
    pub fn unchanged<T: fmt::Debug>(&mut self, value: &T, before: u64) {
        self.sees(print(value) == before, "a refusal changes something");
    }

    /// Notes the refusal. A run meets one at the most.
    pub fn meets(&mut self) {
        let is_first = !self.met;
        self.sees(is_first, "refused twice");
        self.met = true;
    }

    /// The same of a call that returns this error.
    pub fn refused(&mut self, error: GrowError) {
        let is_memory = matches!(error, GrowError::Memory);
        self.sees(is_memory, "a growth passes its limit");
        self.meets();
    }

    /// The same of a call that returns an error of io of this kind.
    pub fn failed(&mut self, kind: ErrorKind) {
        self.sees(kind == ErrorKind::OutOfMemory, "a stream or a policy fails");
        self.meets();
    }
}
