//! Which payload may be collected.
ghost use Rattle.std.specs.Prelude.{◌≤◌, ℕ, List, length, take, MatchBool, ⊤};

/// Says which bytes may be together where payload is collected, as it comes.
pub trait Allows {
    // Which may.
    ghost allowed: { Self → List ℕ → Type 0 };

    /// Whether these may, of which the first `known` may.
    fn allows(&self, bytes: &[u8], known: usize) -> bool
        requires within { known ≤ length bytes.now }
        requires known { allowed self.now (take known bytes.now) }
        ensures { MatchBool result (allowed self.now bytes.now) (¬ allowed self.now bytes.now) };
}

/// Any bytes may.
pub struct Anything;

impl Allows for Anything {
    ghost allowed = { λ _ bytes. ⊤ };

    fn allows(&self, _bytes: &[u8], _known: usize) -> bool {
        true
    }
}
