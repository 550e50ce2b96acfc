//! What a text is, by the rule that RFC 5321 gives to a receiver; and codings that are refused.
ghost use Rattle.std.specs.Prelude.{◌↔◌, ◌∷◌, ℕ, List};
ghost use Rattle.body_reader.specs.ByByte.{AreLawful, by_byte};
ghost use Rattle.body_reader.specs.Coding.{IsBody, IsOpen};
ghost use Rattle.tests_bodies.specs.DotStuffed.{dot_stuffed};
ghost use Rattle.tests_bodies.specs.Lines.{AreLines};
ghost use Rattle.tests_bodies.specs.Refused.{late, lost, withheld};

/// Lines that are received, and then a line of one dot, are a body, and nothing else is; its payload is each line without the dot
/// that begins it.
pub fn lines_of_a_text()
    ensures { (bytes payload : List ℕ) → IsBody (by_byte dot_stuffed) bytes payload ↔ AreLines bytes payload }
{}

/// Where payload is shown nothing asks for more, though it is told of only once all is there; nor behind a byte with which
/// no body goes on, though that is wrong only then; and no byte leads to where no body ends.
pub fn refused()
    ensures withholds { (n left byte : ℕ) (bytes : List ℕ) → ¬ IsOpen (withheld n) left (byte ∷ bytes) }
    ensures waits { (n left : ℕ) (bytes : List ℕ) → ¬ IsOpen (late n) left (0 ∷ bytes) }
    ensures loses { ¬ AreLawful lost }
{}
