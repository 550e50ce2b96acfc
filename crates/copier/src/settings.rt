//! What the words after the program's name ask for.
ghost use Rattle.std.specs.Prelude.{◌≡◌, ◌↔◌, ℕ, Bool, Some, map, SomeIff, string_bytes};
ghost use Rattle.std.specs.Str.Parse.{digits_value};
ghost use Rattle.copier.specs.Settings.{AskFor, IsCapacity, NamesBuffer};

use buffer_redux::DEFAULT_BUF_SIZE;
use programs::{GREATEST_CAPACITY, number};

// The capacity where no word says one.
const DEFAULT_CAPACITY: usize = DEFAULT_BUF_SIZE;

// The most digits that a capacity may have.
const GREATEST_LENGTH: usize = 7;

/// Whether the words after the program's name want a ring, and the capacity that they want: an optional `std` or `ring`,
/// then an optional capacity, and no more words. Without words it is `std`, and 8192 bytes.
pub fn settings(words: &[String]) -> Option<(bool, usize)>
    ensures { (ring : Bool) (capacity : ℕ) →
        (result ≡ Some (ring, capacity)) ↔ AskFor (map string_bytes words.now) ring capacity }
{
    match words {
        [] => Some((false, DEFAULT_CAPACITY)),
        [word] => match buffer(word.as_str()) {
            Some(ring) => Some((ring, DEFAULT_CAPACITY)),
            None => Some((false, capacity(word.as_str())?)),
        },
        [first, last] => Some((buffer(first.as_str())?, capacity(last.as_str())?)),
        _ => None,
    }
}

// Whether the buffer that this word names is a ring.
fn buffer(word: &str) -> Option<bool>
    ensures { (ring : Bool) → (result ≡ Some ring) ↔ NamesBuffer word.now ring }
{
    match word {
        "ring" => Some(true),
        "std" => Some(false),
        _ => None,
    }
}

// The capacity that this word is.
fn capacity(word: &str) -> Option<usize>
    ensures { SomeIff result (IsCapacity word.now) (digits_value 10 word.now) }
{
    if word.len() > GREATEST_LENGTH {
        return None;
    }
    let capacity = number(word)?;
    if capacity == 0 || capacity > GREATEST_CAPACITY {
        return None;
    }
    Some(capacity)
}
