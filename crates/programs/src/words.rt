//! The words that a program is asked by.
ghost use Rattle.std.specs.Prelude.{◌≡◌, ◌∷◌, [], length, map, string_bytes, IfSome, None, SomeIff};
ghost use Rattle.std.specs.Str.Parse.{digits_value};
ghost use Rattle.programs.specs.Words.{IsNumber};

use crate::ending::Ending;
use std::io;
use std::io::ErrorKind;

/// The words after the program's name, or how the run ends without them: by `Usage` where one isn't UTF-8, which no program
/// knows.
pub fn args(rt: &HostRuntime) -> Result<Vec<String>, Ending> {
    match all_args(rt) {
        Ok(words) => Ok(words),
        Err(e) if e.kind() == ErrorKind::InvalidData => Err(Ending::Usage),
        Err(e) => Err(Ending::of_fault(&e, Ending::Failed)),
    }
}

fn all_args(rt: &HostRuntime) -> io::Result<Vec<String>> {
    // The first is the program's own name.
    Ok(std::env::args(rt)?.skip(1).collect(rt.alloc())?)
}

/// The word, where there is just one.
pub fn only_word(words: &[String]) -> Option<&str>
    ensures some { IfSome result (λ word. map string_bytes words.now ≡ word.now ∷ []) }
    ensures none { result ≡ None → ¬ (length words.now ≡ 1) }
{
    match words {
        [word] => Some(word.as_str()),
        _ => None,
    }
}

/// The number that this word is, in decimal digits and nothing else.
pub fn number(word: &str) -> Option<usize>
    ensures { SomeIff result (IsNumber word.now) (digits_value 10 word.now) }
{
    // `parse` alone would take a sign.
    if !word.bytes().all(|byte| byte.is_ascii_digit()) {
        return None;
    }
    let number = word.parse::<usize>().ok()?;
    Some(number)
}
