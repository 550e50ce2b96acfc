//! Adding to a record whose room was made before.
ghost use Rattle.std.specs.Prelude.{◌≡◌, ◌+◌, ◌<◌, ◌≤◌, [], ◌∷◌, ◌++◌, length, vec_len, vec_capacity};

// Adds one answer.
pub fn record<A: Copy>(answers: &mut Vec<A>, answer: A)
    requires { vec_len answers.old < vec_capacity answers.old }
    ensures added { answers.new.items ≡ answers.old.items ++ answer ∷ [] }
    ensures room { vec_capacity answers.old ≤ vec_capacity answers.new }
{
    let Ok(()) = answers.push(answer) else {
        unreachable!()
    };
}

// Adds bytes that were handed out.
pub fn hand_out(handed: &mut Vec<u8>, bytes: &[u8])
    requires { vec_len handed.old + length bytes.now ≤ vec_capacity handed.old }
    ensures added { handed.new.items ≡ handed.old.items ++ bytes.now }
    ensures room { vec_capacity handed.old ≤ vec_capacity handed.new }
{
    let Ok(()) = handed.extend_from_slice(bytes) else {
        unreachable!()
    };
}
