//! Laws of the ready decoders, each as the contract of a function.
ghost use Rattle.std.specs.Prelude.{◌≡◌, ◌↔◌, ◌++◌, [], List, codes, ℕ};
ghost use Rattle.codec.specs.HeaderFormat.{length_prefixed};
ghost use Rattle.codec.specs.Scanning.{scanned};
ghost use Rattle.codec.specs.TextHeaders.{text_scanning};
ghost use Rattle.decoders.specs.Nullable.{nullable};
ghost use Rattle.decoders.specs.TextWords.{bulk_string, bulk_strings};

use crate::bulk_strings::BulkStrings;

/// Which bytes strings are: each of [`BulkStrings`](crate::BulkStrings) is a dollar sign, the payload's length in decimal, CR
/// and LF, the payload, CR and LF. Of [`NullableStrings`](crate::NullableStrings) one that begins with `$-` is `$-1`, CR and
/// LF, and its payload is empty.
pub fn string_bytes(strings: &BulkStrings)
    ensures bulk { (piece payload : List ℕ)
        → (length_prefixed (scanned (text_scanning (bulk_strings strings.now.max)))).piece piece payload
        → piece ≡ bulk_string payload }
    ensures null { (rest payload : List ℕ)
        → (length_prefixed (scanned (nullable strings.now.max))).piece (codes "$-" ++ rest) payload
        ↔ ((rest ≡ codes "1\r\n") × (payload ≡ [])) }
{}
