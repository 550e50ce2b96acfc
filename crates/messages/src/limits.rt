//! How much of a message is taken.
ghost use Rattle.std.specs.Prelude.{◌≡◌};
ghost use Rattle.messages.specs.Limits.{fields_of};

use crate::head::MAX_FIELDS;

/// How much of a message is taken: what has more is refused. Unless others are given, [`MAX_FIELDS`], and in a chunked body 256
/// bytes of a line and 4,096 of trailers.
#[derive(Clone, Copy, Debug, PartialEq, Eq, Drop)]
pub struct Limits {
    /// The most fields of a head; of more than [`MAX_FIELDS`] it is as if this were so many.
    pub fields: usize,
    /// The most bytes of a line that says the size of a chunk; 0 is as 1.
    pub line: usize,
    /// The most bytes of all lines of the trailers together.
    pub trailers: usize,
}

impl Default for Limits {
    ghost use Rattle.std.specs.Prelude.{◌≡◌};
    ghost use Rattle.messages.specs.Limits.{usual};

    ghost is_default = { λ l. l ≡ usual };

    fn default() -> Limits {
        Limits {
            fields: MAX_FIELDS,
            line: 256,
            trailers: 4096,
        }
    }
}

// The most fields of a head.
pub(crate) fn fields_of(limits: Limits) -> usize
    ensures { result ≡ fields_of limits }
{
    limits.fields.min(MAX_FIELDS)
}
