//! Lines as pieces, and a line as it is shown.
ghost use Rattle.std.specs.Prelude.{◌≡◌, ◌^◌, ◌<◌};
ghost use Rattle.piece_reader.specs.Trimming.{IsTrimmed};
ghost use Rattle.line_reader.specs.Lines.{newline};

use piece_reader::{Decoder, Delimited, End, Found, TooLong};

/// Lines of at most `max` bytes, their ends not counted. The line feed is known where this is compiled, so that a search for it
/// may be made for it alone.
#[derive(Clone, Copy, Debug, Drop)]
pub struct Lines {
    pub max: usize,
    pub ghost fits: { max < 2 ^ 63 },
}

impl Lines {
    #[inline(always)]
    fn pieces(&self) -> Delimited
        ensures end { result.end ≡ newline }
        ensures max { result.max ≡ self.now.max }
    {
        Delimited {
            end: b'\n',
            max: self.max,
        }
    }
}

impl Decoder for Lines {
    ghost use Rattle.piece_reader.specs.Delimited.{delimited};
    ghost use Rattle.piece_reader.specs.DelimitedLaws.{delimited_lawful};
    ghost use Rattle.line_reader.specs.Lines.{newline};

    type Wrong = TooLong;

    type Note = ();

    ghost grammar = { λ d. delimited newline d.max };

    fn most(&self) -> usize {
        self.pieces().most()
    }

    fn no_note(&self) {}

    #[inline(always)]
    fn decode(&self, bytes: &[u8], seen: usize, note: &mut ()) -> Found<TooLong> {
        self.pieces().decode(bytes, seen, note)
    }

    fn at_end(&self, bytes: &[u8]) -> End<TooLong> {
        self.pieces().at_end(bytes)
    }

    ghost lawful = { λ d. delimited_lawful newline d.max };
}

/// The line without the carriage return that it may end with.
pub fn trimmed(line: &[u8]) -> &[u8]
    ensures { IsTrimmed line.now result.now }
{
    match line {
        [front @ .., b'\r'] => front,
        _ => line,
    }
}
