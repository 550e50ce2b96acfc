//! What a protocol says.
ghost use Rattle.std.specs.Prelude.{◌≡◌, ℕ, ◌<◌, ◌≤◌, List, [], length, take};
ghost use Rattle.piece_reader.specs.Grammar.{Grammar, IsLawful, IsOpen};
ghost use Rattle.piece_reader.specs.Decoding.{Decodes, DecodesAtEnd, OnMore};

/// A place in bytes, and how many bytes stand from it on.
#[derive(Clone, Copy, Debug, Drop)]
pub struct Span {
    pub from: usize,
    pub len: usize,
}

/// What stands at the front of some bytes.
#[derive(Debug, Drop)]
pub enum Found<W> {
    /// A piece, of which this is the payload, and which takes so many bytes.
    Piece(Span, usize),
    /// Nothing yet: fewer than so many bytes in all settle nothing, however they go on.
    More(usize),
    /// The beginning of no piece.
    Wrong(W),
}

/// What the bytes behind the last piece are, where the stream ended.
#[derive(Debug, Drop)]
pub enum End<W> {
    /// The bytes are the last piece, of which this is the payload.
    Last(Span),
    /// The bytes are no piece.
    Wrong(W),
}

/// Says which bytes are a piece, and finds them.
///
/// A look that settles nothing may leave a note for the next one, so that no byte is looked at twice. Who needs none takes `()`.
pub trait Decoder: Drop {
    ghost use Rattle.piece_reader.specs.declared.decoder.Found.{Found};

    /// Why bytes are no piece.
    type Wrong: Copy;

    /// What a look that settles nothing leaves for the next one.
    type Note: Copy;

    // Which bytes are a piece, and with which payload; which are the beginning of none; and what those behind the last piece
    // are at the end of the stream.
    ghost grammar: { Self → Grammar Self.Wrong };

    // What a look over these bytes leaves.
    ghost notes: { Self → List ℕ → Self.Note → Type 0 } = { λ _ _ _. Unit {0} };

    // What a look at these bytes, the first so many of which were looked at before, tells by its answer beside what that means,
    // as how many bytes it asks for. Who knows no more says nothing here: a reader shows by it which looks it made.
    ghost looks: { Self → List ℕ → ℕ → Found Self.Wrong → Type 0 } = { λ _ _ _ _. Unit {0} };

    /// No piece takes more bytes.
    fn most(&self) -> usize
        ensures { result ≡ (grammar self.now).most };

    /// The note before the first byte.
    fn no_note(&self) -> Self::Note
        ensures { notes self.now [] result };

    /// Looks at the front of some bytes, of which the first `seen` were looked at before, settled nothing and left this note.
    fn decode(&self, bytes: &[u8], seen: usize, note: &mut Self::Note) -> Found<Self::Wrong>
        requires within { seen ≤ length bytes.now }
        requires open { IsOpen (grammar self.now) (take seen bytes.now) }
        requires noted { notes self.now (take seen bytes.now) note.old }
        ensures finds { Decodes (grammar self.now) bytes.now result }
        ensures leaves { OnMore result (λ _. notes self.now bytes.now note.new) }
        ensures looks { looks self.now bytes.now seen result };

    /// Looks at what settles nothing and has nothing behind it.
    fn at_end(&self, bytes: &[u8]) -> End<Self::Wrong>
        requires some { 0 < length bytes.now }
        requires open { IsOpen (grammar self.now) bytes.now }
        ensures { DecodesAtEnd (grammar self.now) bytes.now result };

    // No piece begins another, and the beginning of none begins no piece.
    ghost lawful: { (d : Self) → IsLawful (grammar d) };
}
