//! What pieces say beside their payloads.
ghost use Rattle.std.specs.Prelude.{◌≡◌, ℕ, List};
ghost use Rattle.piece_reader.specs.Items.{IsWhole};

use crate::decoder::Decoder;

/// A protocol whose pieces say something beside their payload: a kind, a count, flags.
/// [`step_item`](crate::PieceReader::step_item) answers it with the place of the payload.
pub trait Items: Decoder {
    /// What a piece says.
    type Item: Copy;

    // What these bytes say, where they are a piece.
    ghost item_of: { Self → List ℕ → Self.Item };

    /// What this piece says.
    fn item(&self, piece: &[u8]) -> Self::Item
        requires { IsWhole (Self.grammar self.now) piece.now }
        ensures { result ≡ item_of self.now piece.now };
}
