//! What pieces say beside their payloads, as it is written.
ghost use Rattle.std.specs.Prelude.{◌≡◌, ℕ, ◌≤◌, ◌++◌, List, [], length, take, OnErr, OnOk};
ghost use Rattle.buffer_redux.specs.BufWriter.{WritesInOrder};
ghost use Rattle.codec.specs.Answering.{AnswersBy};
ghost use Rattle.codec.specs.HeadersOut.{HeadersOut, IsItemRead};

use crate::answering::{AnswerError, write_answer};
use crate::header_bytes::HeaderBytes;
use buffer_redux::BufWriter;
use buffer_redux::tell::TellWrite;
use piece_reader::Items;

/// A protocol whose pieces are a header and a payload, and whose headers are written too, with all that they say: so a
/// [`Service`](crate::Service) answers by it.
pub trait ItemsOut: Items {
    // What stands before a payload of so many bytes in a piece that says this, and how many are written at most.
    ghost headers_out: { Self → Self.Item → HeadersOut };

    /// What stands before a payload of so many bytes in a piece that says this.
    fn header_of(&self, item: Self::Item, len: usize) -> HeaderBytes
        requires { len ≤ (headers_out self.now item).max }
        ensures { take result.len result.bytes ≡ (headers_out self.now item).header len };

    // What is written is read as a piece that says this, with this payload.
    ghost read_back: { (d : Self) (item : Self.Item) (payload : List ℕ) → length payload ≤ (headers_out d item).max
        → IsItemRead (Self.grammar d) (Self.item_of d) item payload ((headers_out d item).header (length payload) ++ payload) };
}

/// Does as [`write_answer`], where the answer is a piece that says this, with this payload.
pub fn write_item<D: ItemsOut, W: TellWrite, F>(
    writer: &mut BufWriter<W>,
    protocol: &D,
    item: D::Item,
    payload: &[u8],
    more: bool,
) -> Result<bool, AnswerError<F>>
    requires { length payload.now ≤ (D.headers_out protocol.now item).max }
    ensures taken { OnOk result (WritesInOrder writer.old
        ((D.headers_out protocol.now item).header (length payload.now) ++ payload.now) writer.new) }
    ensures none { OnErr result (WritesInOrder writer.old [] writer.new) }
    ensures answers { AnswersBy W.log W.trace ((D.headers_out protocol.now item).header (length payload.now) ++ payload.now) more
        writer.old result writer.new }
{
    let header = protocol.header_of(item, payload.len());
    write_answer(writer, &[&header.bytes[..header.len], payload], more)
}
