//! What is taken apart and built again goes on where it was: also under another policy, between two runs of calls.
ghost use Rattle.std.specs.Prelude.{◌≡◌, ℕ, List};
ghost use Rattle.redux_buffer.specs.StreamLog.{no_calls};
ghost use Rattle.buffer_redux.specs.Buffered.{Buffered, with_calls, with_policy};
ghost use Rattle.buffer_redux.specs.BufReader.{ReadsInOrder};
ghost use Rattle.buffer_redux.specs.BufWriter.{WritesInOrder};

use buffer_redux::policy::{ReaderPolicy, WriterPolicy};
use buffer_redux::{BufReader, BufWriter};
use redux_buffer::tell::{Tell, TellWrite};

/// A reader that is taken apart, built again and put under another policy is the reader that it was, but for that, and that no
/// call of its own is noted. So a further run goes on with it.
pub fn rebuild_reader_under<R: Tell, P: Drop, Q: ReaderPolicy>(
    reader: BufReader<R, P>,
    policy: Q,
) -> BufReader<R, Q>
    ensures same { result ≡ with_policy (with_calls reader no_calls) policy }
    ensures in_order { (first : Buffered R P) (handed : List ℕ) → ReadsInOrder first handed reader
        → ReadsInOrder (with_policy first policy) handed result }
{
    let (inner, buf) = reader.into_inner_with_buffer();
    BufReader::with_buffer(buf, inner).set_policy(policy)
}

/// A writer that is taken apart, built again and put under another policy is the writer that it was, but for that, and that no
/// call of its own is noted. Nothing was sent.
pub fn rebuild_writer_under<W: TellWrite, P: Drop, Q: WriterPolicy>(
    writer: BufWriter<W, P>,
    policy: Q,
) -> BufWriter<W, Q>
    ensures same { result ≡ with_policy (with_calls writer no_calls) policy }
    ensures in_order { (first : Buffered W P) (accepted : List ℕ) → WritesInOrder first accepted writer
        → WritesInOrder (with_policy first policy) accepted result }
{
    let (inner, buf) = writer.into_inner_with_buffer();
    BufWriter::with_buffer(buf, inner).set_policy(policy)
}
