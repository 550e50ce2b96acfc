//! The answer to a piece, as it is written.
ghost use Rattle.std.specs.Prelude.{[], map, OnErr, OnOk};
ghost use Rattle.std.specs.List.{concat};
ghost use Rattle.buffer_redux.specs.BufWriter.{WritesInOrder};
ghost use Rattle.codec.specs.Answering.{AnswersBy};

use buffer_redux::BufWriter;
use buffer_redux::tell::TellWrite;
use std::io;

/// Why a piece isn't answered. Nothing of an answer was taken in.
#[derive(Debug, Drop)]
pub enum AnswerError<F> {
    /// The writer refused the answer. What the piece asked for is done.
    Write(io::Error),
    /// The service failed, for a reason of its own, and wrote nothing.
    Failed(F),
}

/// Writes the parts of an answer, all of them or none, and says whether a further piece is taken behind it: by this an
/// [`answer`](crate::Service::answer) ends that writes something.
pub fn write_answer<W: TellWrite, F>(
    writer: &mut BufWriter<W>,
    parts: &[&[u8]],
    more: bool,
) -> Result<bool, AnswerError<F>>
    ensures taken { OnOk result (WritesInOrder writer.old (concat (map (λ part. part.now) parts.now)) writer.new) }
    ensures none { OnErr result (WritesInOrder writer.old [] writer.new) }
    ensures answers { AnswersBy W.log W.trace (concat (map (λ part. part.now) parts.now)) more writer.old result writer.new }
{
    match writer.write_parts(parts) {
        Ok(()) => Ok(more),
        Err(e) => Err(AnswerError::Write(e)),
    }
}
