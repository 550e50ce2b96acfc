//! A filter: the payloads of one kind go on, each as a line.
use buffer_redux::BufWriter;
use buffer_redux::tell::TellWrite;
use piece_filter::{Answer, put_both};
use std::io;

/// What passes on the payloads that begin with `#`, and drops the others. [`forward`](forward::forward) does it for a whole
/// stream, over an [`Answering`](piece_filter::Answering), and holds none back while that is asked for more.
#[derive(Clone, Copy, Debug, Drop)]
pub struct Sifted;

impl Answer for Sifted {
    ghost use Rattle.uses.specs.Sifted.{GoesOnAsLine};

    ghost answers = { λ _ payload reply _. GoesOnAsLine payload reply };

    fn answer<W: TellWrite>(
        &mut self,
        payload: &[u8],
        writer: &mut BufWriter<W>,
    ) -> io::Result<bool> {
        if !payload.starts_with(b"#") {
            return Ok(false);
        }
        match put_both(writer, payload, b"\n") {
            Ok(()) => Ok(true),
            Err(e) => Err(e),
        }
    }
}
