//! A server that sends packets back as they came.
ghost use Rattle.std.specs.Prelude.{IfErr, IfOk};
ghost use Rattle.buffer_redux.specs.Faults.{interrupt_limit};
ghost use Rattle.codec.specs.Answering.{NeverFails};
ghost use Rattle.codec.specs.Serving.{Serves, ServingFails, server};
ghost use Rattle.decoders.specs.Varints.{kind_pieces, piece_kind};
ghost use Rattle.uses.specs.Echo.{echo, echoes};

use buffer_redux::BufWriter;
use buffer_redux::tell::{TellRead, TellWrite};
use codec::{
    AnswerError, HeaderError, PieceReader, ServeError, Served, Service, serve_all, write_answer,
    write_item,
};
use decoders::KindVarints;
use std::convert::Infallible;

/// Sends each packet back, but of one of kind 0 only that, and takes none behind it.
#[derive(Drop)]
pub struct Echo;

impl Service<KindVarints> for Echo {
    ghost use Rattle.codec.specs.Answering.{NeverFails};
    ghost use Rattle.uses.specs.Echo.{echoes};

    type Failure = Infallible;

    ghost answers = { echoes };

    ghost fails = { NeverFails };

    fn answer<W: TellWrite>(
        &mut self,
        kind: u8,
        payload: &[u8],
        writer: &mut BufWriter<W>,
    ) -> Result<bool, AnswerError<Infallible>> {
        if kind == 0 {
            return write_answer(writer, &[b"\0\0"], false);
        }
        write_item(
            writer,
            &KindVarints { max: 268_435_455 },
            kind,
            payload,
            true,
        )
    }
}

/// Echoes all of a stream, up to its end or a packet of kind 0.
pub fn echo_all<R: TellRead, W: TellWrite>(
    reader: &mut PieceReader<R, KindVarints>,
    writer: &mut BufWriter<W>,
) -> Result<Served, ServeError<HeaderError, Infallible>>
    ensures served { IfOk result (λ ended. Serves interrupt_limit R.remaining W.log W.trace
        (kind_pieces reader.old.decoder.max) piece_kind echoes
        (server reader.old echo writer.old) ended (server reader.new echo writer.new)) }
    ensures failed { IfErr result (λ e. ServingFails interrupt_limit R.remaining W.log W.trace
        (kind_pieces reader.old.decoder.max) piece_kind echoes NeverFails
        (server reader.old echo writer.old) e (server reader.new echo writer.new)) }
{
    serve_all(&mut Echo, reader, writer)
}
