//! Serves requests of RESP on standard input, and replies on standard output: `PING`, `ECHO`, `GET`, `SET`, `DEL`, `INCR`,
//! `DBSIZE` and `QUIT`, as redis-cli sends them; in one line a command has no arguments. The status is 5 where standard input
//! ends within a request.
#![tactic(auto)]

ghost use Rattle.std.specs.Prelude.{◌≡◌, [], OnOk};
ghost use Rattle.resp_server.specs.Server.{ServesOnce, TellsLine, tells_within, was_cut_off};

use buffer_redux::BufWriter;
use buffer_redux::tell::{TellRead, TellWrite, Told};
use codec::{EitherWrong, HeaderError, ServeError, TooLong, Unended};
use resp::{Client, Ending, PROTOCOL_ERROR, Store};
use std::io;
use std::io::Write;
use std::process::ExitCode;

// Answers a client by one call, and says whether its stream ended within a request.
fn serve<R: TellRead, W: TellWrite>(
    client: &mut Client<R>,
    store: &mut Store,
    replies: &mut BufWriter<W>,
) -> io::Result<bool>
    ensures sent { OnOk result (replies.new.block.bytes ≡ []) }
    ensures serves { ServesOnce R.remaining W.log W.trace client.old store.old replies.old result client.new store.new
        replies.new }
{
    match client.serve(store, replies) {
        Ok(ending) => Ok(is_within(ending)),
        Err(ServeError::Read(e)) => Err(e),
        Err(ServeError::Write(e)) => Err(e),
        Err(ServeError::Flush(_ended, e)) => Err(e),
        Err(ServeError::Failed(never)) => match never {},
        Err(ServeError::Wrong(wrong)) => {
            if is_cut_off(&wrong) {
                return tell(replies, b"", true);
            }
            tell(replies, PROTOCOL_ERROR, false)
        }
    }
}

// Whether a stream ended within a request.
fn is_within(ending: Ending) -> bool
    ensures { result ≡ tells_within ending }
{
    matches!(ending, Ending::Within)
}

// Whether a stream ended within a piece.
fn is_cut_off(wrong: &EitherWrong<HeaderError, Unended<TooLong>>) -> bool
    ensures { result ≡ was_cut_off wrong.now }
{
    match wrong {
        EitherWrong::One(HeaderError::Truncated(_)) => true,
        EitherWrong::Other(Unended::Cut(_)) => true,
        _ => false,
    }
}

// Sends these bytes behind all others, and answers as it is told to.
fn tell<W: TellWrite>(replies: &mut BufWriter<W>, line: &[u8], answer: bool) -> io::Result<bool>
    ensures { TellsLine W.log W.trace line.now answer replies.old result replies.new }
{
    replies.write_all(line)?;
    replies.flush()?;
    Ok(answer)
}

fn main(rt: HostRuntime) -> io::Result<ExitCode> {
    let alloc = rt.alloc();
    let mut store = Store::new(alloc, 1_000_000);
    let mut client = Client::new(alloc, Told::new(rt.stdin()))?;
    let mut replies = BufWriter::new(alloc, Told::new(rt.stdout()))?;
    let answer = serve(&mut client, &mut store, &mut replies);
    // A drop would offer again what a failed send left.
    let _ = replies.into_inner_with_buffer();
    if answer? {
        // There is nowhere left to tell of a fault of this line.
        let _ = rt.eprintln("resp_server: the input ends within a request");
        return Ok(ExitCode::from(5));
    }
    Ok(ExitCode::SUCCESS)
}
