//! That each type may go to another thread, or be shared by threads, where what is in it may. A function here is proved from
//! the bounds that it has, and none is run.
use buffer_redux::policy::{
    FlushAtLeast, FlushExact, FlushOn, FlushOnNewline, MinBuffered, StdPolicy,
};
use buffer_redux::tell::{CallLog, Tell, TellWrite, Told};
use buffer_redux::{
    BufImpl, BufReader, BufWriter, Buffer, Count, GrowError, IntoInnerError, LineWriter, MakeError,
    RawBuf, SliceDequeBuf, StdBuf, Unbuffer,
};
use chunked::{ChunkedError, ChunkedReader, ChunkedWriter, FinishError, TrailersError};
use codec::{
    ByHeader, ByScan, ByTextHeader, Decoder, Delimited, Encoder, End, Found, HeaderBytes,
    HeaderError, LengthPrefixed, NextError, NotPlain, PieceReader, PieceWriter, Scan, Span,
    TextHeader, TooLong, WritePieceError,
};
use decoders::{BulkStrings, Lengths, Netstrings};
use frame_reader::{FrameError, FrameReader, FrameWriter, WriteFrameError};
use line_reader::{LineError, LineReader};
use resp::{Client, Command, Ending, Full, Refusal, Store};
use std::fs::File;

fn is_send<T: Send>(_values: &T) {}

fn is_sync<T: Sync>(_values: &T) {}

fn is_both<T: Send + Sync>(_values: &T) {}

type Blocks = (
    RawBuf,
    StdBuf,
    SliceDequeBuf,
    BufImpl,
    Buffer,
    Count,
    CallLog,
);

type Policies = (
    StdPolicy,
    MinBuffered,
    FlushAtLeast,
    FlushExact,
    FlushOn,
    FlushOnNewline,
);

type Errors = (
    GrowError,
    FrameError,
    WriteFrameError,
    LineError,
    ChunkedError,
    TrailersError,
);

type Files = (BufReader<Told<File>>, LineWriter<Told<File>>);

type Ready = (
    Delimited,
    Lengths,
    Netstrings,
    BulkStrings,
    HeaderBytes,
    Span,
);

type WrongPieces = (TooLong, HeaderError, NotPlain);

type Entries<'a> = (Store, Command<'a>, Full, Refusal, Ending);

pub fn of_the_port(a: &Blocks, b: &Policies, c: &Errors, d: &Files) {
    is_both(a);
    is_both(b);
    is_both(c);
    is_both(d);
}

pub fn of_pieces(a: &Ready, b: &WrongPieces, c: &Entries<'_>) {
    is_both(a);
    is_both(b);
    is_both(c);
}

type Readers<R, P> = (
    BufReader<R, P>,
    ChunkedReader<R, P>,
    Unbuffer<R>,
    FrameReader<R>,
    LineReader<R>,
    Client<R>,
);

pub fn readers_sent<R: Tell + Send, P: Send>(all: &Readers<R, P>) {
    is_send(all);
}

pub fn readers_shared<R: Tell + Sync, P: Sync>(all: &Readers<R, P>) {
    is_sync(all);
}

type Writers<W, P> = (
    BufWriter<W, P>,
    ChunkedWriter<W>,
    LineWriter<W>,
    FrameWriter<W>,
);

pub fn writers_sent<W: TellWrite + Send, P: Send>(all: &Writers<W, P>) {
    is_send(all);
}

pub fn writers_shared<W: TellWrite + Sync, P: Sync>(all: &Writers<W, P>) {
    is_sync(all);
}

type Wrappers<T> = (Told<T>, MakeError<T>, IntoInnerError<T>, FinishError<T>);

type Answers<W> = (Found<W>, End<W>, NextError<W>, WritePieceError<W>);

pub fn wrappers_sent<T: Send>(all: &Wrappers<T>, answers: &Answers<T>) {
    is_send(all);
    is_send(answers);
}

pub fn wrappers_shared<T: Sync>(all: &Wrappers<T>, answers: &Answers<T>) {
    is_sync(all);
    is_sync(answers);
}

pub fn pieces_sent<R: TellWrite + Send, D: Decoder + Encoder + Send>(
    all: &(PieceReader<R, D>, PieceWriter<R, D>),
)
where
    D::Note: Send,
{
    is_send(all);
}

pub fn pieces_shared<R: TellWrite + Sync, D: Decoder + Encoder + Sync>(
    all: &(PieceReader<R, D>, PieceWriter<R, D>),
)
where
    D::Note: Sync,
{
    is_sync(all);
}

type Decoders<H, S, T> = (ByHeader<H>, ByScan<S>, ByTextHeader<T>);

pub fn decoders_sent<H: LengthPrefixed + Send, S: Scan + Send, T: TextHeader + Send>(
    all: &Decoders<H, S, T>,
) {
    is_send(all);
}

pub fn decoders_shared<H: LengthPrefixed + Sync, S: Scan + Sync, T: TextHeader + Sync>(
    all: &Decoders<H, S, T>,
) {
    is_sync(all);
}
