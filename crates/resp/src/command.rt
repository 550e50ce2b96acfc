//! A request, and the command that it is.
ghost use Rattle.std.specs.Prelude.{◌≡◌, ◌↔◌, List, ℕ, IfErr, IfOk, IsTrue, MatchOption};
ghost use Rattle.buffer_redux.specs.WriteParts.{WritesParts};
ghost use Rattle.resp.specs.Commands.{Acts, Deletes, IsNoName, Means, MeansRest, Raises, RaisesNone, SameWord, takes_more, word_of};
ghost use Rattle.resp.specs.Stored.{held};
ghost use Rattle.resp.specs.Waiting.{bytes_of};

use crate::number::parse_number;
use crate::reply::{put, put_bulk, put_count, put_signed};
use crate::store::{Full, Store};
use buffer_redux::BufWriter;
use buffer_redux::tell::TellWrite;
use itoa::Buffer;
use std::alloc::Global;
use std::io;

/// The first word of a request.
#[derive(Clone, Copy, PartialEq, Eq, Debug, Drop)]
pub enum Name {
    Ping,
    Echo,
    Get,
    Set,
    Del,
    Incr,
    DbSize,
    Quit,
    Command,
    Config,
}

/// What a request asks for.
#[derive(Clone, Copy)]
pub enum Command<'a> {
    Ping,
    Echo(&'a [u8]),
    Get(&'a [u8]),
    Set(&'a [u8], &'a [u8]),
    Del(&'a [Vec<u8>]),
    Incr(&'a [u8]),
    DbSize,
    Quit,
    /// What clients ask as they begin: there is nothing to tell.
    Nothing,
    /// A command with other arguments than it has.
    Arguments,
    Unknown,
}

/// The command that a request is.
pub fn command_of(parts: &[Vec<u8>]) -> Command<'_>
    ensures { Means (bytes_of parts.now) result }
{
    let Some((name, rest)) = parts.split_first() else {
        return Command::Unknown;
    };
    match name_of(name.as_slice()) {
        Some(name) => with_rest(name, rest),
        None => Command::Unknown,
    }
}

// The command with this name that these are the other parts of.
fn with_rest(name: Name, rest: &[Vec<u8>]) -> Command<'_>
    ensures { MeansRest name (bytes_of rest.now) result }
{
    match name {
        Name::Ping => match rest {
            [] => Command::Ping,
            [text] => Command::Echo(text.as_slice()),
            _ => Command::Arguments,
        },
        Name::Echo => match rest {
            [text] => Command::Echo(text.as_slice()),
            _ => Command::Arguments,
        },
        Name::Get => match rest {
            [key] => Command::Get(key.as_slice()),
            _ => Command::Arguments,
        },
        Name::Set => match rest {
            [key, value] => Command::Set(key.as_slice(), value.as_slice()),
            _ => Command::Arguments,
        },
        Name::Del => match rest {
            [] => Command::Arguments,
            _ => Command::Del(rest),
        },
        Name::Incr => match rest {
            [key] => Command::Incr(key.as_slice()),
            _ => Command::Arguments,
        },
        Name::DbSize => match rest {
            [] => Command::DbSize,
            _ => Command::Arguments,
        },
        Name::Quit => match rest {
            [] => Command::Quit,
            _ => Command::Arguments,
        },
        Name::Command => Command::Nothing,
        Name::Config => Command::Nothing,
    }
}

// The word that a name is, in either case.
fn name_of(name: &[u8]) -> Option<Name>
    ensures { MatchOption result (IsNoName name.now) (λ n. SameWord name.now (word_of n)) }
{
    if is_word(name, b"get") {
        Some(Name::Get)
    } else if is_word(name, b"set") {
        Some(Name::Set)
    } else if is_word(name, b"ping") {
        Some(Name::Ping)
    } else if is_word(name, b"echo") {
        Some(Name::Echo)
    } else if is_word(name, b"del") {
        Some(Name::Del)
    } else if is_word(name, b"incr") {
        Some(Name::Incr)
    } else if is_word(name, b"dbsize") {
        Some(Name::DbSize)
    } else if is_word(name, b"quit") {
        Some(Name::Quit)
    } else if is_word(name, b"command") {
        Some(Name::Command)
    } else if is_word(name, b"config") {
        Some(Name::Config)
    } else {
        None
    }
}

// Whether a name is this word, in either case.
fn is_word(name: &[u8], word: &[u8]) -> bool
    ensures { IsTrue result ↔ SameWord name.now word.now }
{
    name.eq_ignore_ascii_case(word)
}

/// Does a command, and writes its reply. It is done also where its reply can't be written.
pub fn act<W: TellWrite>(
    alloc: Global,
    command: Command<'_>,
    store: &mut Store,
    writer: &mut BufWriter<W>,
) -> io::Result<()>
    ensures { (reply : List ℕ) × Acts (held store.old) command.entry reply (held store.new)
        × WritesParts W.log W.trace writer.old reply result writer.new }
{
    match command {
        Command::Ping => put(writer, b"+PONG\r\n"),
        Command::Echo(text) => put_bulk(writer, text),
        Command::Get(key) => match store.get(key) {
            Some(value) => put_bulk(writer, value),
            None => put(writer, b"$-1\r\n"),
        },
        Command::Set(key, value) => match store.set(alloc, key, value) {
            Ok(()) => put(writer, b"+OK\r\n"),
            Err(Full::Entries) => put(writer, b"-ERR too many keys\r\n"),
            Err(Full::Memory) => put(writer, b"-ERR out of memory\r\n"),
        },
        Command::Del(keys) => put_count(writer, del_all(store, keys)),
        Command::Incr(key) => match incr(alloc, store, key) {
            Ok(number) => put_signed(writer, number),
            Err(text) => put(writer, text),
        },
        Command::DbSize => put_count(writer, store.len()),
        Command::Quit => put(writer, b"+OK\r\n"),
        Command::Nothing => put(writer, b"*0\r\n"),
        Command::Arguments => put(writer, b"-ERR wrong number of arguments\r\n"),
        Command::Unknown => put(writer, b"-ERR unknown command\r\n"),
    }
}

/// Whether a further request is taken behind this one.
pub fn goes_on(command: Command<'_>) -> bool
    ensures { result ≡ takes_more command.entry }
{
    match command {
        Command::Quit => false,
        _ => true,
    }
}

// Takes keys out, and counts those that were there.
fn del_all(store: &mut Store, keys: &[Vec<u8>]) -> usize
    ensures { Deletes (bytes_of keys.now) (held store.old) result (held store.new) }
{
    let mut count: usize = 0;
    for key in keys {
        if store.del(key.as_slice()) {
            count += 1;
        }
    }
    count
}

// Adds one to the number at a key, which is 0 where there is none.
fn incr(alloc: Global, store: &mut Store, key: &[u8]) -> Result<i64, &'static [u8]>
    ensures ok { IfOk result (λ n. Raises (held store.old) key.now n (held store.new)) }
    ensures failed { IfErr result (λ text. RaisesNone (held store.old) key.now text.now (held store.new)) }
{
    let old = match store.get(key) {
        Some(value) => parse_number(value),
        None => Some(0),
    };
    let Some(old) = old else {
        return Err(b"-ERR value is not an integer or out of range\r\n");
    };
    let Some(number) = old.checked_add(1) else {
        return Err(b"-ERR increment or decrement would overflow\r\n");
    };
    let mut buffer = Buffer::new();
    match store.set(alloc, key, buffer.format(number).as_bytes()) {
        Ok(()) => Ok(number),
        Err(Full::Entries) => Err(b"-ERR too many keys\r\n"),
        Err(Full::Memory) => Err(b"-ERR out of memory\r\n"),
    }
}
