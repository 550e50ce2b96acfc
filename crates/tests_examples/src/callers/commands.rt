use buffer_redux::BufWriter;
use buffer_redux::tell::Told;
use decoders::RespItem;
use resp::{
    Client, Command, Ending, Fed, Full, MAX_PARTS, Refusal, Request, Store, command_of,
    parse_number,
};
use std::alloc::{AllocError, Global};
use std::test::Fail;

// What a client that sends these requests, at once, is answered by so many calls, and how the last one ended.
fn answered(
    alloc: Global,
    store: &mut Store,
    text: &[u8],
    calls: usize,
) -> Result<(Vec<u8>, Ending), Fail> {
    let mut client = Client::new(alloc, Told::new(text))?;
    let mut replies = BufWriter::new(alloc, Told::new(Vec::new(alloc)))?;
    let mut ending = Ending::Many;
    for _ in 0..calls {
        ending = match client.serve(store, &mut replies) {
            Ok(ending) => ending,
            Err(_) => Ending::Many,
        };
    }
    drop(client);
    let received = Vec::from_slice(alloc, replies.get_ref().get_ref().as_slice())?;
    Ok((received, ending))
}

// Each row is of another client, over what those before left in the store.
static REQUESTS: [(&'static [u8], usize, &'static [u8], Ending); 5] = [
    (
        b"*3\r\n$3\r\nSET\r\n$1\r\na\r\n$3\r\none\r\n*2\r\n$3\r\nget\r\n$1\r\na\r\nQUIT\r\nPING\r\n",
        1,
        b"+OK\r\n$3\r\none\r\n+OK\r\n",
        Ending::Closed,
    ),
    (b"*3\r\n$3\r\nSET\r\n$1\r\na\r\n", 1, b"", Ending::Within),
    (
        b"*1\r\n$4\r\nPING\r\n*2\r\n$3\r\nget\r\n$1\r\na\r\n",
        1,
        b"+PONG\r\n$3\r\none\r\n",
        Ending::End,
    ),
    (
        b"*3\r\n$3\r\nDEL\r\n$1\r\na\r\n$1\r\nb\r\nQUIT\r\nPING\r\n",
        2,
        b":1\r\n+OK\r\n",
        Ending::Closed,
    ),
    // Behind a refusal no request begins.
    (
        b"*2\r\n$3\r\nGET\r\n:5\r\nPING\r\n",
        2,
        b"-ERR Protocol error: expected '$'\r\n",
        Ending::Closed,
    ),
];

#[test]
fn answers_requests(rt: HostRuntime) -> Result<(), Fail> {
    let mut store = Store::new(rt.alloc(), 1);
    for &(text, calls, replies, ending) in &REQUESTS {
        let (received, ended) = answered(rt.alloc(), &mut store, text, calls)?;
        assert!(rt; received.as_slice() == replies && ended == ending);
    }
    Ok(drop(store))
}

#[test]
fn tells_an_end_within_a_request(rt: HostRuntime) -> Result<(), Fail> {
    let alloc = rt.alloc();
    let mut store = Store::new(alloc, 100);
    let stream = Told::new(b"*1\r\n$4\r\nPING\r\n*2\r\n$3\r\nGET\r\n".as_slice());
    let mut client = Client::new(alloc, stream)?;
    let mut replies = BufWriter::new(alloc, Told::new(Vec::new(alloc)))?;
    assert!(rt; matches!(client.serve(&mut store, &mut replies), Ok(Ending::Within)));
    assert!(rt; replies.get_ref().get_ref().as_slice() == b"+PONG\r\n".as_slice());
    drop(store);
    drop(replies);
    Ok(drop(client))
}

// Parts of requests, and the commands that they are in the protocol of Redis, with what is in them.
static COMMANDS: [(&[&[u8]], &'static [u8]); 15] = [
    (&[b"PING"], b"ping"),
    (&[b"ping", b"a b"], b"echo a b"),
    (&[b"Echo", b""], b"echo "),
    (&[b"echo"], b"arguments"),
    (&[b"get", b"a"], b"get a"),
    (&[b"get", b"a", b"b"], b"arguments"),
    (&[b"SET", b"a", b"b"], b"set a b"),
    (&[b"del", b"a", b"b"], b"del a b"),
    (&[b"del"], b"arguments"),
    (&[b"INCR", b"n"], b"incr n"),
    (&[b"dbsize"], b"dbsize"),
    (&[b"quit"], b"quit"),
    (&[b"COMMAND", b"DOCS"], b"nothing"),
    (&[b"gets", b"a"], b"unknown"),
    (&[], b"unknown"),
];

fn owned(alloc: Global, parts: &[&[u8]]) -> Result<Vec<Vec<u8>>, AllocError> {
    let mut all = Vec::new(alloc);
    for part in parts {
        all.push(Vec::from_slice(alloc, part)?)?;
    }
    Ok(all)
}

// A command, and what is in it.
fn told(alloc: Global, command: Command<'_>) -> Result<Vec<u8>, AllocError> {
    match command {
        Command::Ping => Vec::from_slice(alloc, b"ping"),
        Command::DbSize => Vec::from_slice(alloc, b"dbsize"),
        Command::Quit => Vec::from_slice(alloc, b"quit"),
        Command::Nothing => Vec::from_slice(alloc, b"nothing"),
        Command::Arguments => Vec::from_slice(alloc, b"arguments"),
        Command::Unknown => Vec::from_slice(alloc, b"unknown"),
        Command::Echo(text) => joined(alloc, b"echo", &[text]),
        Command::Get(key) => joined(alloc, b"get", &[key]),
        Command::Set(key, value) => joined(alloc, b"set", &[key, value]),
        Command::Incr(key) => joined(alloc, b"incr", &[key]),
        Command::Del([key, other]) => joined(alloc, b"del", &[key.as_slice(), other.as_slice()]),
        Command::Del(_) => Vec::from_slice(alloc, b"del"),
    }
}

// A name, and each of these behind a blank.
fn joined(alloc: Global, name: &[u8], parts: &[&[u8]]) -> Result<Vec<u8>, AllocError> {
    let mut text = Vec::from_slice(alloc, name)?;
    for part in parts {
        text.push(b' ')?;
        text.extend_from_slice(part)?;
    }
    Ok(text)
}

#[test]
fn reads_commands(rt: HostRuntime) -> Result<(), Fail> {
    for (row, &(parts, said)) in COMMANDS.iter().enumerate() {
        let parts = owned(rt.alloc(), parts)?;
        let command = told(rt.alloc(), command_of(parts.as_slice()))?;
        assert!(rt; command.as_slice() == said, "row {row}");
    }
    Ok(())
}

// Texts, and the numbers that Redis takes them for.
static NUMBERS: [(&'static [u8], Option<i64>); 9] = [
    (b"0", Some(0)),
    (b"-17", Some(-17)),
    (b"9223372036854775807", Some(i64::MAX)),
    (b"9223372036854775808", None),
    (b"", None),
    (b"-", None),
    (b"-0", None),
    (b"+1", None),
    (b"01", None),
];

#[test]
fn reads_numbers(rt: HostRuntime) -> Result<(), Fail> {
    for (row, &(text, number)) in NUMBERS.iter().enumerate() {
        assert!(rt; parse_number(text) == number, "row {row}");
    }
    Ok(())
}

// Pieces one after another, what each makes of the request, and how many parts that has then.
static PIECES: [(RespItem, &'static [u8], Fed, usize); 14] = [
    (RespItem::Bulk, b"a", Fed::Bad(Refusal::NoArray), 0),
    (RespItem::Array(Some(0)), b"", Fed::More, 0),
    (RespItem::Array(Some(2)), b"", Fed::More, 0),
    (RespItem::Bulk, b"get", Fed::More, 1),
    (RespItem::Null, b"", Fed::Bad(Refusal::NoBulk), 1),
    (RespItem::Bulk, b"a", Fed::Whole, 2),
    (RespItem::Inline, b"", Fed::More, 0),
    (RespItem::Inline, b"PING", Fed::Whole, 1),
    (RespItem::NullArray, b"", Fed::More, 1),
    (RespItem::Array(None), b"", Fed::Bad(Refusal::Count), 1),
    (RespItem::Array(None), b"-2", Fed::More, 1),
    (RespItem::Array(None), b"-0", Fed::Bad(Refusal::Count), 1),
    (
        RespItem::Array(Some(MAX_PARTS + 1)),
        b"",
        Fed::Bad(Refusal::Count),
        1,
    ),
    (RespItem::Array(Some(MAX_PARTS)), b"", Fed::More, 0),
];

#[test]
fn gathers_requests(rt: HostRuntime) -> Result<(), Fail> {
    let alloc = rt.alloc();
    let mut request = Request::new(alloc);
    for (row, &(item, payload, fed, count)) in PIECES.iter().enumerate() {
        let right = request.take(alloc, item, payload) == fed && request.parts().len() == count;
        assert!(rt; right, "row {row}");
    }
    let lost = request.is_lost();
    request.clear();
    assert!(rt; !lost && request.take(alloc, RespItem::Inline, b"PING") == Fed::Whole);
    Ok(())
}

#[test]
fn stores_entries(rt: HostRuntime) -> Result<(), Fail> {
    let alloc = rt.alloc();
    let mut store = Store::new(alloc, 1);
    assert!(rt;
        store.set(alloc, b"a", b"one").is_ok() && store.get(b"a") == Some(b"one".as_slice())
    );
    assert!(rt; matches!(store.set(alloc, b"b", b"two"), Err(Full::Entries)));
    assert!(rt; store.set(alloc, b"a", b"").is_ok() && store.get(b"a") == Some(b"".as_slice()));
    assert!(rt; store.get(b"b").is_none() && !store.del(b"b") && store.len() == 1);
    assert!(rt; store.del(b"a") && store.len() == 0);
    Ok(())
}
