//! What decoders are made of: numbers in text, headers, lengths in bytes, also of seven bits, and fields.
use codec::{ByHeader, Decoder, Found, HeaderBytes, Number, ScanOut};
use decoders::{Lengths, Order, Varints, Width};
use std::test::Fail;

// Texts, and the numbers that they are: without a zero in front, and of at most eighteen digits.
static NUMBERS: [(&'static [u8], Option<Number>); 5] = [
    (b"", Some(Number::Empty)),
    (b"0", Some(Number::Is(0))),
    (b"10", Some(Number::Is(10))),
    (b"07", None),
    (b"1-", None),
];

fn number(text: &[u8]) -> Option<Number> {
    let mut number = Number::Empty;
    for byte in text {
        number = number.with(*byte)?;
    }
    Some(number)
}

#[test]
fn numbers(rt: HostRuntime) -> Result<(), Fail> {
    for &(text, want) in &NUMBERS {
        assert!(rt; number(text) == want);
    }
    Ok(())
}

// Lengths, and the bytes that they are: those of MQTT 3.1.1, table 2.4, and the example of Protocol Buffers' encoding, 300.
static VARINTS: [(usize, &'static [u8]); 9] = [
    (0, b"\x00"),
    (127, b"\x7f"),
    (128, b"\x80\x01"),
    (300, b"\xac\x02"),
    (16_383, b"\xff\x7f"),
    (16_384, b"\x80\x80\x01"),
    (2_097_151, b"\xff\xff\x7f"),
    (2_097_152, b"\x80\x80\x80\x01"),
    (268_435_455, b"\xff\xff\xff\x7f"),
];

fn is_varint(len: usize, bytes: &[u8]) -> bool {
    let varints = Varints { max: 268_435_455 };
    if len > varints.max_written() {
        return false;
    }
    let header = varints.header_of(len);
    header.bytes.get(..header.len) == Some(bytes)
}

#[test]
fn varints(rt: HostRuntime) -> Result<(), Fail> {
    for &(len, bytes) in &VARINTS {
        assert!(rt; is_varint(len, bytes));
    }
    Ok(())
}

// The field that some bytes begin with, which has its length in front, in two bytes; and what stands behind it.
fn field(bytes: &[u8]) -> Option<(&[u8], &[u8])> {
    let fields = ByHeader(Lengths {
        width: Width::Two,
        order: Order::BigEndian,
        max: 65_535,
    });
    match fields.decode(bytes, 0, &mut ()) {
        Found::Piece(span, used) => {
            Some((&bytes[span.from..span.from + span.len], &bytes[used..]))
        }
        _ => None,
    }
}

#[test]
fn headers(rt: HostRuntime) {
    let mut header = HeaderBytes::new(b"*");
    header.push(b"3\r\n");
    assert!(rt; header.bytes.get(..header.len) == Some(b"*3\r\n".as_slice()));
    assert!(rt; (Width::Four.size(), Width::Four.most()) == (4, 4_294_967_295));
    assert!(rt; field(b"\0\x02hi\x01") == Some((b"hi".as_slice(), b"\x01".as_slice())));
    assert!(rt; field(b"\0\x02h").is_none());
}
