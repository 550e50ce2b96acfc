//! Pieces whose payload has its length in front, in bytes of seven bits.
ghost use Rattle.std.specs.Prelude.{◌≡◌, ◌<◌, ◌^◌, ◌+◌, ◌≤◌, ◌++◌, take};
ghost use Rattle.decoders.specs.Varints.{varint_bytes, varint_turn};

use codec::{HeaderBytes, Scan, ScanOut, ScanStep};

/// Where such a header stands.
#[derive(Clone, Copy, Debug, PartialEq, Eq, Drop)]
pub enum VarintPlace {
    /// Before the kind of a piece.
    Kind,
    /// Before the length.
    Length,
    /// Behind a byte of the length, here without its highest bit.
    One(u8),
    /// Behind two.
    Two(u8, u8),
    /// Behind three.
    Three(u8, u8, u8),
}

/// Payloads of at most `max` bytes, each behind its length, as Protocol Buffers have it: seven bits in each byte, the lowest
/// first, and the highest bit set in all but the last. A length has four bytes at most; more of them than it takes are read,
/// and not written.
#[derive(Clone, Copy, Debug, Drop)]
pub struct Varints {
    pub max: usize,
    pub ghost fits: { max < 2 ^ 28 },
}

impl Scan for Varints {
    ghost use Rattle.decoders.specs.Varints.{varints};
    ghost use Rattle.decoders.specs.VarintsLaws.{varints_small};

    type State = VarintPlace;

    ghost scanning = { λ d. varints d.max };

    fn start(&self) -> VarintPlace {
        VarintPlace::Length
    }

    #[inline(always)]
    fn turn(&self, place: VarintPlace, byte: u8) -> ScanStep<VarintPlace> {
        varint_turn(place, byte)
    }

    #[inline(always)]
    fn most_header(&self) -> usize {
        4
    }

    #[inline(always)]
    fn max(&self) -> usize {
        self.max
    }

    #[inline(always)]
    fn tail(&self) -> &[u8] {
        b""
    }

    ghost small = { λ d. varints_small d.max d.fits };
}

impl ScanOut for Varints {
    ghost use Rattle.decoders.specs.Varints.{varint_bytes};
    ghost use Rattle.decoders.specs.VarintsLaws.{varints_read_back};

    ghost headers_out = { λ d. record { header = varint_bytes; max = d.max } };

    #[inline(always)]
    fn header_of(&self, len: usize) -> HeaderBytes {
        let mut header = HeaderBytes::new(b"");
        push_varint(&mut header, len);
        header
    }

    #[inline(always)]
    fn max_written(&self) -> usize {
        self.max
    }

    ghost read_back = { λ d. varints_read_back d.max d.fits };
}

// What a header is after one more byte.
#[inline(always)]
pub(crate) fn varint_turn(place: VarintPlace, byte: u8) -> ScanStep<VarintPlace>
    ensures { result ≡ varint_turn place byte }
{
    match place {
        VarintPlace::Kind => ScanStep::More(VarintPlace::Length),
        VarintPlace::Length => {
            if byte < 128 {
                ScanStep::Sized(usize::from(byte))
            } else {
                ScanStep::More(VarintPlace::One(byte - 128))
            }
        }
        VarintPlace::One(a) => {
            if byte < 128 {
                ScanStep::Sized(usize::from(a) + 128 * usize::from(byte))
            } else {
                ScanStep::More(VarintPlace::Two(a, byte - 128))
            }
        }
        VarintPlace::Two(a, b) => {
            if byte < 128 {
                ScanStep::Sized(usize::from(a) + 128 * usize::from(b) + 16384 * usize::from(byte))
            } else {
                ScanStep::More(VarintPlace::Three(a, b, byte - 128))
            }
        }
        VarintPlace::Three(a, b, c) => {
            if byte < 128 {
                ScanStep::Sized(
                    usize::from(a)
                        + 128 * usize::from(b)
                        + 16384 * usize::from(c)
                        + 2097152 * usize::from(byte),
                )
            } else {
                ScanStep::Bad
            }
        }
    }
}

// The bytes of the length.
pub(crate) fn push_varint(header: &mut HeaderBytes, len: usize)
    requires room { header.old.len + 4 ≤ 40 }
    requires fits { len < 2 ^ 28 }
    ensures { take header.new.len header.new.bytes ≡ take header.old.len header.old.bytes ++ varint_bytes len }
{
    if len < 128 {
        header.push(&[len as u8]);
    } else if len < 16384 {
        header.push(&[128 + (len % 128) as u8, (len / 128) as u8]);
    } else if len < 2097152 {
        header.push(&[
            128 + (len % 128) as u8,
            128 + (len / 128 % 128) as u8,
            (len / 16384) as u8,
        ]);
    } else {
        header.push(&[
            128 + (len % 128) as u8,
            128 + (len / 128 % 128) as u8,
            128 + (len / 16384 % 128) as u8,
            (len / 2097152) as u8,
        ]);
    }
}
