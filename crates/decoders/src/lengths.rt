//! Pieces whose payload has its length in front, in bytes.
ghost use Rattle.std.specs.Prelude.{◌≡◌, ◌^◌, ◌<◌, ◌≤◌, length, take};
ghost use Rattle.decoders.specs.Lengths.{number_in_bytes, size_of};
ghost use Rattle.decoders.specs.declared.lengths.Order.TheVariants as Order;

use codec::{Header, LengthPrefixed};

/// How many bytes a length takes.
#[derive(Clone, Copy, Debug, PartialEq, Eq, Drop)]
pub enum Width {
    /// One byte.
    One,
    /// Two bytes.
    Two,
    /// Four bytes.
    Four,
    /// Eight bytes.
    Eight,
}

/// Which byte of a length comes first.
#[derive(Clone, Copy, Debug, PartialEq, Eq, Drop)]
pub enum Order {
    /// The highest, as in the order of networks.
    BigEndian,
    /// The lowest.
    LittleEndian,
}

/// Payloads of at most `max` bytes, which is below 2^62, each behind its length. The length doesn't count its own bytes.
///
/// ```
/// let lengths = Lengths {
///     width: Width::Two,
///     order: Order::BigEndian,
///     max: 100,
/// };
/// let stream = Told::new(b"\x00\x02hi\x00\x00".as_slice());
/// let mut reader = PieceReader::new(alloc, stream, ByHeader(lengths))?;
/// assert!(rt; matches!(reader.next(), Ok(Some(b"hi"))));
/// assert!(rt; matches!(reader.next(), Ok(Some(b""))));
/// assert!(rt; matches!(reader.next(), Ok(None)));
/// ```
#[derive(Clone, Copy, Debug, Drop)]
pub struct Lengths {
    pub width: Width,
    pub order: Order,
    pub max: usize,
    pub ghost fits: { max < 2 ^ 62 },
}

impl LengthPrefixed for Lengths {
    ghost use Rattle.decoders.specs.Lengths.{lengths};
    ghost use Rattle.decoders.specs.LengthsLaws.{lengths_headers};

    type Note = ();

    ghost header_format = { λ d. lengths d.width d.order d.max };

    fn no_note(&self) {}

    #[inline(always)]
    fn header(&self, bytes: &[u8], _seen: usize, _note: &mut ()) -> Header {
        let size = self.width.size();
        if bytes.len() < size {
            return Header::Short;
        }
        let len = match self.order {
            Order::BigEndian => highest_first(self.width, bytes),
            Order::LittleEndian => lowest_first(self.width, bytes),
        };
        Header::Sized(len, size)
    }

    fn most_header(&self) -> usize {
        self.width.size()
    }

    #[inline(always)]
    fn max(&self) -> usize {
        self.max
    }

    #[inline(always)]
    fn tail(&self) -> &[u8] {
        b""
    }

    ghost headers = { λ d. lengths_headers d.width d.order d.max d.fits };
}

impl Width {
    /// The same as a number.
    #[inline(always)]
    pub fn size(self) -> usize
        ensures { result ≡ size_of self }
    {
        match self {
            Width::One => 1,
            Width::Two => 2,
            Width::Four => 4,
            Width::Eight => 8,
        }
    }
}

// The length that the bytes begin with.
#[inline(always)]
fn highest_first(width: Width, bytes: &[u8]) -> usize
    requires { size_of width ≤ length bytes.now }
    ensures { result ≡ number_in_bytes width Order.BigEndian (take (size_of width) bytes.now) }
{
    match width {
        Width::One => usize::from(u8::from_be_bytes([bytes[0]])),
        Width::Two => usize::from(u16::from_be_bytes([bytes[0], bytes[1]])),
        Width::Four => { u32::from_be_bytes([bytes[0], bytes[1], bytes[2], bytes[3]]) as usize }
        Width::Eight => {
            u64::from_be_bytes([
                bytes[0], bytes[1], bytes[2], bytes[3], bytes[4], bytes[5], bytes[6], bytes[7],
            ]) as usize
        }
    }
}

// The same where the lowest byte comes first.
#[inline(always)]
fn lowest_first(width: Width, bytes: &[u8]) -> usize
    requires { size_of width ≤ length bytes.now }
    ensures { result ≡ number_in_bytes width Order.LittleEndian (take (size_of width) bytes.now) }
{
    match width {
        Width::One => usize::from(u8::from_le_bytes([bytes[0]])),
        Width::Two => usize::from(u16::from_le_bytes([bytes[0], bytes[1]])),
        Width::Four => { u32::from_le_bytes([bytes[0], bytes[1], bytes[2], bytes[3]]) as usize }
        Width::Eight => {
            u64::from_le_bytes([
                bytes[0], bytes[1], bytes[2], bytes[3], bytes[4], bytes[5], bytes[6], bytes[7],
            ]) as usize
        }
    }
}
