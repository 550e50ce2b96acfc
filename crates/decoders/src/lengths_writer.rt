//! Lengths in bytes, as they are written.
ghost use Rattle.std.specs.Prelude.{◌≡◌, ◌≤◌, min, take};
ghost use Rattle.decoders.specs.LengthsOut.{length_in_bytes, most_of};
ghost use Rattle.decoders.specs.declared.lengths.Order.TheVariants as Order;

use crate::lengths::{Lengths, Order, Width};
use codec::{HeaderBytes, LengthPrefixedOut};

/// A payload is written where it has at most `max` bytes, and no more than its length can say.
impl LengthPrefixedOut for Lengths {
    ghost use Rattle.decoders.specs.LengthsOutLaws.{lengths_read_back};

    ghost headers_out = { λ d. record { header = length_in_bytes d.width d.order; max = min d.max (most_of d.width) } };

    #[inline(always)]
    fn header_of(&self, len: usize) -> HeaderBytes {
        match self.order {
            Order::BigEndian => highest_first(self.width, len),
            Order::LittleEndian => lowest_first(self.width, len),
        }
    }

    #[inline(always)]
    fn max_written(&self) -> usize {
        self.max.min(self.width.most())
    }

    ghost read_back = { λ d. lengths_read_back d.width d.order d.max };
}

impl Width {
    /// The greatest length that so many bytes say.
    #[inline(always)]
    pub fn most(self) -> usize
        ensures { result ≡ most_of self }
    {
        match self {
            Width::One => 0xff,
            Width::Two => 0xffff,
            Width::Four => 0xffff_ffff,
            Width::Eight => usize::MAX,
        }
    }
}

// The bytes of the length.
#[inline(always)]
fn highest_first(width: Width, len: usize) -> HeaderBytes
    requires { len ≤ most_of width }
    ensures { take result.len result.bytes ≡ length_in_bytes width Order.BigEndian len }
{
    match width {
        Width::One => HeaderBytes::new(&(len as u8).to_be_bytes()),
        Width::Two => HeaderBytes::new(&(len as u16).to_be_bytes()),
        Width::Four => HeaderBytes::new(&(len as u32).to_be_bytes()),
        Width::Eight => HeaderBytes::new(&(len as u64).to_be_bytes()),
    }
}

// The same with the lowest byte first.
#[inline(always)]
fn lowest_first(width: Width, len: usize) -> HeaderBytes
    requires { len ≤ most_of width }
    ensures { take result.len result.bytes ≡ length_in_bytes width Order.LittleEndian len }
{
    match width {
        Width::One => HeaderBytes::new(&(len as u8).to_le_bytes()),
        Width::Two => HeaderBytes::new(&(len as u16).to_le_bytes()),
        Width::Four => HeaderBytes::new(&(len as u32).to_le_bytes()),
        Width::Eight => HeaderBytes::new(&(len as u64).to_le_bytes()),
    }
}
