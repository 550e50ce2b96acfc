//! What stands before a payload.
ghost use Rattle.std.specs.Prelude.{◌≡◌, ◌+◌, ◌≤◌, ◌++◌, length, take};
ghost use Rattle.std.specs.Fmt.{decimal};

/// The bytes that stand before a payload: the first `len` of `bytes`.
#[derive(Clone, Copy, Debug, Drop)]
pub struct HeaderBytes {
    pub bytes: [u8; 40],
    pub len: usize,
    pub ghost fits: { len ≤ 40 },
}

impl HeaderBytes {
    /// These bytes, at most 40.
    #[inline(always)]
    pub fn new(bytes: &[u8]) -> HeaderBytes
        requires { length bytes.now ≤ 40 }
        ensures bytes { take result.len result.bytes ≡ bytes.now }
        ensures len { result.len ≡ length bytes.now }
    {
        let mut header = HeaderBytes {
            bytes: [0; 40],
            len: 0,
        };
        header.push(bytes);
        header
    }

    /// With these bytes behind it, at most 40 in all.
    #[inline(always)]
    pub fn push(&mut self, bytes: &[u8])
        requires { self.old.len + length bytes.now ≤ 40 }
        ensures bytes { take self.new.len self.new.bytes ≡ take self.old.len self.old.bytes ++ bytes.now }
        ensures len { self.new.len ≡ self.old.len + length bytes.now }
    {
        let end = self.len + bytes.len();
        self.bytes[self.len..end].copy_from_slice(bytes);
        self.len = end;
    }

    /// With this number behind it, in decimal.
    pub fn push_number(&mut self, number: usize)
        requires { self.old.len + length (decimal number) ≤ 40 }
        ensures bytes { take self.new.len self.new.bytes ≡ take self.old.len self.old.bytes ++ decimal number }
        ensures len { self.new.len ≡ self.old.len + length (decimal number) }
    {
        if number >= 10 {
            self.push_number(number / 10);
        }
        let digit = b'0' + (number % 10) as u8;
        self.push(&[digit]);
    }
}
