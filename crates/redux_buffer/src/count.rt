//! A whole number that contracts alone see. It takes no bytes, and its methods do nothing at run time.
ghost use Rattle.std.specs.Prelude.{◌≡◌, ◌+◌, ℕ};
ghost use Rattle.std.specs.Borrow.{ftrue};

use std::fmt;
use std::marker::Model;
use std::mem::size_of;

/// A count, as clauses read it in `total`. It has no limit.
#[derive(Drop)]
pub struct Count {
    pub ghost total: { ℕ },
}

impl Model for Count {
    ghost also_owns = { λ _. ftrue };
}

impl Count {
    /// The count 0.
    pub fn zero() -> Count
        ensures { result.total ≡ 0 }
    {
        Count {}
    }

    /// Raises the count by `n`.
    #[inline(always)]
    pub fn add(&mut self, _n: usize)
        ensures { self.new.total ≡ self.old.total + _n }
    {}
}

impl fmt::Debug for Count {
    fn fmt<W: fmt::Write>(&self, f: &mut fmt::Formatter<W>) -> fmt::Result {
        f.write_str("Count")
    }
}

const _: () = prove!(size_of::<Count>() == 0);
