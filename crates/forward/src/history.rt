//! States that contracts alone see. They take no bytes, and the methods do nothing at run time.
ghost use Rattle.std.specs.Prelude.{◌≡◌, List, [], ◌∷◌, ◌++◌};
ghost use Rattle.std.specs.Borrow.{ftrue};

use std::marker::{Model, PhantomData};

/// States, one after another, as clauses read them in `states`.
#[derive(Drop)]
pub struct History<T> {
    of: PhantomData<T>,
    pub ghost states: { List T },
}

impl<T> Model for History<T> {
    ghost also_owns = { λ _. ftrue };
}

impl<T> History<T> {
    /// No state.
    pub fn new() -> History<T>
        ensures { result.states ≡ [] }
    {
        History { of: PhantomData }
    }

    /// One state more.
    #[inline(always)]
    pub fn with(&self, _state: &T) -> History<T>
        ensures { result.states ≡ self.now.states ++ _state.now ∷ [] }
    {
        History { of: PhantomData }
    }
}
