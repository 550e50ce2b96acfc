//! A filter whose asks are noted.
ghost use Rattle.std.specs.Prelude.{◌≡◌, ℕ, List, [], ◌∷◌, ◌++◌, length, if◌then◌else◌, IfOk, OnOk};
ghost use Rattle.forward.specs.Link.{LinkAsks, LinkFlushes, LinkPasses};

use crate::error::AskError;
use crate::filter::Filter;
use crate::history::History;
use std::io;
use std::marker::Model;

/// A filter, with a note of each time that it was asked, which contracts alone see. Nothing else reaches the two streams.
#[derive(Drop)]
pub struct Link<F> {
    filter: F,
    history: History<F>,
}

impl<F> Model for Link<F> {
    ghost use Rattle.forward.specs.Link.{Linked};

    ghost Value = { Linked F };

    ghost view = { λ l. record { filter = l.filter; states = l.history.states } };
}

impl<F> Link<F> {
    /// A link that was not asked yet.
    pub fn new(filter: F) -> Link<F>
        ensures { result ≡ record { filter = filter; states = [] } }
    {
        Link {
            filter,
            history: History::new(),
        }
    }

    /// The filter.
    pub fn into_inner(self) -> F
        ensures { result ≡ self.filter }
    {
        let Link { filter, history: _ } = self;
        filter
    }
}

impl<F: Filter> Link<F> {
    /// [`Filter::pass`].
    #[inline(always)]
    pub fn pass(&mut self) -> io::Result<bool>
        requires { F.rules.ready self.old.filter }
        ensures moved { IfOk result (λ one. (payloads : List (List ℕ)) × (length payloads ≡ (if one then 1 else 0))
            × F.rules.hands self.old.filter payloads self.new.filter × F.rules.takes self.old.filter payloads self.new.filter) }
        ensures passes { LinkPasses F.rules self.old result self.new }
    {
        self.filter.pass()
    }

    /// [`Filter::flush`].
    #[inline(always)]
    pub fn flush(&mut self) -> io::Result<()>
        requires { F.rules.ready self.old.filter }
        ensures sent { OnOk result (F.rules.sent self.new.filter) }
        ensures flushes { LinkFlushes F.rules self.old result self.new }
    {
        self.filter.flush()
    }

    /// [`Filter::ask`], noted.
    #[inline(always)]
    pub fn ask(&mut self) -> Result<bool, AskError<F::Wrong>>
        requires ready { F.rules.ready self.old.filter }
        requires lacks { F.rules.lacks self.old.filter }
        ensures noted { self.new.states ≡ self.old.states ++ (self.old.filter ∷ self.new.filter ∷ []) }
        ensures asks { LinkAsks F.rules self.old result self.new }
    {
        self.history = self.history.with(&self.filter);
        let answer = self.filter.ask();
        self.history = self.history.with(&self.filter);
        answer
    }
}
