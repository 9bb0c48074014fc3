//! The links that the search has made.
ghost use Rattle.std.specs.Prelude.{◌≡◌, ◌<◌, ◌≤◌, length, slice_set};
ghost use Rattle.matchings.specs.Tables.{at};
ghost use Rattle.planner.specs.Entries.{IsEntry};

use super::entries::{clear_entry, entry, name};

/// Links from tails to heads, from both sides.
#[derive(Drop)]
pub(crate) struct Links<'t> {
    /// The head of each tail.
    pub(crate) next: &'t mut [u16],
    /// The tail of each head.
    pub(crate) prior: &'t mut [u16],
    ghost long: { length prior.now ≡ length next.now },
    ghost few: { length next.now ≤ 4000 },
}

impl Links<'_> {
    /// The head that a tail has, if it has one.
    pub(crate) fn head_of(&self, i: usize) -> Option<usize>
        requires { i < length self.now.next.now }
        ensures { IsEntry (at self.now.next.now i) result }
    {
        entry(self.next, i)
    }

    /// The tail that a head has, if it has one.
    pub(crate) fn tail_of(&self, j: usize) -> Option<usize>
        requires { j < length self.now.next.now }
        ensures { IsEntry (at self.now.prior.now j) result }
    {
        entry(self.prior, j)
    }

    /// Links a tail to a head.
    pub(crate) fn link(&mut self, i: usize, j: usize)
        requires tail { i < length self.old.next.now }
        requires head { j < length self.old.next.now }
        ensures next { self.new.next.now ≡ slice_set self.old.next.now i j }
        ensures prior { self.new.prior.now ≡ slice_set self.old.prior.now j i }
    {
        name(self.next, i, j);
        name(self.prior, j, i);
    }

    /// Takes its head from a tail; the head keeps the tail that it has.
    pub(crate) fn take_head(&mut self, i: usize)
        requires { i < length self.old.next.now }
        ensures next { self.new.next.now ≡ slice_set self.old.next.now i 65535 }
        ensures prior { self.new.prior.now ≡ self.old.prior.now }
    {
        clear_entry(self.next, i);
    }
}
