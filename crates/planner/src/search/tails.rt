//! What a growth knows of the tails.
ghost use Rattle.std.specs.Prelude.{◌≡◌, ◌<◌, ◌⊎◌, length, MatchBool, ◌≢◌};
ghost use Rattle.matchings.specs.Tables.{at};
ghost use Rattle.planner.specs.Entries.{IsEntry};

use super::entries::entry;

/// How tails are reached.
#[derive(Drop)]
pub(crate) struct Tails<'t, V> {
    /// The number of each tail in the order in which tails were reached.
    pub(crate) reached: &'t mut [u16],
    /// The least by which a link from each tail to a reached head costs more than its two prices.
    pub(crate) slack: &'t mut [V],
    /// The head by which each tail is reached best.
    pub(crate) via: &'t mut [u16],
    ghost slack_long: { length slack.now ≡ length reached.now },
    ghost via_long: { length via.now ≡ length reached.now },
}

impl<V> Tails<'_, V> {
    /// Whether a tail is reached.
    pub(crate) fn is_reached(&self, i: usize) -> bool
        requires { i < length self.now.reached.now }
        ensures { MatchBool result (at self.now.reached.now i ≢ 65535) (at self.now.reached.now i ≡ 65535) }
    {
        entry(self.reached, i).is_some()
    }

    /// The head by which a tail is reached best, if there is one.
    pub(crate) fn via_of(&self, i: usize) -> Option<usize>
        requires { i < length self.now.reached.now }
        ensures { IsEntry (at self.now.via.now i) result }
    {
        entry(self.via, i)
    }

    /// Whether a tail is not reached and has a link to a reached head.
    pub(crate) fn is_open(&self, i: usize) -> bool
        requires { i < length self.now.reached.now }
        ensures { MatchBool result ((at self.now.reached.now i ≡ 65535) × (at self.now.via.now i ≢ 65535)) ((at self.now.reached.now i ≢ 65535) ⊎ (at self.now.via.now i ≡ 65535)) }
    {
        !self.is_reached(i) && self.via_of(i).is_some()
    }
}
