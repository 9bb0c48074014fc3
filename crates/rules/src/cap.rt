//! The crew cap: a rule over another rule.
ghost use Rattle.std.specs.Prelude.{◌≡◌};
ghost use Rattle.rules.specs.Caps.{capped_link, capped_from};

use crate::rule::{Rule, YardCents};
use trips::{Trip, gap};

/// The rule below it, without the links on which a crew would wait for longer than the cap.
#[derive(Clone, Copy)]
pub struct Cap<R> {
    below: R,
    /// The longest wait, in minutes.
    cap: u16,
}

impl<R> Cap<R> {
    /// The cap of so many minutes over a rule.
    pub fn new(below: R, cap: u16) -> Cap<R>
        ensures below { result.below ≡ below }
        ensures cap { result.cap ≡ cap }
    {
        Cap { below, cap }
    }
}

impl<R: Rule> Rule for Cap<R> {
    ghost yard = { λ s t. R.Rule.yard s.below t };

    ghost link = { λ s a b. capped_link s.cap a b (R.Rule.link s.below a b) };

    ghost forward = { λ s a b n e. R.Rule.forward s.below a b n (capped_from s.cap a b n (R.Rule.link s.below a b) e) };

    ghost yardbound = { λ s t y e. R.Rule.yardbound s.below t y e };

    ghost linkbound = { λ s a b n e. R.Rule.linkbound s.below a b n (capped_from s.cap a b n (R.Rule.link s.below a b) e) };

    fn yard_cents(&self, trip: &Trip) -> Option<YardCents> {
        self.below.yard_cents(trip)
    }

    fn link_cents(&self, from: &Trip, to: &Trip) -> Option<u32> {
        if gap(from, to) <= i32::from(self.cap) {
            self.below.link_cents(from, to)
        } else {
            None
        }
    }
}
