//! What the tow rule says of trips.
ghost use Rattle.std.specs.Prelude.{Some};
ghost use Rattle.tow_rule.specs.Listed.{listed_link};
ghost use Rattle.tow_rule.specs.Lawful.{tow_forward, tow_yard_bound, tow_link_bound};

use crate::rule::TowRule;
use rules::{Rule, YardCents};
use trips::Trip;

impl Rule for TowRule<'_> {
    ghost yard = { λ s _. Some s.yard };

    ghost link = { λ s a b. listed_link s.listed.links.now a b };

    ghost forward = { λ s a b n e. tow_forward s a b n e };

    ghost yardbound = { λ s t y e. tow_yard_bound s y e };

    ghost linkbound = { λ s a b n e. tow_link_bound s a b n e };

    fn yard_cents(&self, _trip: &Trip) -> Option<YardCents> {
        Some(self.yard)
    }

    fn link_cents(&self, from: &Trip, to: &Trip) -> Option<u32> {
        self.listed.link_cents(from, to)
    }
}
