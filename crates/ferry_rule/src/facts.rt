//! What the ferry rule says of trips.
ghost use Rattle.std.specs.Prelude.{◌≡◌, ◌≤◌, IfSome};
ghost use Rattle.ferry_rule.specs.Facts.{way, ferry_link, ferry_yard};
ghost use Rattle.ferry_rule.specs.Sailing.{LinkSailed, YardSailed};
ghost use Rattle.ferry_rule.specs.Lawful.{ferry_forward, ferry_yard_bound, ferry_link_bound};

use crate::rule::FerryRule;
use rules::{Rule, YardCents};
use trips::Trip;

/// The yard is at this berth.
const YARD: u8 = 0;

impl FerryRule {
    /// The minutes of the way from one berth to another.
    #[tactic(auto, using(crate::specs::Lawful::short_way))]
    fn minutes(&self, from: u8, to: u8) -> Option<u32>
        ensures value { result ≡ way self.now from to }
        ensures short { IfSome result (λ m. m ≤ 18600) }
    {
        self.chart.distance(from, to)
    }
}

impl Rule for FerryRule {
    ghost yard = { ferry_yard };

    ghost link = { ferry_link };

    ghost forward = { ferry_forward };

    ghost yardbound = { ferry_yard_bound };

    ghost linkbound = { ferry_link_bound };

    #[tactic(auto, using(crate::proofs::Sailed::yard_sailed))]
    fn yard_cents(&self, trip: &Trip) -> Option<YardCents>
        ensures fact { result ≡ ferry_yard self.now trip.now }
        ensures sailed { YardSailed self.now trip.now result }
    {
        let out = self.minutes(YARD, trip.start);
        let home = self.minutes(trip.end, YARD);
        out.zip(home).map(|(out, home)| YardCents {
            out: self.terms.cents(out),
            home: self.terms.cents(home),
        })
    }

    #[tactic(auto, using(crate::proofs::Sailed::link_sailed))]
    fn link_cents(&self, from: &Trip, to: &Trip) -> Option<u32>
        ensures fact { result ≡ ferry_link self.now from.now to.now }
        ensures sailed { LinkSailed self.now from.now to.now result }
    {
        let minutes = self.minutes(from.end, to.start)?;
        let fits = self.terms.fit(from, to, minutes);
        fits.then_some(self.terms.cents(minutes))
    }
}
