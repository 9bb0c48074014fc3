//! What every connection rule is.
ghost use Rattle.std.specs.Prelude.{◌≡◌, ℕ, Option as Maybe};
ghost use Rattle.trips.specs.declared.trip.Trip.{Trip};
ghost use Rattle.rules.specs.declared.rule.YardCents.{YardCents};
ghost use Rattle.rules.specs.Laws.{Forward, YardBound, LinkBound};

use trips::Trip;

/// What the yard legs of a trip cost, in cents.
#[derive(Clone, Copy)]
pub struct YardCents {
    /// From the yard to the trip's start.
    pub out: u32,
    /// From the trip's end home to the yard.
    pub home: u32,
}

/// A connection rule stands for fixed facts on trips: it answers any trips, alike each time, and
/// alters nothing.
pub trait Rule {
    /// The cents of a trip's yard legs, or None where the rule does not serve the trip.
    ghost yard: { Self → Trip → Maybe YardCents };

    /// The cents of going on from the first trip to the second, or None where there is no link.
    ghost link: { Self → Trip → Trip → Maybe ℕ };

    /// A link only leads to a trip that departs no earlier than the first arrives.
    ghost forward: { Forward link };

    /// No yard leg costs more than 1,000,000,000 cents.
    ghost yardbound: { YardBound yard };

    /// No link costs more than 1,000,000,000 cents.
    ghost linkbound: { LinkBound link };

    /// The cents of the trip's yard legs, or None where the rule does not serve the trip.
    fn yard_cents(&self, trip: &Trip) -> Option<YardCents>
        ensures { result ≡ yard self.now trip.now };

    /// The cents of the link from the first trip to the second, or None where there is none.
    fn link_cents(&self, from: &Trip, to: &Trip) -> Option<u32>
        ensures { result ≡ link self.now from.now to.now };
}
