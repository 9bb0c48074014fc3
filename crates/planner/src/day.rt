//! A day of trips, as the search sees it.
ghost use Rattle.std.specs.Prelude.{◌≡◌, ◌≤◌};
ghost use Rattle.board.specs.Standing.{Standing};
ghost use Rattle.plans.specs.Terms.{day_of, yard_at};

use crate::search::Costs;
use plans::{Pricing, Terms};
use rows::Rowed;
use rules::{Rule, YardCents};
use tariffs::Tariff;
use trips::Trip;

/// Trips that stand on a board, in board order, with the limit on their duties and the terms by which they are planned.
#[derive(Drop)]
pub(crate) struct Day<'d, 't, 'a, R, T> {
    pub(crate) trips: &'d [Trip],
    pub(crate) limit: u16,
    pub(crate) terms: &'t Terms<'a, R, T>,
    ghost standing: { Standing trips.now },
    ghost limited: { limit ≤ 200 },
}

impl<R: Rule, T: Tariff> Day<'_, '_, '_, R, T> {
    /// The cents of the yard legs of the trip at a position; none where there is no trip, or the rule does not serve it.
    fn yard(&self, i: usize) -> YardCents
        ensures { result ≡ yard_at (R.Rule.yard self.now.terms.now.rule.now) self.now.trips.now i }
    {
        self.trips
            .get(i)
            .and_then(|trip| self.terms.rule.yard_cents(trip))
            .unwrap_or(YardCents { out: 0, home: 0 })
    }
}

impl<'a, R: Rule, T: Tariff> Costs for Day<'_, '_, 'a, R, T> {
    type Value = T::Value;

    ghost net = { λ s. day_of (⟦<Terms<'a, R, T> as Pricing>⟧.terms s.terms.now) s.trips.now };

    fn link(&self, i: usize, j: usize) -> Option<T::Value> {
        // The head first: a search looks at many tails of one head, and they stand before it.
        let to = self.trips.get(j)?;
        let from = self.trips.get(i)?;
        let cents = self.terms.rule.link_cents(from, to)?;
        Some(self.terms.tariff.link(cents))
    }

    fn opening(&self, j: usize) -> T::Value {
        self.terms.tariff.opening(self.terms.fee, self.yard(j).out)
    }

    fn home(&self, i: usize) -> T::Value {
        self.terms.tariff.home(self.yard(i).home)
    }
}
