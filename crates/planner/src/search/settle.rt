//! The raise that ends the search.
ghost use Rattle.std.specs.Prelude.{◌≡◌, ◌≤◌, length, pos, ◌≤ℤ◌};
ghost use Rattle.rows.specs.Places.{weight};
ghost use Rattle.planner.specs.Searches.{trips, AreBorneOut, AreCalm, IsHalted};

use super::bounded::BoundedCosts;
use super::costs::Costs;
use super::links::Links;
use super::prices::Prices;
use super::raise::raise;
use super::tails::Tails;
use rows::Rowed;

/// Raises so far that the hull price is zero, where this reaches no other tail.
pub(crate) fn settle<C: Costs>(
    day: &BoundedCosts<C>,
    links: &Links,
    prices: &mut Prices<C::Value>,
    tails: &mut Tails<C::Value>,
)
    requires borne { AreBorneOut C.Value.Rowed.row (C.Costs.net day.now.costs.now) links.now prices.old }
    requires halted { IsHalted C.Value.Rowed.row (C.Costs.net day.now.costs.now) links.now prices.old tails.old }
    requires low { weight (C.Value.Rowed.row prices.old.hull) ≤ℤ pos 0 }
    ensures tails_long { length tails.new.reached.now ≡ length tails.old.reached.now }
    ensures borne { AreBorneOut C.Value.Rowed.row (C.Costs.net day.now.costs.now) links.now prices.new }
    ensures calm { AreCalm C.Value.Rowed.row links.now prices.new }
    ensures zero { weight (C.Value.Rowed.row prices.new.hull) ≡ pos 0 }
{
    let by = prices.hull.negated();
    raise(links, prices, tails, by);
    prices.hull = C::Value::zero();
}
