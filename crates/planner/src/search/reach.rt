//! One step of a growth: a tail is reached.
ghost use Rattle.std.specs.Prelude.{◌≡◌, ◌+◌, ◌≤◌, length, ◌+ℤ◌, Some, ◌≢◌};
ghost use Rattle.rows.specs.Places.{weight};
ghost use Rattle.matchings.specs.Tables.{at, at_z};
ghost use Rattle.matchings.specs.Rowed.{weighed, weights};
ghost use Rattle.matchings.specs.Sound.{Tree};
ghost use Rattle.planner.specs.Searches.{trips, AreBorneOut, AreCalm, IsGrown, IsLeast};

use super::bounded::BoundedCosts;
use super::costs::Costs;
use super::links::Links;
use super::prices::Prices;
use super::raise::raise;
use super::scan::scan;
use super::tails::Tails;
use rows::Rowed;

/// Raises by the slack of the tail `i`, which is the least, marks `i` as the tail reached after `t` others, and scans
/// the links to the head of `i`, if it has one.
pub(crate) fn reach<C: Costs>(
    day: &BoundedCosts<C>,
    i: usize,
    t: u16,
    links: &Links,
    prices: &mut Prices<C::Value>,
    tails: &mut Tails<C::Value>,
)
    requires borne { AreBorneOut C.Value.Rowed.row (C.Costs.net day.now.costs.now) links.now prices.old }
    requires grown { IsGrown C.Value.Rowed.row (C.Costs.net day.now.costs.now) links.now prices.old tails.old t }
    requires least { IsLeast C.Value.Rowed.row tails.old (Some i) }
    ensures tails_long { length tails.new.reached.now ≡ length tails.old.reached.now }
    ensures borne { AreBorneOut C.Value.Rowed.row (C.Costs.net day.now.costs.now) links.now prices.new }
    ensures price { weight (C.Value.Rowed.row prices.new.hull) ≡ (weight (C.Value.Rowed.row prices.old.hull) +ℤ at_z (weights C.Value.Rowed.row tails.old.slack.now) i) }
    ensures further { (at links.now.next.now i ≢ 65535) → IsGrown C.Value.Rowed.row (C.Costs.net day.now.costs.now) links.now prices.new tails.new (t + 1) }
    ensures ends { at links.now.next.now i ≡ 65535
        → Tree (weighed (C.Costs.net day.now.costs.now)) (trips links.now) links.now.prior.now tails.new.reached.now tails.new.via.now (weights C.Value.Rowed.row prices.new.coming.now) (weights C.Value.Rowed.row prices.new.leaving.now) (t + 1)
        × (at tails.new.reached.now i ≡ t) × AreCalm C.Value.Rowed.row links.now prices.new }
{
    let by = tails.slack[i];
    raise(links, prices, tails, by);
    prices.hull = prices.hull.plus(by);
    tails.reached[i] = t;
    if let Some(j) = links.head_of(i) {
        scan(day, j, prices, tails);
    }
}
