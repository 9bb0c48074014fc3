//! Tail after tail is reached.
ghost use Rattle.std.specs.Prelude.{◌≡◌, ◌≤◌, true, length, pos, ◌≤ℤ◌};
ghost use Rattle.rows.specs.Places.{weight};
ghost use Rattle.planner.specs.Searches.{trips, AreBorneOut, IsGrown, Extended};

use super::bounded::BoundedCosts;
use super::costs::Costs;
use super::least::least;
use super::links::Links;
use super::prices::Prices;
use super::reach::reach;
use super::stop::is_over;
use super::stuck::Stuck;
use super::tails::Tails;

/// Reaches one tail after the other, up to one without a head. Where the duties are within the limit, the hull price stays at or
/// below zero.
pub(crate) fn extend<C: Costs>(
    day: &BoundedCosts<C>,
    within: bool,
    links: &Links,
    prices: &mut Prices<C::Value>,
    tails: &mut Tails<C::Value>,
) -> Result<usize, Stuck>
    requires borne { AreBorneOut C.Value.Rowed.row (C.Costs.net day.now.costs.now) links.now prices.old }
    requires grown { IsGrown C.Value.Rowed.row (C.Costs.net day.now.costs.now) links.now prices.old tails.old 0 }
    requires low { within ≡ true → weight (C.Value.Rowed.row prices.old.hull) ≤ℤ pos 0 }
    ensures tails_long { length tails.new.reached.now ≡ length tails.old.reached.now }
    ensures borne { AreBorneOut C.Value.Rowed.row (C.Costs.net day.now.costs.now) links.now prices.new }
    ensures low { within ≡ true → weight (C.Value.Rowed.row prices.new.hull) ≤ℤ pos 0 }
    ensures extended { Extended C.Value.Rowed.row (C.Costs.net day.now.costs.now) links.now prices.new tails.new within result }
{
    let mut t = 0u16;
    while let Some(i) = least(tails) {
        if within && is_over(prices.hull, tails.slack[i]) {
            return Err(Stuck::Dear);
        }
        reach(day, i, t, links, prices, tails);
        if links.head_of(i).is_none() {
            return Ok(i);
        }
        t += 1;
    }
    if within {
        return Err(Stuck::Dear);
    }
    Err(Stuck::DeadEnd)
}
