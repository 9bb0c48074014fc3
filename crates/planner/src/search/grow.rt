//! One growth.
ghost use Rattle.std.specs.Prelude.{◌≡◌, ◌≤◌, true, length, pos, ◌≤ℤ◌};
ghost use Rattle.rows.specs.Places.{weight};
ghost use Rattle.planner.specs.Searches.{trips, AreBorneOut, AreCalm, GrownTo};

use super::bounded::BoundedCosts;
use super::costs::Costs;
use super::extend::extend;
use super::flip::flip;
use super::links::Links;
use super::prices::Prices;
use super::scan::start;
use super::settle::settle;
use super::stuck::Stuck;
use super::tails::Tails;

/// Gains one link, or tells why none is gained. Where the duties are within the limit, a link is gained only while the
/// hull price stays at or below zero; otherwise it is dear, and the prices settle at a hull price of zero.
pub(crate) fn grow<C: Costs>(
    day: &BoundedCosts<C>,
    within: bool,
    links: &mut Links,
    prices: &mut Prices<C::Value>,
    tails: &mut Tails<C::Value>,
) -> Result<(), Stuck>
    requires tails_long { length tails.old.reached.now ≡ trips links.old }
    requires borne { AreBorneOut C.Value.Rowed.row (C.Costs.net day.now.costs.now) links.old prices.old }
    requires calm { AreCalm C.Value.Rowed.row links.old prices.old }
    requires low { within ≡ true → weight (C.Value.Rowed.row prices.old.hull) ≤ℤ pos 0 }
    ensures links_long { trips links.new ≡ trips links.old }
    ensures tails_long { length tails.new.reached.now ≡ trips links.old }
    ensures borne { AreBorneOut C.Value.Rowed.row (C.Costs.net day.now.costs.now) links.new prices.new }
    ensures grown { GrownTo C.Value.Rowed.row (C.Costs.net day.now.costs.now) links.old links.new prices.new tails.new within result }
{
    start(day, links, prices, tails);
    match extend(day, within, links, prices, tails) {
        Ok(i) => {
            flip(i, tails, links);
            Ok(())
        }
        Err(Stuck::Dear) => {
            settle(day, links, prices, tails);
            Err(Stuck::Dear)
        }
        Err(Stuck::DeadEnd) => Err(Stuck::DeadEnd),
    }
}
