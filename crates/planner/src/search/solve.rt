//! The whole search: from no link at all, one growth after the other.
ghost use Rattle.std.specs.Prelude.{◌≡◌, ◌≤◌, length, pos, ◌≤ℤ◌};
ghost use Rattle.rows.specs.Places.{weight};
ghost use Rattle.matchings.specs.Tables.{free};
ghost use Rattle.matchings.specs.Rowed.{PlacesNear};
ghost use Rattle.matchings.specs.Growths.{Opened};
ghost use Rattle.planner.specs.Searches.{trips, AreBorneOut, AreCalm, Solved};

use super::bounded::BoundedCosts;
use super::costs::Costs;
use super::entries::clear;
use super::grow::grow;
use super::links::Links;
use super::prices::Prices;
use super::stop::enough;
use super::stuck::Stuck;
use super::tails::Tails;
use crate::outcome::Unplanned;
use rows::Rowed;

/// The hull price that the search begins with, in each place: so low that no link costs less than its two prices.
const START: i64 = -6_000_000_000;

/// Prices every trip as a duty of its own.
fn quote<C: Costs>(
    day: &BoundedCosts<C>,
    hull: C::Value,
    coming: &mut [C::Value],
    leaving: &mut [C::Value],
)
    requires leaving_long { length leaving.old ≡ length coming.old }
    requires near { PlacesNear 6000000000 (C.Value.Rowed.row hull) }
    ensures { Opened C.Value.Rowed.row (C.Costs.net day.now.costs.now) hull (length coming.old) coming.new leaving.new }
{
    // By an index: the price of leaving a trip and its costs are asked for by its position.
    for (i, price) in coming.iter_mut().enumerate() {
        *price = day.costs.opening(i).plus(hull);
        leaving[i] = day.costs.home(i);
    }
}

/// Links nothing: every trip is a duty of its own, at the lowest hull price.
fn begin<C: Costs>(day: &BoundedCosts<C>, links: &mut Links, prices: &mut Prices<C::Value>)
    requires prices_long { length prices.old.coming.now ≡ trips links.old }
    ensures links_long { trips links.new ≡ trips links.old }
    ensures borne { AreBorneOut C.Value.Rowed.row (C.Costs.net day.now.costs.now) links.new prices.new }
    ensures calm { AreCalm C.Value.Rowed.row links.new prices.new }
    ensures unlinked { free links.new.prior.now ≡ trips links.new }
    ensures low { weight (C.Value.Rowed.row prices.new.hull) ≤ℤ pos 0 }
{
    clear(links.next);
    clear(links.prior);
    let low = C::Value::filled(START);
    quote(day, low, prices.coming, prices.leaving);
    prices.hull = low;
}

/// Gains links up to where the duties are within the limit and the hull price is not below zero, or to a dead end with
/// more duties. The prices bear the links out.
pub(crate) fn solve<C: Costs>(
    day: &BoundedCosts<C>,
    limit: u16,
    links: &mut Links,
    prices: &mut Prices<C::Value>,
    tails: &mut Tails<C::Value>,
) -> Result<u16, Unplanned>
    requires prices_long { length prices.old.coming.now ≡ trips links.old }
    requires tails_long { length tails.old.reached.now ≡ trips links.old }
    ensures links_long { trips links.new ≡ trips links.old }
    ensures borne { AreBorneOut C.Value.Rowed.row (C.Costs.net day.now.costs.now) links.new prices.new }
    ensures solved { Solved C.Value.Rowed.row (C.Costs.net day.now.costs.now) limit links.new prices.new tails.new result }
{
    begin(day, links, prices);
    // Links are few, so their number is cast without loss.
    let mut duties = links.next.len() as u16;
    'growths: while !enough(duties, limit, prices.hull) {
        match grow(day, duties <= limit, links, prices, tails) {
            Ok(()) => duties -= 1,
            Err(Stuck::Dear) => return Ok(duties),
            Err(Stuck::DeadEnd) => return Err(Unplanned::TooFew(duties)),
        }
    }
    Ok(duties)
}
