//! What the search comes to: a plan in the tables, or why there is none.
ghost use Rattle.std.specs.Prelude.{◌≡◌, ◌≤◌, length};
ghost use Rattle.planner.specs.Outcomes.{Comes};
ghost use Rattle.planner.specs.Searches.{trips};

use crate::pricing::{is_high, total, write_prices};
use crate::search::Costs;
use crate::search::bounded::BoundedCosts;
use crate::search::links::Links;
use crate::search::prices::Prices;
use crate::search::solve::solve;
use crate::search::tails::Tails;
use plans::Plan;
use rows::Rowed;

/// Why the search came to no plan.
#[derive(Clone, Copy)]
pub(crate) enum Unplanned {
    /// Every cover has more duties than the limit, and the fewest has so many.
    TooFew(u16),
    /// The cost passes the most in some place.
    TooDear,
}

/// Searches for the cheapest duties within the limit, and writes their successors and prices. Where there are none, or
/// they are too dear, only the tables of the search are altered.
pub(crate) fn outcome<C: Costs>(
    day: &BoundedCosts<C>,
    limit: u16,
    successors: &mut [u16],
    written: &mut [C::Value],
    links: &mut Links,
    prices: &mut Prices<C::Value>,
    tails: &mut Tails<C::Value>,
) -> Result<Plan<C::Value>, Unplanned>
    requires places { C.Value.Rowed.count ≤ 4 }
    requires few { (C.Costs.net day.now.costs.now).trips ≤ 200 }
    requires limited { limit ≤ 200 }
    requires successors_long { length successors.old ≡ (C.Costs.net day.now.costs.now).trips }
    requires written_long { length written.old ≡ (C.Costs.net day.now.costs.now).trips }
    requires links_long { trips links.old ≡ (C.Costs.net day.now.costs.now).trips }
    requires prices_long { length prices.old.coming.now ≡ (C.Costs.net day.now.costs.now).trips }
    requires tails_long { length tails.old.reached.now ≡ (C.Costs.net day.now.costs.now).trips }
    ensures { Comes C.Value.Rowed.row C.Value.Rowed.count (C.Costs.net day.now.costs.now) limit successors.old written.old result successors.new written.new }
{
    let duties = solve(day, limit, links, prices, tails)?;
    let cost = total(prices).minus(prices.hull.times(i64::from(duties)));
    if is_high(cost) {
        return Err(Unplanned::TooDear);
    }
    successors.copy_from_slice(links.next);
    write_prices(prices, written);
    Ok(Plan {
        duties,
        cost,
        hull_price: prices.hull,
    })
}
