//! What trips are priced at, and what a plan costs.
ghost use Rattle.std.specs.Prelude.{◌≡◌, ◌≤◌, length};
ghost use Rattle.outcomes.specs.Passes.{Totalled, Priced};
ghost use Rattle.plans.specs.Answers.{cost_high};
ghost use Rattle.planner.specs.Costs.{past_place};
ghost use Rattle.planner.specs.Searches.{PricesNear};

use crate::search::prices::Prices;
use rows::Rowed;

/// How far from zero a place of a plan's cost may lie.
const MOST_COST: i64 = 1_000_000_000_000_000;

/// The prices of all trips together: a trip's price is that of coming to it and that of leaving it.
pub(crate) fn total<V: Rowed>(prices: &Prices<V>) -> V
    requires few { length prices.now.coming.now ≤ 200 }
    requires near { PricesNear V.Rowed.row 32012000000000 prices.now }
    ensures { Totalled V.Rowed.row prices.now.coming.now prices.now.leaving.now (length prices.now.coming.now) result }
{
    let mut total = V::zero();
    for (coming, leaving) in prices.coming.iter().zip(prices.leaving.iter()) {
        total = total.plus(coming.plus(*leaving));
    }
    total
}

/// Writes the price of each trip.
pub(crate) fn write_prices<V: Rowed>(prices: &Prices<V>, written: &mut [V])
    requires written_long { length written.old ≡ length prices.now.coming.now }
    requires near { PricesNear V.Rowed.row 32012000000000 prices.now }
    ensures { Priced V.Rowed.row prices.now.coming.now prices.now.leaving.now (length prices.now.coming.now) written.new }
{
    // By an index: of what a zipped `iter_mut` writes a proof knows nothing.
    for (i, price) in written.iter_mut().enumerate() {
        *price = prices.coming[i].plus(prices.leaving[i]);
    }
}

/// Whether a place, if there is one, lies further from zero than a place of a cost may.
fn is_past(place: Option<i64>) -> bool
    ensures { result ≡ past_place place }
{
    place.is_some_and(|number| number > MOST_COST || number < -MOST_COST)
}

/// Whether some place of a cost is past the most.
pub(crate) fn is_high<V: Rowed>(cost: V) -> bool
    requires few { V.Rowed.count ≤ 4 }
    ensures { result ≡ cost_high (V.Rowed.row cost) }
{
    // By an index, since a row is asked for one place at a time; it has four at most.
    for i in 0..4 {
        if is_past(cost.place(i)) {
            return true;
        }
    }
    false
}
