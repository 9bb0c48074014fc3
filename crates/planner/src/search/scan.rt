//! The slacks, by the links to one head after the other.
ghost use Rattle.std.specs.Prelude.{◌≡◌, ℕ, ◌<◌, length};
ghost use Rattle.matchings.specs.Tables.{at, at_z, Scan, FreeBelow};
ghost use Rattle.matchings.specs.Rowed.{weighed, weights};
ghost use Rattle.matchings.specs.Sound.{Slacks};
ghost use Rattle.planner.specs.Searches.{PricesNear};

use super::bounded::BoundedCosts;
use super::costs::Costs;
use super::entries::{clear, name};
use super::links::Links;
use super::prices::Prices;
use super::tails::Tails;
use rows::Rowed;

/// Looks at each tail that may be linked to the head `j` and is not reached, and keeps the lesser slack.
pub(crate) fn scan<C: Costs>(
    day: &BoundedCosts<C>,
    j: usize,
    prices: &Prices<C::Value>,
    tails: &mut Tails<C::Value>,
)
    requires within { j < length prices.now.coming.now }
    requires few { j < 65535 }
    requires tails_long { length tails.old.reached.now ≡ length prices.now.coming.now }
    requires near { PricesNear C.Value.Rowed.row 40000000000000000 prices.now }
    ensures reached { tails.new.reached.now ≡ tails.old.reached.now }
    ensures scanned { Scan (weighed (C.Costs.net day.now.costs.now)) j (at_z (weights C.Value.Rowed.row prices.now.coming.now) j) (weights C.Value.Rowed.row prices.now.leaving.now) tails.old.reached.now j
        (weights C.Value.Rowed.row tails.old.slack.now) (weights C.Value.Rowed.row tails.new.slack.now) tails.old.via.now tails.new.via.now }
{
    let price = prices.coming[j];
    // A tail is asked for by its position, in four tables and in the costs.
    for i in 0..j {
        if tails.is_reached(i) {
            continue;
        }
        if let Some(cost) = day.costs.link(i, j) {
            let slack = cost.minus(prices.leaving[i]).minus(price);
            if tails.via_of(i).is_none() || slack.is_below(tails.slack[i]) {
                tails.slack[i] = slack;
                name(tails.via, i, j);
            }
        }
    }
}

/// Begins a growth: no tail is reached, and the slacks are those by the heads without a tail.
pub(crate) fn start<C: Costs>(
    day: &BoundedCosts<C>,
    links: &Links,
    prices: &Prices<C::Value>,
    tails: &mut Tails<C::Value>,
)
    requires prices_long { length prices.now.coming.now ≡ length links.now.next.now }
    requires tails_long { length tails.old.reached.now ≡ length links.now.next.now }
    requires near { PricesNear C.Value.Rowed.row 40000000000000000 prices.now }
    ensures tails_long { length tails.new.reached.now ≡ length links.now.next.now }
    ensures blank { (k : ℕ) → k < length links.now.next.now → at tails.new.reached.now k ≡ 65535 }
    ensures slacks { Slacks (weighed (C.Costs.net day.now.costs.now)) (length links.now.next.now) (FreeBelow links.now.prior.now (length links.now.next.now)) tails.new.reached.now tails.new.via.now
        (weights C.Value.Rowed.row prices.now.coming.now) (weights C.Value.Rowed.row prices.now.leaving.now) (weights C.Value.Rowed.row tails.new.slack.now) }
{
    clear(tails.reached);
    clear(tails.via);
    // A head is asked for by its position, in the links and by the scan.
    for j in 0..links.next.len() {
        if links.tail_of(j).is_none() {
            scan(day, j, prices, tails);
        }
    }
}
