//! A raise: the prices of coming to reached heads go up, the prices of leaving reached tails and the slacks of the
//! other tails down.
ghost use Rattle.std.specs.Prelude.{◌≡◌, ◌<◌, length, MatchBool};
ghost use Rattle.rows.specs.Places.{weight};
ghost use Rattle.matchings.specs.Tables.{Names, Reached, RaiseHeads, RaiseTails};
ghost use Rattle.matchings.specs.Rowed.{weights, PlacesNear, TableNear, SlacksNear};
ghost use Rattle.planner.specs.Searches.{PricesNear, AreRaised};

use super::links::Links;
use super::prices::Prices;
use super::tails::Tails;
use rows::Rowed;

/// Whether a head is reached: it has no tail, or its tail is reached.
fn is_head_reached<V>(links: &Links, tails: &Tails<V>, j: usize) -> bool
    requires within { j < length links.now.next.now }
    requires names { Names (length tails.now.reached.now) links.now.prior.now }
    ensures { MatchBool result (Reached links.now.prior.now tails.now.reached.now j) (Reached links.now.prior.now tails.now.reached.now j → ⊥) }
{
    match links.tail_of(j) {
        Some(i) => tails.is_reached(i),
        None => true,
    }
}

// That a step lies near zero is asked of each raise: a row can lie anywhere, and a type of its own for a step would be
// left again at the first sum.

/// Raises the prices of coming to the reached heads.
fn raise_heads<V: Rowed>(links: &Links, tails: &Tails<V>, coming: &mut [V], by: V)
    requires coming_long { length coming.old ≡ length links.now.next.now }
    requires names { Names (length tails.now.reached.now) links.now.prior.now }
    requires near { TableNear V.Rowed.row 40000000000000000 coming.old }
    requires step { PlacesNear 40000000000000000 (V.Rowed.row by) }
    ensures { RaiseHeads links.now.prior.now tails.now.reached.now (weight (V.Rowed.row by)) (length coming.old) (weights V.Rowed.row coming.old) (weights V.Rowed.row coming.new) }
{
    for (j, price) in coming.iter_mut().enumerate() {
        if is_head_reached(links, tails, j) {
            *price = price.plus(by);
        }
    }
}

/// Lowers the prices of leaving the reached tails, and the slacks of the others.
fn raise_tails<V: Rowed>(tails: &mut Tails<V>, leaving: &mut [V], by: V)
    requires leaving_long { length leaving.old ≡ length tails.old.reached.now }
    requires near { TableNear V.Rowed.row 40000000000000000 leaving.old }
    requires near_slack { SlacksNear V.Rowed.row 40000000000000000 tails.old.reached.now tails.old.via.now tails.old.slack.now }
    requires step { PlacesNear 40000000000000000 (V.Rowed.row by) }
    ensures reached { tails.new.reached.now ≡ tails.old.reached.now }
    ensures via { tails.new.via.now ≡ tails.old.via.now }
    ensures raised { RaiseTails tails.old.reached.now tails.old.via.now (weight (V.Rowed.row by)) (length leaving.old) (weights V.Rowed.row leaving.old) (weights V.Rowed.row leaving.new) (weights V.Rowed.row tails.old.slack.now) (weights V.Rowed.row tails.new.slack.now) }
{
    for (i, price) in leaving.iter_mut().enumerate() {
        if tails.is_reached(i) {
            *price = price.minus(by);
        } else if tails.via_of(i).is_some() {
            tails.slack[i] = tails.slack[i].minus(by);
        }
    }
}

/// Raises the prices of coming to the reached heads, and lowers the prices of leaving the reached tails and the slacks
/// of the others.
pub(crate) fn raise<V: Rowed>(links: &Links, prices: &mut Prices<V>, tails: &mut Tails<V>, by: V)
    requires prices_long { length prices.old.coming.now ≡ length links.now.next.now }
    requires tails_long { length tails.old.reached.now ≡ length links.now.next.now }
    requires names { Names (length links.now.next.now) links.now.prior.now }
    requires near { PricesNear V.Rowed.row 40000000000000000 prices.old }
    requires near_slack { SlacksNear V.Rowed.row 40000000000000000 tails.old.reached.now tails.old.via.now tails.old.slack.now }
    requires step { PlacesNear 40000000000000000 (V.Rowed.row by) }
    ensures { AreRaised V.Rowed.row links.now (weight (V.Rowed.row by)) prices.old prices.new tails.old tails.new }
{
    raise_heads(links, tails, prices.coming, by);
    raise_tails(tails, prices.leaving, by);
}
