//! The plan of the trips that stand on a board.
ghost use Rattle.std.specs.Prelude.{◌≡◌, ◌+◌, ◌*◌, ◌≤◌, false, length};
ghost use Rattle.board.specs.Boards.{limit_of, trips_of};
ghost use Rattle.plans.specs.Answers.{Answers};
ghost use Rattle.plans.specs.Lent.{SameTables, tables_of};
ghost use Rattle.plans.specs.Terms.{day_of};
ghost use Rattle.planner.specs.Answered.{Searched};
ghost use Rattle.planner.specs.Outcomes.{Comes};

use crate::checks::{first_unserved, is_fee_high, is_short};
use crate::day::Day;
use crate::outcome::{Unplanned, outcome};
use crate::search::bounded::BoundedCosts;
use crate::search::links::Links;
use crate::search::prices::Prices;
use crate::search::tails::Tails;
use board::Board;
use faults::{Fault, Layer, Refusal};
use plans::{Plan, Pricing, Tables, Terms};
use rows::Rowed;
use rules::Rule;
use tariffs::Tariff;
use trips::Trip;

/// Searches the day in parts of the work tables, into successors and prices with an entry for each trip.
fn search_day<'a, R: Rule, T: Tariff>(
    day: &Day<'_, '_, 'a, R, T>,
    successors: &mut [u16],
    prices: &mut [T::Value],
    numbers: &mut [u16],
    values: &mut [T::Value],
) -> Result<Plan<T::Value>, Unplanned>
    requires successors_long { length successors.old ≡ length day.now.trips.now }
    requires prices_long { length prices.old ≡ length day.now.trips.now }
    requires numbers_long { 4 * length day.now.trips.now ≤ length numbers.old }
    requires values_long { 3 * length day.now.trips.now ≤ length values.old }
    ensures { Comes T.Value.Rowed.row T.Value.Rowed.count
        (day_of (⟦<Terms<'a, R, T> as Pricing>⟧.terms day.now.terms.now) day.now.trips.now)
        day.now.limit successors.old prices.old result successors.new prices.new }
{
    let n = day.trips.len();
    let (next, more) = numbers.split_at_mut(n);
    let (prior, more) = more.split_at_mut(n);
    let (reached, more) = more.split_at_mut(n);
    let (via, _) = more.split_at_mut(n);
    let (coming, rest) = values.split_at_mut(n);
    let (leaving, rest) = rest.split_at_mut(n);
    let (slack, _) = rest.split_at_mut(n);
    outcome(
        &BoundedCosts { costs: day },
        day.limit,
        successors,
        prices,
        &mut Links { next, prior },
        &mut Prices {
            coming,
            leaving,
            hull: T::Value::zero(),
        },
        &mut Tails {
            reached,
            slack,
            via,
        },
    )
}

/// The same where the successors and the prices may have more entries: those past the trips stay as they were.
fn search_fronts<'a, R: Rule, T: Tariff>(
    day: &Day<'_, '_, 'a, R, T>,
    tables: &mut Tables<'_, T::Value>,
) -> Result<Plan<T::Value>, Unplanned>
    requires successors_long { length day.now.trips.now ≤ length tables.old.successors.now }
    requires prices_long { length day.now.trips.now ≤ length tables.old.prices.now }
    requires numbers_long { 4 * length day.now.trips.now + 4 ≤ length tables.old.numbers.now }
    requires values_long { 4 * length day.now.trips.now + 4 ≤ length tables.old.values.now }
    ensures same { SameTables tables.old tables.new }
    ensures answers { Searched T.Value.Rowed.row
        (⟦<Terms<'a, R, T> as Pricing>⟧.terms day.now.terms.now)
        day.now.trips.now day.now.limit
        (tables_of tables.old)
        result
        (tables_of tables.new) }
{
    let n = day.trips.len();
    search_day(
        day,
        &mut tables.successors[..n],
        &mut tables.prices[..n],
        tables.numbers,
        tables.values,
    )
}

/// Tries what comes before any search, and then searches.
fn answer<'a, R: Rule, T: Tariff>(
    day: &Day<'_, '_, 'a, R, T>,
    tables: &mut Tables<'_, T::Value>,
) -> Result<Plan<T::Value>, Fault>
    ensures same { SameTables tables.old tables.new }
    ensures answers { Answers T.Value.Rowed.row
        (⟦<Terms<'a, R, T> as Pricing>⟧.terms day.now.terms.now)
        day.now.trips.now day.now.limit
        (tables_of tables.old)
        result
        (tables_of tables.new) }
{
    let trips = day.trips;
    if let Some(k) = first_unserved(day.terms.rule, trips) {
        return Err(Layer::Board.fault(Refusal::NotServed, usize::from(trips[k].number)));
    }
    if is_short(tables, trips.len()) {
        return Err(Layer::Planner.fault(Refusal::TableTooShort, 0));
    }
    if is_fee_high(day.terms.fee) {
        return Err(Layer::Planner.fault(Refusal::FeeTooHigh, 0));
    }
    Ok(search_fronts(day, tables)?)
}

/// Plans the trips that stand on the board, within its limit: the cheapest duties by the rule, the tariff and the
/// fee. Accepted, it tells the number of duties, their cost and the hull price, and writes each trip's successor and
/// price at the trip's position; entries past the trips stay as they were. Refused, it leaves every table as it was, but
/// for the work tables (`numbers` and `values`) where hulls are too few or the cost is too high. Neither the
/// board nor anything else is altered, and no memory is asked for.
pub fn plan<'a, R: Rule, T: Tariff>(
    board: &Board,
    terms: &Terms<'a, R, T>,
    tables: &mut Tables<'_, T::Value>,
) -> Result<Plan<T::Value>, Fault>
    ensures same { SameTables tables.old tables.new }
    ensures answers { Answers T.Value.Rowed.row
        (⟦<Terms<'a, R, T> as Pricing>⟧.terms terms.now)
        (trips_of board.now) (limit_of board.now)
        (tables_of tables.old)
        result
        (tables_of tables.new) }
{
    let day = Day {
        trips: board.trips(),
        limit: board.limit(),
        terms,
    };
    answer(&day, tables)
}
