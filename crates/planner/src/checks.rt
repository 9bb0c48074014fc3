//! What plan looks at before any search, and the faults that it tells.
ghost use Rattle.std.specs.Prelude.{◌≡◌, ◌≤◌, length, MatchOption};
ghost use Rattle.board.specs.Standing.{AllServed};
ghost use Rattle.plans.specs.Answers.{FirstUnserved, fee_high, too_short};
ghost use Rattle.plans.specs.Lent.{tables_of};
ghost use Rattle.planner.specs.Answered.{unplanned_fault};

use crate::outcome::Unplanned;
use faults::{Fault, Layer, Refusal};
use plans::Tables;
use rules::Rule;
use trips::Trip;

/// The highest fee. This is a rule of its own, beside the one by which a tariff counts cents up to the same number.
const MOST_FEE: u32 = 1_000_000_000;

/// Where the first trip stands that the rule does not serve.
pub(crate) fn first_unserved<R: Rule>(rule: &R, trips: &[Trip]) -> Option<usize>
    ensures { MatchOption result (AllServed (R.Rule.yard rule.now) trips.now) (λ k. FirstUnserved (R.Rule.yard rule.now) trips.now k) }
{
    trips
        .iter()
        .position(|trip| rule.yard_cents(trip).is_none())
}

/// Whether some table is too short for so many trips.
pub(crate) fn is_short<V>(tables: &Tables<'_, V>, trips: usize) -> bool
    requires { trips ≤ 200 }
    ensures { result ≡ too_short trips (tables_of tables.now) }
{
    let work = 4 * trips + 4;
    tables.successors.len() < trips
        || tables.prices.len() < trips
        || tables.numbers.len() < work
        || tables.values.len() < work
}

/// Whether a fee is too high.
pub(crate) fn is_fee_high(fee: u32) -> bool
    ensures { result ≡ fee_high fee }
{
    fee > MOST_FEE
}

impl From<Unplanned> for Fault {
    ghost from_gives = { λ why fault. fault ≡ unplanned_fault why };

    /// The fault by which it is told that a search came to no plan.
    fn from(why: Unplanned) -> Fault {
        match why {
            Unplanned::TooFew(fewest) => {
                Layer::Planner.fault(Refusal::TooFewHulls, usize::from(fewest))
            }
            Unplanned::TooDear => Layer::Planner.fault(Refusal::CostTooHigh, 0),
        }
    }
}
