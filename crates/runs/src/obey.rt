//! One call on a board.
ghost use Rattle.std.specs.Prelude.{◌≡◌};
ghost use Rattle.board.specs.Boards.{limit_of, trips_of};
ghost use Rattle.board.specs.Standing.{AllServed};
ghost use Rattle.calls.specs.Standing.{after_call, limit_after_call};
ghost use Rattle.plans.specs.Lent.{SameTables, tables_of};
ghost use Rattle.runs.specs.Step.{Step};

use board::Board;
use calls::{Answer, Call, Done};
use planner::plan;
use plans::{Pricing, Tables, Terms};
use rows::Rowed;
use rules::Rule;
use tariffs::Tariff;

/// Does one call on the board and tells what it answers.
pub(crate) fn obey<'a, R: Rule, T: Tariff>(
    board: &mut Board,
    terms: &Terms<'a, R, T>,
    call: Call,
    tables: &mut Tables<'_, T::Value>,
) -> Answer<T::Value>
    ensures trips { trips_of board.new ≡ after_call (R.Rule.yard terms.now.rule.now) (trips_of board.old) call }
    ensures limit { limit_of board.new ≡ limit_after_call (limit_of board.old) call }
    ensures served { AllServed (R.Rule.yard terms.now.rule.now) (trips_of board.old) → AllServed (R.Rule.yard terms.now.rule.now) (trips_of board.new) }
    ensures same { SameTables tables.old tables.new }
    ensures step { Step T.Value.Rowed.row
        (⟦<Terms<'a, R, T> as Pricing>⟧.terms terms.now)
        (trips_of board.old) (limit_of board.old) call
        (tables_of tables.old)
        result
        (tables_of tables.new) }
{
    match call {
        Call::Add(trip) => board.add(terms.rule, trip)?,
        Call::Withdraw(number) => board.withdraw(number)?,
        Call::SetLimit(limit) => board.set_limit(limit)?,
        Call::Plan => return Ok(Done::Planned(plan(board, terms, tables)?)),
    }
    Ok(Done::Altered)
}
