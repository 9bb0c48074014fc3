//! Callers that lend four slices: their contracts say of each slice what it holds afterwards.
ghost use Rattle.std.specs.Prelude.{◌≡◌, length};
ghost use Rattle.board.specs.Boards.{limit_of, trips_of};
ghost use Rattle.plans.specs.Answers.{Answers};
ghost use Rattle.runs.specs.Ran.{at_start, Ran};

use board::{Board, NewBoard};
use calls::Call;
use faults::Fault;
use planner::plan;
use plans::{Plan, Tables, Terms};
use rows::Rowed;
use rules::Rule;
use runs::{Listener, run_calls};
use tariffs::Tariff;

/// Plans into four slices.
pub fn plan_into<'a, R: Rule, T: Tariff>(
    board: &'a Board,
    rule: &'a R,
    tariff: &'a T,
    fee: u32,
    successors: &mut [u16],
    prices: &mut [T::Value],
    numbers: &mut [u16],
    values: &mut [T::Value],
) -> Result<Plan<T::Value>, Fault>
    ensures { Answers T.Value.Rowed.row
        (record { yard = R.Rule.yard rule.now; link = R.Rule.link rule.now; places = T.Value.Rowed.count; opens = T.Tariff.opens tariff.now; links = T.Tariff.links tariff.now; homes = T.Tariff.homes tariff.now; fee = fee })
        (trips_of board.now) (limit_of board.now)
        (record { successors = successors.old; prices = prices.old; numbers = numbers.old; values = values.old })
        result
        (record { successors = successors.new; prices = prices.new; numbers = numbers.new; values = values.new }) }
{
    let terms = Terms { rule, tariff, fee };
    let mut tables = Tables {
        successors,
        prices,
        numbers,
        values,
    };
    plan(board, &terms, &mut tables)
}

/// Does a list of calls on a new board, with four slices for its plans.
pub fn run_into<R: Rule, T: Tariff, L: Listener<T::Value>>(
    board: NewBoard,
    rule: &R,
    tariff: &T,
    fee: u32,
    calls: &[Call],
    successors: &mut [u16],
    prices: &mut [T::Value],
    numbers: &mut [u16],
    values: &mut [T::Value],
    listener: &mut L,
) -> Board
    ensures { Ran L.Listener.told T.Value.Rowed.row
        (record { yard = R.Rule.yard rule.now; link = R.Rule.link rule.now; places = T.Value.Rowed.count; opens = T.Tariff.opens tariff.now; links = T.Tariff.links tariff.now; homes = T.Tariff.homes tariff.now; fee = fee })
        (length numbers.old) (length values.old) calls.now (at_start successors.old prices.old)
        listener.old listener.new successors.new prices.new result }
{
    let terms = Terms { rule, tariff, fee };
    let mut tables = Tables {
        successors,
        prices,
        numbers,
        values,
    };
    run_calls(board, &terms, calls, &mut tables, listener)
}
