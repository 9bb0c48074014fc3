//! A caller that was lent the tables itself: what plan says of them holds, and each is as long as it was.
ghost use Rattle.std.specs.Prelude.{◌≡◌, length};
ghost use Rattle.board.specs.Boards.{limit_of, trips_of};
ghost use Rattle.plans.specs.Answers.{Answers};
ghost use Rattle.plans.specs.Lent.{tables_of};

use board::Board;
use faults::Fault;
use planner::plan;
use plans::{Plan, Pricing, Tables, Terms};
use rows::Rowed;
use rules::Rule;
use tariffs::Tariff;

/// Plans into tables that the caller was lent.
pub fn plan_in_place<'a, R: Rule, T: Tariff>(
    board: &Board,
    terms: &Terms<'a, R, T>,
    tables: &mut Tables<'_, T::Value>,
) -> Result<Plan<T::Value>, Fault>
    ensures answers { Answers T.Value.Rowed.row
        (⟦<Terms<'a, R, T> as Pricing>⟧.terms terms.now)
        (trips_of board.now) (limit_of board.now)
        (tables_of tables.old)
        result
        (tables_of tables.new) }
    ensures successors { length tables.new.successors.now ≡ length tables.old.successors.now }
    ensures prices { length tables.new.prices.now ≡ length tables.old.prices.now }
    ensures numbers { length tables.new.numbers.now ≡ length tables.old.numbers.now }
    ensures values { length tables.new.values.now ≡ length tables.old.values.now }
{
    plan(board, terms, tables)
}
