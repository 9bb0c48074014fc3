//! A list of calls on a new board.
ghost use Rattle.std.specs.Prelude.{◌≡◌, [], length};
ghost use Rattle.board.specs.Boards.{limit_of, trips_of};
ghost use Rattle.plans.specs.Lent.{SameTables};
ghost use Rattle.runs.specs.Ran.{at_start, Ran};

use crate::listener::Listener;
use crate::obey::obey;
use board::{Board, NewBoard};
use calls::{Answer, Call};
use plans::{Pricing, Tables, Terms};
use rows::Rowed;
use rules::Rule;
use tariffs::Tariff;
use trips::Trip;

/// Lets the listener hear an answer, with the trips that stand and what the tables of successors and prices hold.
// A step of its own: the checker reads no two fields of lent tables in one call where they may be written.
fn tell<V, L: Listener<V>>(
    listener: &mut L,
    answer: &Answer<V>,
    trips: &[Trip],
    tables: &Tables<'_, V>,
)
    ensures { L.Listener.told listener.old (record { answer = answer.now; trips = trips.now; successors = tables.now.successors.now; prices = tables.now.prices.now }) listener.new }
{
    listener.hear(answer, trips, tables.successors, tables.prices);
}

/// Does the calls on the board, one after the other, and lets the listener hear of each.
fn run<'a, R: Rule, T: Tariff, L: Listener<T::Value>>(
    board: &mut Board,
    terms: &Terms<'a, R, T>,
    calls: &[Call],
    tables: &mut Tables<'_, T::Value>,
    listener: &mut L,
)
    requires trips { trips_of board.old ≡ [] }
    requires limit { limit_of board.old ≡ 0 }
    ensures same { SameTables tables.old tables.new }
    ensures ran { Ran L.Listener.told T.Value.Rowed.row
        (⟦<Terms<'a, R, T> as Pricing>⟧.terms terms.now)
        (length tables.old.numbers.now) (length tables.old.values.now) calls.now (at_start tables.old.successors.now tables.old.prices.now)
        listener.old listener.new tables.new.successors.now tables.new.prices.now board.new }
{
    for call in calls {
        let answer = obey(board, terms, *call, tables);
        tell(listener, &answer, board.trips(), tables);
    }
}

/// Does the calls on a new board, one after the other, and lets the listener hear of each as it comes. This holds
/// of every rule, every tariff, every fee, tables of any lengths and every list of calls:
///
/// - what the listener hears of each call is what is right of it where the trips stand and the limit is in force that the
///   calls before it lead to, by the rules of the board;
/// - of a plan it hears an answer with all that a plan promises, of the very tables that it hears: the duties are a
///   cover by allowed links within the limit, their cost is what they cost by the tariff, and also all prices
///   together less the limit times the hull price; any other duties cost at least what the prices say; hulls are told to
///   be too few exactly when every cover has more duties than the limit, with the fewest; and it is never
///   refused because a trip is not served;
/// - the board that comes back holds the trips and the limit after all calls, and the tables of successors and prices
///   what was heard last.
///
/// There is no other way out: no memory is asked for, and the listener cannot end the run.
pub fn run_calls<'a, R: Rule, T: Tariff, L: Listener<T::Value>>(
    board: NewBoard,
    terms: &Terms<'a, R, T>,
    calls: &[Call],
    tables: &mut Tables<'_, T::Value>,
    listener: &mut L,
) -> Board
    ensures same { SameTables tables.old tables.new }
    ensures ran { Ran L.Listener.told T.Value.Rowed.row
        (⟦<Terms<'a, R, T> as Pricing>⟧.terms terms.now)
        (length tables.old.numbers.now) (length tables.old.values.now) calls.now (at_start tables.old.successors.now tables.old.prices.now)
        listener.old listener.new tables.new.successors.now tables.new.prices.now result }
{
    let mut board = board.into_board();
    run(&mut board, terms, calls, tables, listener);
    board
}
