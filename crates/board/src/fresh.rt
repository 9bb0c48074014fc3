//! A board before the first call on it.
ghost use Rattle.std.specs.Prelude.{◌≡◌, length};
ghost use Rattle.board.specs.Boards.{limit_of, trips_of};

use crate::board::Board;

mod begin;

/// A new board: no trips, and limit 0. A call that is to begin with a new board takes one of these.
#[derive(Drop)]
pub struct NewBoard {
    board: Board,
    ghost empty: { length (trips_of board) ≡ 0 },
    ghost unlimited: { limit_of board ≡ 0 },
}
