//! How a new board is made, and how it is put to use.
ghost use Rattle.std.specs.Prelude.{◌≡◌, []};
ghost use Rattle.board.specs.Boards.{limit_of, trips_of};

use super::NewBoard;
use crate::board::Board;
use std::alloc::{AllocError, Global};

impl NewBoard {
    /// A new board, or an error where there is no memory for 200 trips.
    pub fn new(heap: Global) -> Result<NewBoard, AllocError> {
        let board = Board::new(heap)?;
        Ok(NewBoard { board })
    }

    /// The board, with no trips and the limit 0.
    pub fn into_board(self) -> Board
        ensures trips { trips_of result ≡ [] }
        ensures limit { limit_of result ≡ 0 }
    {
        self.board
    }
}
