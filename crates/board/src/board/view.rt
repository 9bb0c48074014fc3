//! A new board, and what a board shows.
ghost use Rattle.std.specs.Prelude.{◌≡◌, ◌≤◌, [], IfOk};
ghost use Rattle.board.specs.Boards.{limit_of, trips_of};
ghost use Rattle.board.specs.Standing.{Standing};

use super::{Board, MOST_TRIPS};
use std::alloc::{AllocError, Global};
use trips::Trip;

impl Board {
    /// A board with no trips and the limit 0, or an error where there is no memory for 200 trips.
    pub fn new(heap: Global) -> Result<Board, AllocError>
        ensures { IfOk result (λ b. (trips_of b ≡ []) × (limit_of b ≡ 0)) }
    {
        let trips = Vec::with_capacity(heap, MOST_TRIPS)?;
        Ok(Board { trips, limit: 0 })
    }

    /// The trips that stand, in board order.
    pub fn trips(&self) -> &[Trip]
        ensures value { result.now ≡ trips_of self.now }
        ensures standing { Standing result.now }
    {
        self.trips.as_slice()
    }

    /// The most duties that the trips may take.
    pub fn limit(&self) -> u16
        ensures value { result ≡ limit_of self.now }
        ensures bound { result ≤ 200 }
    {
        self.limit
    }
}
