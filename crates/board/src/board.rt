//! What a board holds, and what holds of every board.
ghost use Rattle.std.specs.Prelude.{◌≤◌, vec_capacity};
ghost use Rattle.board.specs.Standing.{Standing};

use trips::Trip;

mod calls;
mod places;
mod reasons;
mod view;

/// How many trips may stand.
pub const MOST_TRIPS: usize = 200;

/// How many duties the trips may be given at most.
const MOST_DUTIES: u16 = 200;

/// The trips that stand, in board order, and the limit on the number of duties. Room for 200 trips
/// is taken when the board is made, so that no call on it asks for memory.
#[derive(Drop)]
pub struct Board {
    /// The trips, in board order.
    trips: Vec<Trip>,
    /// The most duties that the trips may take.
    limit: u16,
    ghost standing: { Standing trips.items },
    ghost room: { 200 ≤ vec_capacity trips },
    ghost limited: { limit ≤ 200 },
}
