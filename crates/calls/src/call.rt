//! The four calls on a board.
use trips::Trip;

/// A call on a board.
#[derive(Clone, Copy)]
pub enum Call {
    /// Make a trip stand.
    Add(Trip),
    /// End the standing of the trip with this number.
    Withdraw(u16),
    /// Set the most duties that the trips may take.
    SetLimit(u16),
    /// Plan the standing trips.
    Plan,
}
