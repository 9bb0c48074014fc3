//! Where a trip stands, or is to stand, among trips in board order.
ghost use Rattle.std.specs.Prelude.{◌≡◌, ◌<◌, false, length, MatchOption, slice_index_or};
ghost use Rattle.std.specs.List.{prefix_len};
ghost use Rattle.trips.specs.Default.{no_trip};
ghost use Rattle.board.specs.Order.{before, InOrder};
ghost use Rattle.board.specs.Lists.{stands};

use trips::Trip;

/// Whether the first trip stands before the second.
fn stands_before(first: &Trip, second: &Trip) -> bool
    ensures { result ≡ before first.now second.now }
{
    (first.departure, first.number) < (second.departure, second.number)
}

/// How many trips at the front stand before the trip.
pub(crate) fn place(trips: &[Trip], trip: &Trip) -> usize
    requires { InOrder trips.now }
    ensures { result ≡ prefix_len (λ x. before x trip.now) trips.now }
{
    trips.partition_point(|other| stands_before(other, trip))
}

/// Where a trip with the number stands, or None where there is none.
pub(crate) fn find(trips: &[Trip], number: u16) -> Option<usize>
    ensures { MatchOption result (stands trips.now number ≡ false) (λ i. (i < length trips.now) × ((slice_index_or trips.now i no_trip).number ≡ number)) }
{
    trips.iter().position(|trip| trip.number == number)
}

/// Whether a trip with the number stands.
pub(crate) fn number_stands(trips: &[Trip], number: u16) -> bool
    ensures { result ≡ stands trips.now number }
{
    trips.iter().any(|trip| trip.number == number)
}
