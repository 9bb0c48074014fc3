//! The reasons to refuse a trip.
ghost use Rattle.std.specs.Prelude.{◌≡◌};
ghost use Rattle.board.specs.Ranges.{in_range};
ghost use Rattle.board.specs.Refusals.{add_refusal};

use super::MOST_TRIPS;
use super::places::number_stands;
use faults::Refusal;
use rules::Rule;
use trips::Trip;

/// The last berth.
const LAST_BERTH: u8 = 31;

/// The last minute at which a trip may depart or arrive: fourteen days from the start.
const LAST_MINUTE: u16 = 20_160;

/// Whether the trip's number, berths and times are in their ranges.
fn in_range(trip: &Trip) -> bool
    ensures { result ≡ in_range trip.now }
{
    trip.number >= 1
        && trip.start <= LAST_BERTH
        && trip.departure <= LAST_MINUTE
        && trip.end <= LAST_BERTH
        && trip.arrival <= LAST_MINUTE
}

/// Why the trip is not added: the first reason that holds, or None.
pub(crate) fn why_not_added<R: Rule>(rule: &R, trips: &[Trip], trip: &Trip) -> Option<Refusal>
    ensures { result ≡ add_refusal (R.Rule.yard rule.now) trips.now trip.now }
{
    if !in_range(trip) {
        return Some(Refusal::TripOutOfRange);
    }
    if trip.departure >= trip.arrival {
        return Some(Refusal::NotBeforeArrival);
    }
    if number_stands(trips, trip.number) {
        return Some(Refusal::NumberStands);
    }
    if rule.yard_cents(trip).is_none() {
        return Some(Refusal::NotServed);
    }
    if trips.len() >= MOST_TRIPS {
        return Some(Refusal::BoardFull);
    }
    None
}
