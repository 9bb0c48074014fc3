//! The calls on a board.
ghost use Rattle.std.specs.Prelude.{◌≡◌, ◌<◌, true, length, is_ok, Option as Maybe};
ghost use Rattle.std.specs.List.{remove};
ghost use Rattle.rules.specs.declared.rule.YardCents.{YardCents};
ghost use Rattle.trips.specs.declared.trip.Trip.{Trip};
ghost use Rattle.board.specs.Boards.{limit_of, trips_of};
ghost use Rattle.board.specs.Exact.{JoinedBy, Only, RidOf, Undone};
ghost use Rattle.board.specs.Refusals.{add_refusal, after_add, after_set_limit, after_withdraw, answer, limit_refusal, withdraw_refusal};
ghost use Rattle.board.specs.Standing.{AllServed};

use super::places::{find, place};
use super::reasons::why_not_added;
use super::{Board, MOST_DUTIES};
use faults::{Fault, Layer, Refusal};
use rules::Rule;
use trips::Trip;

impl Board {
    // That a call leaves the limit, or the trips, is said of each call that does: others alter them.

    /// Adds a trip at its place in board order, or refuses it and changes nothing.
    pub fn add<R: Rule>(&mut self, rule: &R, trip: Trip) -> Result<(), Fault>
        ensures answer { result ≡ answer (add_refusal (R.Rule.yard rule.now) (trips_of self.old) trip) trip.number }
        ensures trips { trips_of self.new ≡ after_add (R.Rule.yard rule.now) (trips_of self.old) trip }
        ensures limit { limit_of self.new ≡ limit_of self.old }
        ensures exact { is_ok result ≡ true → Only (JoinedBy (trips_of self.old) trip) (trips_of self.new) }
        ensures undone { is_ok result ≡ true → Undone (trips_of self.new) trip.number (trips_of self.old) }
        ensures served { AllServed (R.Rule.yard rule.now) (trips_of self.old) → AllServed (R.Rule.yard rule.now) (trips_of self.new) }
    {
        if let Some(refusal) = why_not_added(rule, &self.trips, &trip) {
            return Err(Layer::Board.fault(refusal, usize::from(trip.number)));
        }
        let at = place(&self.trips, &trip);
        self.trips.insert(at, trip).unwrap();
        Ok(())
    }

    /// Takes the trip with the number off the board, or refuses and changes nothing.
    pub fn withdraw(&mut self, number: u16) -> Result<(), Fault>
        ensures answer { result ≡ answer (withdraw_refusal (trips_of self.old) number) number }
        ensures trips { trips_of self.new ≡ after_withdraw (trips_of self.old) number }
        ensures limit { limit_of self.new ≡ limit_of self.old }
        ensures exact { is_ok result ≡ true → Only (RidOf (trips_of self.old) number) (trips_of self.new) }
        ensures served { (yard : Trip → Maybe YardCents) → AllServed yard (trips_of self.old) → AllServed yard (trips_of self.new) }
    {
        // A `let else`, so that a fault is made only where it is told.
        let Some(at) = find(&self.trips, number) else {
            return Err(Layer::Board.fault(Refusal::NumberDoesNotStand, usize::from(number)));
        };
        self.take_off(at);
        Ok(())
    }

    /// Takes the trip at a place off the board.
    fn take_off(&mut self, at: usize)
        requires { at < length (trips_of self.old) }
        ensures trips { trips_of self.new ≡ remove (trips_of self.old) at }
        ensures limit { limit_of self.new ≡ limit_of self.old }
    {
        self.trips.remove(at);
    }

    /// Sets the most duties that the trips may take, or refuses and changes nothing.
    pub fn set_limit(&mut self, limit: u16) -> Result<(), Fault>
        ensures answer { result ≡ answer (limit_refusal limit) limit }
        ensures trips { trips_of self.new ≡ trips_of self.old }
        ensures limit { limit_of self.new ≡ after_set_limit (limit_of self.old) limit }
    {
        if limit > MOST_DUTIES {
            return Err(Layer::Board.fault(Refusal::LimitTooHigh, usize::from(limit)));
        }
        self.limit = limit;
        Ok(())
    }
}
