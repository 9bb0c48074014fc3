//! Who is told what the calls answer.
ghost use Rattle.runs.specs.Heard.{Heard};

use calls::Answer;
use trips::Trip;

// A trait and no closure: a public function would have to require of a closure that it may be called each time.
/// Hears what each call answers, as it comes, with the trips that stand and what the tables of
/// successors and prices hold then. `V` stands for the rows of the tariff.
pub trait Listener<V> {
    /// What hearing something does: from what it is before to what it is after.
    ghost told: { Self → Heard V → Self → Type 0 };

    /// Hears an answer.
    fn hear(&mut self, answer: &Answer<V>, trips: &[Trip], successors: &[u16], prices: &[V])
        ensures { told self.old (record { answer = answer.now; trips = trips.now; successors = successors.now; prices = prices.now }) self.new };
}
