//! The trips along one duty.
ghost use Rattle.std.specs.Prelude.{◌≡◌, ◌<◌, ◌∷◌, length};
ghost use Rattle.std.specs.Iterator.{YieldsFirst, item_count};
ghost use Rattle.duties.specs.Tables.{duty_of};
ghost use Rattle.duty_list.specs.Along.{trips_from};
ghost use Rattle.duty_list.specs.ToCome.{trips_left};

/// Hands on the positions of the trips of a duty, in the order in which they are run.
#[derive(Drop)]
pub struct DutyTrips<'a> {
    successors: &'a [u16],
    /// The position to hand on next, if a trip has it; None after the last trip.
    at: Option<usize>,
}

/// Where the duty goes on after a position; None where it goes home.
fn onward(successors: &[u16], at: usize) -> Option<usize>
    requires { at < length successors.now }
    ensures { duty_of successors.now at ≡ at ∷ trips_from successors.now result }
{
    let entry = usize::from(successors[at]);
    (entry > at).then_some(entry)
}

impl<'a> DutyTrips<'a> {
    /// The trips of the duty that begins with the trip at a position; none where no trip has that
    /// position.
    pub fn new(successors: &'a [u16], first: usize) -> DutyTrips<'a>
        ensures { trips_left result ≡ duty_of successors.now first }
    {
        DutyTrips {
            successors,
            at: Some(first),
        }
    }
}

impl Iterator for DutyTrips<'_> {
    type Item = usize;

    ghost next_gives = { YieldsFirst trips_left };

    ghost remaining = { item_count trips_left };

    /// The position of the next trip of the duty; None after the last trip.
    fn next(&mut self) -> Option<usize> {
        let at = self.at.filter(|at| *at < self.successors.len())?;
        self.at = onward(self.successors, at);
        Some(at)
    }
}
