//! What a trip is, and the gap from one trip to another.
ghost use Rattle.std.specs.Prelude.{◌≡◌};
ghost use Rattle.trips.specs.Gaps.{gap_of, gap_lies_within};

/// A trip of a vessel between two berths.
#[derive(Clone, Copy, PartialEq, Eq, Debug)]
pub struct Trip {
    /// The number by which the trip is known.
    pub number: u16,
    /// The berth it leaves from.
    pub start: u8,
    /// When it departs, in minutes from the first day's start.
    pub departure: u16,
    /// The berth it arrives at.
    pub end: u8,
    /// When it arrives, in minutes from the first day's start.
    pub arrival: u16,
}

impl Trip {
    /// The trip with these values.
    pub fn new(number: u16, start: u8, departure: u16, end: u8, arrival: u16) -> Trip
        ensures number { result.number ≡ number }
        ensures start { result.start ≡ start }
        ensures departure { result.departure ≡ departure }
        ensures end { result.end ≡ end }
        ensures arrival { result.arrival ≡ arrival }
    {
        Trip {
            number,
            start,
            departure,
            end,
            arrival,
        }
    }
}

/// The minutes from the arrival of `first` to the departure of `next`: below zero where `next`
/// departs earlier than `first` arrives.
pub fn gap(first: &Trip, next: &Trip) -> i32
    ensures { result ≡ gap_of first.now next.now }
{
    i32::from(next.departure) - i32::from(first.arrival)
}

/// Whether the gap from `first` to `next` is from `lower` to `upper` minutes.
pub fn gap_within(first: &Trip, next: &Trip, lower: u32, upper: u32) -> bool
    ensures { result ≡ gap_lies_within lower upper first.now next.now }
{
    let minutes = i64::from(gap(first, next));
    (i64::from(lower)..=i64::from(upper)).contains(&minutes)
}
