//! The twenty-five refusals and their numbers.
ghost use Rattle.std.specs.Prelude.{◌≡◌};
ghost use Rattle.faults.specs.Numbers.{number_of};

/// A sheet or a tape has at most so many bytes.
pub const MOST_BYTES: usize = 60_000;

/// Why an input or a call is refused. Each case is shown to the user by its number alone.
#[derive(Clone, Copy, PartialEq, Eq, Debug)]
pub enum Refusal {
    /// A sheet or a tape has more than 60,000 bytes.
    InputTooLong,
    /// A line has the wrong number of fields.
    FieldCount,
    /// A field is not one to ten digits.
    NotANumber,
    /// A number is out of its range.
    OutOfRange,
    /// Too many records for the sheet or its table, or not exactly one where one is asked.
    RecordCount,
    /// An edge joins a berth to itself.
    JoinsItself,
    /// An event, or a pair of trips, is listed twice.
    ListedTwice,
    /// An activity names an event that is not listed, or one event twice.
    BadActivityEvents,
    /// Two drives or waits share a tail or share a head.
    SharedEnd,
    /// Drives and waits form a circle.
    Circle,
    /// An activity's span passes its upper bound.
    SpanTooLong,
    /// More than 200 trips are rolled out.
    TooManyTrips,
    /// A trip's number, berth or time is out of its range.
    TripOutOfRange,
    /// A trip's departure is not before its arrival.
    NotBeforeArrival,
    /// A trip with this number stands already.
    NumberStands,
    /// The connection rule does not serve the trip.
    NotServed,
    /// The board is full: 200 trips stand.
    BoardFull,
    /// No trip with this number stands.
    NumberDoesNotStand,
    /// The limit is above 200.
    LimitTooHigh,
    /// A table that was given is too short.
    TableTooShort,
    /// The fee is above 1,000,000,000.
    FeeTooHigh,
    /// Every cover of the standing trips has more duties than the limit.
    TooFewHulls,
    /// The cost passes 10^15 in some place.
    CostTooHigh,
    /// A letter on the tape names no command.
    UnknownLetter,
    /// A command's operands are cut short by the end of the tape.
    OperandsCutShort,
}

impl Refusal {
    /// The number by which users know the refusal.
    pub fn number(self) -> u8
        ensures { result ≡ number_of self }
    {
        match self {
            Refusal::InputTooLong => 1,
            Refusal::FieldCount => 2,
            Refusal::NotANumber => 3,
            Refusal::OutOfRange => 4,
            Refusal::RecordCount => 5,
            Refusal::JoinsItself => 6,
            Refusal::ListedTwice => 7,
            Refusal::BadActivityEvents => 8,
            Refusal::SharedEnd => 9,
            Refusal::Circle => 10,
            Refusal::SpanTooLong => 11,
            Refusal::TooManyTrips => 12,
            Refusal::TripOutOfRange => 13,
            Refusal::NotBeforeArrival => 14,
            Refusal::NumberStands => 15,
            Refusal::NotServed => 16,
            Refusal::BoardFull => 17,
            Refusal::NumberDoesNotStand => 18,
            Refusal::LimitTooHigh => 19,
            Refusal::TableTooShort => 20,
            Refusal::FeeTooHigh => 21,
            Refusal::TooFewHulls => 22,
            Refusal::CostTooHigh => 23,
            Refusal::UnknownLetter => 24,
            Refusal::OperandsCutShort => 25,
        }
    }
}
