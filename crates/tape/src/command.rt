//! The commands of a tape.

/// A command as a tape has it. Any number, berth, time and limit may stand here.
#[derive(Clone, Copy, PartialEq, Eq, Debug)]
pub enum Command {
    /// Lay out a trip: its number, the berth and time it starts at, and the berth and time it ends at.
    Add {
        number: u16,
        start: u8,
        departure: u16,
        end: u8,
        arrival: u16,
    },
    /// Take away the trip with this number.
    Withdraw {
        number: u16,
    },
    /// Allow so many duties.
    Limit {
        limit: u8,
    },
    /// Plan the standing trips.
    Plan,
}
