//! The duties of a successor table, one after the other, and the trips along each.
//!
//! A table of any length and with any entries has duties: an entry that does not lead to a later
//! position of the table ends its duty.
#![tactic(auto)]

mod along;
mod firsts;

pub use along::DutyTrips;
pub use firsts::Duties;
