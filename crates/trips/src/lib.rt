//! A trip between two berths, and the time between two trips.
#![tactic(auto)]

mod trip;

pub use trip::{Trip, gap, gap_within};
