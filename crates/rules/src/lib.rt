//! Connection rules: what it costs to take a vessel from the yard to a trip, from one trip to the
//! next, and home again, and where a rule allows none of these.
#![tactic(auto)]

mod cap;
mod rule;

pub use cap::Cap;
pub use rule::{Rule, YardCents};
