//! What callers know that lend tables to plan and to a run of calls.
#![tactic(auto)]

mod four;
mod in_place;

pub use four::{plan_into, run_into};
pub use in_place::plan_in_place;
