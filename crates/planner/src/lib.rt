//! The cheapest duties for the trips that stand on a board, for every rule and every tariff.
#![tactic(auto)]

mod checks;
mod day;
mod outcome;
mod planning;
mod pricing;
mod search;

pub use planning::plan;
