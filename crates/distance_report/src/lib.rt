//! The least distances between the berths of an edges sheet, as lines to print.
#![tactic(auto)]

mod berths;
mod cells;
mod lines;
mod table;

pub use lines::distance_lines;
