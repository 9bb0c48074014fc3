//! A plan as lines to print: a line for each duty with the numbers of its trips, and a last line with the
//! number of duties and their cost.
#![tactic(auto)]

mod duty_lines;
mod last_line;
mod plan;

pub use plan::PlanLines;
