//! What is printed of a tape of calls: a line or some for each call, and the tape's fault.
#![tactic(auto)]

mod lines;
mod page;

pub use lines::tape_lines;
