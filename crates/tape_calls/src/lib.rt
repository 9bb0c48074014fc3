//! A tape's bytes as calls on a board.
#![tactic(auto)]

mod reading;
mod tape_calls;

pub use reading::read_tape;
pub use tape_calls::TapeCalls;
