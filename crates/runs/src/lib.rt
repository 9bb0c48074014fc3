//! Any list of calls on a new board, and who hears of them.
#![tactic(auto)]

mod listener;
mod obey;
mod run;

pub use listener::Listener;
pub use run::run_calls;
