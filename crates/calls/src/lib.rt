//! Calls on a board, and what they answer.
#![tactic(auto)]

mod answer;
mod call;

pub use answer::{Answer, Done};
pub use call::Call;
