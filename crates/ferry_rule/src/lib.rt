//! The ferry office's connection rule: a link takes the way by the chart, within the times for
//! turning round and for waiting.
#![tactic(auto)]

mod facts;
mod making;
mod rule;
mod terms;

pub use rule::FerryRule;
