//! What a plan tells, what it goes by, and what it promises.
#![tactic(auto)]

mod plan;
mod tables;
mod terms;

pub use plan::Plan;
pub use tables::Tables;
pub use terms::{Pricing, Terms};
