//! The least lengths of walks along fairways, edges between 32 berths.
#![tactic(auto)]

mod direct;
mod edge;
mod lengths;
mod rounds;
mod shorter;
mod table;

pub use edge::Edge;
pub use table::{LengthTable, least_lengths};
