//! The chart of the harbour: drawn from edges, closed into a finished one that answers distances, and
//! opened again. The two are two types, so that a drawn chart answers no distance and a finished one
//! takes no edge.
#![tactic(auto)]

mod drawn;
mod edges;
mod finished;
mod laid;

pub use drawn::{Drawing, DrawnChart};
pub use edges::EdgesSheet;
pub use finished::FinishedChart;
