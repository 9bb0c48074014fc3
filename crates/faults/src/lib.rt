//! Why something is refused, in which layer, and at which place.
//!
//! Every layer speaks of its refusals in this one vocabulary, so that a fault keeps its number,
//! layer and place unchanged on its way up.
#![tactic(auto)]

mod fault;
mod layer;
mod refusal;

pub use fault::Fault;
pub use layer::Layer;
pub use refusal::{MOST_BYTES, Refusal};
